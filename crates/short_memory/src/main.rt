// Calls each call of the library that is lent memory with just enough of it and with a byte less, all bytes 7 before, and prints what is answered and what
// the memory holds then: refusal 13 leaves the output as it was, and the working room is zeroed either way.
#![tactic(auto)]

ghost use Rattle.std.specs.Prelude.{ℕ, ◌≤◌};

use kinvlopt::{Grade, Refusal};
use std::io::Write;
use std::{fmt, io};

// What a call answered.
#[derive(Clone, Copy)]
enum Told {
    Bytes(usize),
    Grade(Grade),
    Refused(Refusal),
}

impl From<Result<usize, Refusal>> for Told {
    fn from(said: Result<usize, Refusal>) -> Told {
        match said {
            Ok(len) => Told::Bytes(len),
            Err(refusal) => Told::Refused(refusal),
        }
    }
}

impl From<Result<Grade, Refusal>> for Told {
    fn from(graded: Result<Grade, Refusal>) -> Told {
        match graded {
            Ok(grade) => Told::Grade(grade),
            Err(refusal) => Told::Refused(refusal),
        }
    }
}

impl fmt::Display for Told {
    fn fmt<W: fmt::Write>(&self, f: &mut fmt::Formatter<W>) -> fmt::Result {
        match self {
            Told::Bytes(len) => write!(f, "{len} bytes"),
            Told::Grade(Grade::NoImplicant) => write!(f, "no implicant"),
            Told::Grade(Grade::Implicant) => write!(f, "implicant"),
            Told::Grade(Grade::Prime) => write!(f, "prime"),
            Told::Refused(refusal) => {
                write!(f, "refused {} {}", refusal.reason.number(), refusal.place)
            }
        }
    }
}

// What the memory holds after a call.
fn put_memory<W: Write>(to: &mut W, out: &[u8], room: &[u8]) -> io::Result<()> {
    if out.iter().all(|&b| b == 7) {
        to.write_all(b", output as it was")?;
    } else {
        to.write_all(b", output written")?;
    }
    if room.iter().all(|&b| b == 0) {
        to.write_all(b", room zeroed\n")
    } else {
        to.write_all(b", room not zeroed\n")
    }
}

// Makes a call that is lent so many bytes of output and of room.
fn try_call<W: Write, F: Fn(&mut [u8], &mut [u8]) -> Told>(
    to: &mut W,
    name: &str,
    out_len: usize,
    room_len: usize,
    call: F,
) -> io::Result<()>
    requires callable { F.IsAlwaysCallable call }
    requires out_fits { out_len ≤ 7154 }
    requires room_fits { room_len ≤ 65536 }
{
    let mut out = [7u8; 7154];
    let mut room = [7u8; 65536];
    let out = &mut out[..out_len];
    let room = &mut room[..room_len];
    let told = call(out, room);
    write!(to, "{name} {out_len} {room_len}: {told}")?;
    put_memory(to, out, room)
}

// Makes a call with enough output and room, and with a byte less of either.
fn try_short<W: Write, F: Fn(&mut [u8], &mut [u8]) -> Told>(
    to: &mut W,
    name: &str,
    call: F,
) -> io::Result<()>
    requires { F.IsAlwaysCallable call }
{
    try_call(to, name, 7154, 65536, &call)?;
    try_call(to, name, 7153, 65536, &call)?;
    try_call(to, name, 7154, 65535, &call)
}

// Everything with one text.
fn try_all<W: Write>(to: &mut W, text: &[u8]) -> io::Result<()> {
    try_short(to, "compile", |out, room| {
        kinvlopt::compile(text, out, room).into()
    })?;
    try_short(to, "fit", |out, room| kinvlopt::fit(text, out, room).into())?;
    let ask = |_: &mut [u8], room: &mut [u8]| kinvlopt::ask(text, 23, 1, room).into();
    try_call(to, "ask", 0, 65536, &ask)?;
    try_call(to, "ask", 0, 65535, &ask)?;
    let write = |out: &mut [u8], _: &mut [u8]| kinvlopt::write(&[0; 5892], out).into();
    try_call(to, "write", 7154, 0, &write)?;
    try_call(to, "write", 7153, 0, &write)
}

fn main(rt: HostRuntime) -> io::Result<()> {
    let mut to = rt.stdout();
    try_all(
        &mut to,
        b"MODULE T; IN a: BIT; OUT y: BIT; BEGIN a::2; y::23; y := REG(y - a) END T.",
    )?;
    try_all(
        &mut to,
        b"MODULE T; IN a: BIT; OUT y: BIT; BEGIN a::2; y::23; y := REG(y - b) END T.",
    )
}
