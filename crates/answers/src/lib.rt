// What every program does with what it reads: a room filled, a line of it, and all of it counted to its end. A read that is interrupted is tried again; any
// other error of a read is handed on.
#![tactic(auto)]

ghost use Rattle.std.specs.Prelude.{◌≡◌, ◌≢◌, ℕ, ◌≤◌, length, IfOk, IfErr, IfSome, IsTrue, ◌↔◌};
ghost use Rattle.std.specs.IoError.{error_kind};
ghost use Rattle.answers.specs.Line.{kept};

use std::io;
use std::io::{Error, ErrorKind, Read};

// Whether a read that failed so may be tried again.
fn is_interrupted(e: &Error) -> bool
    ensures { IsTrue result ↔ (error_kind e.now ≡ ErrorKind.Interrupted) }
{
    e.kind() == ErrorKind::Interrupted
}

// One read into the room; nothing is taken where it is interrupted.
fn read_some<R: Read>(from: &mut R, room: &mut [u8]) -> io::Result<Option<usize>>
    ensures within { IfOk result (λ o. IfSome o (λ n. n ≤ length room.new)) }
    ensures retried { IfErr result (λ e. error_kind e ≢ ErrorKind.Interrupted) }
{
    match from.read(room) {
        Ok(n) => Ok(Some(n)),
        Err(e) if is_interrupted(&e) => Ok(None),
        Err(e) => Err(e),
    }
}

// Fills the room from what is read, as far as that goes, and answers with how many bytes.
pub fn read_full<R: Read>(from: &mut R, room: &mut [u8]) -> io::Result<usize>
    ensures within { IfOk result (λ n. n ≤ length room.new) }
    ensures retried { IfErr result (λ e. error_kind e ≢ ErrorKind.Interrupted) }
    ensures size { length room.new ≡ length room.old }
{
    let mut n = 0;
    for _ in 0..u64::MAX {
        if n == room.len() {
            break;
        }
        match read_some(from, &mut room[n..])? {
            Some(0) => break,
            Some(k) => n += k,
            None => {}
        }
    }
    Ok(n)
}

// Takes what is still to be read, up to 65,536 bytes, and answers how many.
fn more<R: Read>(from: &mut R) -> io::Result<usize>
    ensures within { IfOk result (λ n. n ≤ 65536) }
    ensures retried { IfErr result (λ e. error_kind e ≢ ErrorKind.Interrupted) }
{
    let mut kept = [0u8; 65536];
    read_full(from, &mut kept)
}

// Takes what is still to be read, to its end, and answers how long the whole of it was if `had` bytes came before. (It stops beyond 2 ^ 62 bytes.)
pub fn whole_length<R: Read>(from: &mut R, had: usize) -> io::Result<usize>
    ensures whole { IfOk result (λ n. had ≤ n) }
    ensures retried { IfErr result (λ e. error_kind e ≢ ErrorKind.Interrupted) }
{
    let mut total = had;
    while total < 1 << 62 {
        match more(from)? {
            0 => break,
            n => total += n,
        }
    }
    Ok(total)
}

// A line: how many bytes of it were kept, and what ended it.
#[derive(Clone, Copy)]
pub enum Line {
    // LF came behind it.
    Ended(usize),
    // What is read ended first.
    Last(usize),
}

// Keeps a byte where there is room for it.
fn keep(buf: &mut [u8], n: usize, b: u8) -> usize
    requires { n ≤ length buf.old }
    ensures within { result ≤ length buf.new }
    ensures size { length buf.new ≡ length buf.old }
{
    if n < buf.len() {
        buf[n] = b;
        n + 1
    } else {
        n
    }
}

// Reads a line, and keeps as much of it as there is room for.
pub fn read_line<R: Read>(from: &mut R, buf: &mut [u8]) -> io::Result<Line>
    ensures within { IfOk result (λ line. kept line ≤ length buf.new) }
    ensures retried { IfErr result (λ e. error_kind e ≢ ErrorKind.Interrupted) }
    ensures size { length buf.new ≡ length buf.old }
{
    let mut one = [0u8; 1];
    let mut n = 0;
    for _ in 0..1000000000000u64 {
        if read_full(from, &mut one)? == 0 {
            break;
        }
        if one[0] == b'\n' {
            return Ok(Line::Ended(n));
        }
        n = keep(buf, n, one[0]);
    }
    Ok(Line::Last(n))
}
