// Runs the model on standard input. The first line is a map, in digits; each line after it gives ten digits, the registers of pins 14 to 23, a blank, and
// twenty-four digits, pins 1 to 24. Each is answered by a line: the pins shown, their values, the registers after the clock; or a refusal.
#![tactic(auto)]

use answers::Line;
use std::io;
use std::io::{Read, Write};

// Answers a line.
fn put_answer<W: Write>(to: &mut W, map: &[u8], line: &[u8]) -> io::Result<()> {
    let mut out = [0u8; 61];
    let n = gallines::answer(map, line, &mut out);
    to.write_all(&out[..n])
}

// Reads a line into the room lent and answers it; says whether another may follow. The room is larger than any line that is taken, so a line
// that fills it is not.
fn answer_next<R: Read, W: Write>(
    from: &mut R,
    to: &mut W,
    map: &[u8],
    room: &mut [u8],
) -> io::Result<bool> {
    match answers::read_line(from, room)? {
        Line::Ended(n) => {
            let k = gallines::contents_of(&room[..n]);
            put_answer(to, map, &room[..k])?;
            Ok(true)
        }
        Line::Last(0) => Ok(false),
        Line::Last(n) => {
            put_answer(to, map, &room[..n])?;
            Ok(false)
        }
    }
}

// Answers every line.
fn answer_all<R: Read, W: Write>(from: &mut R, to: &mut W, map: &[u8]) -> io::Result<()> {
    let mut room = [0u8; 37];
    for _ in 0..1000000000000u64 {
        if !answer_next(from, to, map, &mut room)? {
            break;
        }
    }
    Ok(())
}

// Reads the map, and answers every line.
fn run<R: Read, W: Write>(from: &mut R, to: &mut W) -> io::Result<()> {
    let mut room = [0u8; 5894];
    if let Line::Ended(n) = answers::read_line(from, &mut room)? {
        let k = gallines::contents_of(&room[..n]);
        let map = &mut room[..k];
        gallines::map_in(map);
        answer_all(from, to, map)?;
    }
    Ok(())
}

fn main(rt: HostRuntime) -> io::Result<()> {
    run(&mut rt.stdin(), &mut rt.stdout())
}
