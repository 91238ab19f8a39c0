// Answers records, so that thousands of calls are one run. A record on standard input is a line with a verb, its numbers and last a length,
// then as many bytes, then LF; the answer is a line with # and the record's index, and a length, then as many bytes, then LF. The bytes are
// what the verb's own program prints for those of the record: `compile` as lola_compile, `fit` as lola_fit, `ask PIN NUMBER` as lola_ask,
// `read` as fuse_read, `write` as fuse_write, `model` as gal_model. Any other verb is answered with no byte, and so is a `model` of more than
// 65,537 bytes.
#![tactic(auto)]

ghost use Rattle.std.specs.Prelude.{ℕ, ◌≤◌, length, IfOk};

use std::io;
use std::io::{Read, Write};

// Which program answers a record.
#[derive(Clone, Copy)]
enum Verb {
    Ask,
    Compile,
    Fit,
    Read,
    Write,
    Model,
    Other,
}

// A verb goes by its first letter.
impl From<u8> for Verb {
    fn from(letter: u8) -> Verb {
        match letter {
            b'a' => Verb::Ask,
            b'c' => Verb::Compile,
            b'f' => Verb::Fit,
            b'r' => Verb::Read,
            b'w' => Verb::Write,
            b'm' => Verb::Model,
            _ => Verb::Other,
        }
    }
}

// A record's first line: its verb and its last three numbers, each 0 where there are fewer. The last is the length of the bytes that follow.
#[derive(Clone, Copy)]
struct Head {
    verb: Verb,
    first: usize,
    second: usize,
    len: usize,
}

impl Head {
    // The line with a byte more: a blank begins a number.
    fn with_byte(self, b: u8) -> Head {
        match b {
            b' ' => Head {
                first: self.second,
                second: self.len,
                len: 0,
                ..self
            },
            b'0'..=b'9' => Head {
                len: with_digit(self.len, b - b'0'),
                ..self
            },
            _ => self,
        }
    }

    // What is printed for the record, of whose bytes these are kept: as many first bytes of the output as are answered. Of a text that is too long a
    // part is enough, since more than 32,768 bytes are kept.
    #[tactic(auto, using(fusetext::proofs::Puts::length_wrote))]
    fn answer(self, kept: &mut [u8], out: &mut [u8; 327685], room: &mut [u8; 65536]) -> usize
        requires { length kept.old ≤ 65537 }
        ensures { result ≤ 327685 }
    {
        match self.verb {
            Verb::Ask => textverbs::ask_answer(kept, self.first, self.second, out, room),
            Verb::Compile => textverbs::compile_answer(kept, out, room),
            Verb::Fit => textverbs::fit_answer(kept, out, room),
            Verb::Read => verbs::read_answer(kept, self.len, out),
            Verb::Write => verbs::write_answer(kept, out),
            Verb::Model if self.len <= kept.len() => verbs::model_answer(kept, out),
            Verb::Model | Verb::Other => 0,
        }
    }
}

// A number with a digit more. From 10 ^ 18 on it stays as it is: no length, OUT pin or product's number comes near that.
fn with_digit(n: usize, digit: u8) -> usize {
    if n < 1000000000000000000 {
        n * 10 + digit as usize
    } else {
        n
    }
}

// The next byte, if there is one.
fn next_byte<R: Read>(from: &mut R) -> io::Result<Option<u8>> {
    let mut one = [0u8; 1];
    let n = answers::read_full(from, &mut one)?;
    Ok(if n == 0 { None } else { Some(one[0]) })
}

// Reads a record's first line, if there is one that LF ends.
fn read_head<R: Read>(from: &mut R) -> io::Result<Option<Head>> {
    let mut head = Head {
        verb: Verb::Other,
        first: 0,
        second: 0,
        len: 0,
    };
    for n in 0..1000000000000u64 {
        match next_byte(from)? {
            None => break,
            Some(b'\n') => return Ok(Some(head)),
            Some(b) if n == 0 => head.verb = Verb::from(b),
            Some(b) => head = head.with_byte(b),
        }
    }
    Ok(None)
}

// Takes some of the next n bytes, and answers how many.
fn skip_some<R: Read>(from: &mut R, n: usize) -> io::Result<usize>
    ensures { IfOk result (λ k. k ≤ n) }
{
    let mut passed = [0u8; 4096];
    let k = n.min(4096);
    answers::read_full(from, &mut passed[..k])
}

// Takes the next n bytes.
fn skip<R: Read>(from: &mut R, n: usize) -> io::Result<()> {
    let mut left = n;
    while 0 < left {
        match skip_some(from, left)? {
            0 => break,
            k => left -= k,
        }
    }
    Ok(())
}

// Takes a record's bytes and the LF behind them, and answers how many bytes are kept.
fn take<R: Read>(from: &mut R, len: usize, input: &mut [u8; 65537]) -> io::Result<usize>
    ensures { IfOk result (λ n. n ≤ 65537) }
{
    let k = len.min(65537);
    let n = answers::read_full(from, &mut input[..k])?;
    skip(from, len - k)?;
    skip(from, 1)?;
    Ok(n)
}

// Prints an answer.
fn put_out<W: Write>(to: &mut W, index: u64, bytes: &[u8]) -> io::Result<()> {
    writeln!(to, "#{index} {}", bytes.len())?;
    to.write_all(bytes)?;
    to.write_all(b"\n")
}

// Answers every record.
fn run<R: Read, W: Write>(from: &mut R, to: &mut W) -> io::Result<()> {
    let mut input = [0u8; 65537];
    let mut out = [0u8; 327685];
    let mut room = [0u8; 65536];
    for index in 0..1000000000000u64 {
        let Some(head) = read_head(from)? else {
            break;
        };
        let n = take(from, head.len, &mut input)?;
        let k = head.answer(&mut input[..n], &mut out, &mut room);
        put_out(to, index, &out[..k])?;
    }
    Ok(())
}

fn main(rt: HostRuntime) -> io::Result<()> {
    run(&mut rt.stdin(), &mut rt.stdout())
}
