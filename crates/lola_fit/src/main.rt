// Reads a text from standard input and prints a line for each OUT pin, or a refusal's line. A text that is too long is refused by its first 32,769 bytes.
#![tactic(auto, using(fusetext::proofs::Puts::length_wrote))]

use std::io;
use std::io::Write;

// Kept: each program holds the memory that it lends, so reading and printing stand in its main, as in the other programs of a text.
fn main(rt: HostRuntime) -> io::Result<()> {
    let mut text = [0u8; 32769];
    let mut out = [0u8; 7154];
    let mut room = [0u8; 65536];
    let n = answers::read_full(&mut rt.stdin(), &mut text)?;
    let k = textverbs::fit_answer(&text[..n], &mut out, &mut room);
    rt.stdout().write_all(&out[..k])
}
