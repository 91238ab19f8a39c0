// Reads a text from standard input and takes two decimal numbers of any size as arguments, an OUT pin and a product's number. Prints 0 for no
// implicant, 1 for an implicant and 2 for a prime, or a refusal's line. A text that is too long is refused by its first 32,769 bytes. With other
// arguments it reads nothing and prints only its usage, on standard error.
#![tactic(auto)]

use std::env::{Env, FillError};
use std::io;
use std::io::Write;

// The answer to a question about the text on standard input.
fn answer_input(rt: &HostRuntime, pin: usize, product: usize) -> io::Result<()> {
    let mut text = [0u8; 32769];
    let n = answers::read_full(&mut rt.stdin(), &mut text)?;
    let mut out = [0u8; 42];
    let mut room = [0u8; 65536];
    let k = textverbs::ask_answer(&text[..n], pin, product, &mut out, &mut room);
    rt.stdout().write_all(&out[..k])
}

fn usage(rt: &HostRuntime) -> io::Result<()> {
    rt.stderr()
        .write_all(b"usage: lola_ask PIN NUMBER < TEXT\n")
}

// Argument i as a number. Linux passes none of more than 131,071 bytes.
fn argument(rt: &HostRuntime, i: usize) -> Option<usize> {
    let mut word = [0u8; 131072];
    match rt.arg(i, &mut word) {
        Ok(n) => numerals::number_of(&word[..n]),
        Err(_) => None,
    }
}

// Whether there is an argument i. (A longer one than the room is one too.)
fn is_given(rt: &HostRuntime, i: usize) -> bool {
    let mut word = [0u8; 1];
    !matches!(rt.arg(i, &mut word), Err(FillError::NotPresent))
}

fn main(rt: HostRuntime) -> io::Result<()> {
    if is_given(&rt, 3) {
        return usage(&rt);
    }
    match (argument(&rt, 1), argument(&rt, 2)) {
        (Some(pin), Some(product)) => answer_input(&rt, pin, product),
        _ => usage(&rt),
    }
}
