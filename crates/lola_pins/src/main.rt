// Reads a text from standard input and prints a line for each element of IN and OUT, in declaration order: its pin, IN or OUT, and the byte where its
// name is declared; or a refusal's line, of the stages before outputs are fitted. A text that is too long is refused by its first 32,769 bytes.
#![tactic(auto)]

ghost use Rattle.std.specs.Prelude.{◌<◌};

use std::io;
use std::io::Write;
use trees::{CLASS_AT, Class, PIN_AT, PLACE_AT, at};

// The line of element i, where it has a pin.
fn put_element<W: Write>(to: &mut W, parts: &[u32], i: usize) -> io::Result<()>
    requires { i < 64 }
{
    let class = match Class::numbered(at(parts, CLASS_AT + i)) {
        Some(Class::In) => "IN",
        Some(Class::Out) => "OUT",
        Some(Class::Var) | None => return Ok(()),
    };
    let place = at(parts, PLACE_AT + i);
    let pin = at(parts, PIN_AT + i);
    writeln!(to, "{pin} {class} {place}")
}

fn put_elements<W: Write>(to: &mut W, parts: &[u32]) -> io::Result<()> {
    for i in 0..64 {
        put_element(to, parts, i)?;
    }
    Ok(())
}

// The answer to a text.
fn answer<W: Write>(to: &mut W, text: &[u8]) -> io::Result<()> {
    let mut parts = [0u32; 2588];
    match lola::front(text, &mut parts) {
        Ok(()) => put_elements(to, &parts),
        Err(refusal) => writeln!(to, "{} {}", refusal.reason.number(), refusal.place),
    }
}

fn main(rt: HostRuntime) -> io::Result<()> {
    let mut text = [0u8; 32769];
    let n = answers::read_full(&mut rt.stdin(), &mut text)?;
    answer(&mut rt.stdout(), &text[..n])
}
