// The model's lines: what is asked in digits is answered in digits.
#![tactic(auto)]

ghost use Rattle.std.specs.Prelude.{◌≡◌, ◌&&◌, ◌++◌, ◌+◌, ◌<◌, ◌≤◌, eqb, length, get_or, drop};
ghost use Rattle.basics.specs.Below.{listed};
ghost use Rattle.fusetext.specs.Put.{Wrote};
ghost use Rattle.gallines.specs.Lines.{digit, map_of, formed, given, bits_of, pins_of, char_of, shown_byte, answer_to, contents};

use std::array;

// The value of a digit.
#[tactic(auto, unfolding(crate::specs::Lines::digit))]
fn digit_of(b: u8) -> u8
    ensures { result ≡ digit b }
{
    match b {
        b'0'..=b'9' => b - b'0',
        _ => 10,
    }
}

// Turns a line of digits into a map.
pub fn map_in(line: &mut [u8])
    ensures { line.new ≡ map_of line.old }
{
    for b in line.iter_mut() {
        *b = digit_of(*b);
    }
}

// The line has its length and its blank.
#[tactic(auto, unfolding(crate::specs::Lines::formed))]
fn is_formed(line: &[u8]) -> bool
    ensures { result ≡ formed line.now }
{
    line.len() == 35 && line[10] == b' '
}

// The value at byte i of a line.
#[tactic(auto, using(crate::proofs::Writing::formed_size), unfolding(crate::specs::Lines::given))]
fn given_at(line: &[u8], i: usize) -> u8
    requires { i < 35 }
    ensures { result ≡ given line.now i }
{
    if is_formed(line) {
        digit_of(line[i])
    } else {
        10
    }
}

// The register bits of a line.
fn bits_of(line: &[u8]) -> [u8; 10]
    ensures { result ≡ bits_of line.now }
{
    array::from_fn(|i| given_at(line, i))
}

// The pin values of a line.
fn pins_of(line: &[u8]) -> [u8; 24]
    ensures { result ≡ pins_of line.now }
{
    array::from_fn(|i| given_at(line, i + 11))
}

// A bit as a digit.
fn char_of(v: u8) -> u8
    ensures { result ≡ char_of v }
{
    if v == 1 { b'1' } else { b'0' }
}

// Byte i of what is shown.
#[tactic(auto, unfolding(crate::specs::Lines::shown_byte))]
fn shown_byte(shown: &[u8; 24], values: &[u8; 24], next: &[u8; 10], i: usize) -> u8
    ensures { result ≡ shown_byte shown.now values.now next.now i }
{
    match i {
        0..=23 => char_of(shown[i]),
        25..=48 => char_of(values[i - 25]),
        50..=59 => char_of(next[i - 50]),
        24 | 49 => b' ',
        _ => b'\n',
    }
}

// Writes what is shown.
fn put_shown(shown: &[u8; 24], values: &[u8; 24], next: &[u8; 10], out: &mut [u8])
    requires { 61 ≤ length out.old }
    ensures { out.new ≡ listed (shown_byte shown.now values.now next.now) 61 ++ drop 61 out.old }
{
    for i in 0..61 {
        out[i] = shown_byte(shown, values, next, i);
    }
}

// Writes the answer to a line, and says how long it is.
pub fn answer(map: &[u8], line: &[u8], out: &mut [u8]) -> usize
    requires { 61 ≤ length out.old }
    ensures { Wrote out.old 0 (answer_to map.now line.now) out.new result }
{
    match galmodel::model(map, &bits_of(line), &pins_of(line)) {
        Ok(pins) => {
            put_shown(&pins.shown, &pins.values, &pins.next, out);
            61
        }
        Err(refusal) => lines::put_refused(refusal, out, 0),
    }
}

// How much of a line that ended in LF is its contents.
#[tactic(auto, unfolding(crate::specs::Lines::contents))]
pub fn contents_of(line: &[u8]) -> usize
    ensures { (result ≡ contents line.now) × (result ≤ length line.now) }
{
    match line {
        [.., b'\r'] => line.len() - 1,
        _ => line.len(),
    }
}
