// Lines that the programs write and take: decimal numbers, a refusal's line, a line of 0 and 1.
#![tactic(auto)]

ghost use Rattle.std.specs.Prelude.{◌≡◌, ℕ, ◌+◌, ◌≤◌, ◌<◌, length, drop, eqb};
ghost use Rattle.basics.specs.Choice.{pick};
ghost use Rattle.basics.specs.Refusal.{number_of};
ghost use Rattle.fusetext.specs.Put.{Wrote};
ghost use Rattle.lines.specs.Decimal.{decimal, refusal_line};
ghost use Rattle.lines.specs.Line.{line_length, fuses_in, shown, shown_line};

use basics::refusal::Refusal;
use fusetext::field::{digit_of, put_each, put_text};

// Kept: digits are written one by one, since `write!` would need a cursor over the lent bytes and an error for when they are full, where
// this needs neither.
// The digits of n at the end of digits, and where they begin.
fn spell(n: usize, digits: &mut [u8]) -> usize
    requires { length digits.old ≡ 20 }
    ensures { (drop result digits.new ≡ decimal n) × (result ≤ 19) }
{
    digits[19] = b'0' + (n % 10) as u8;
    let mut i = 19;
    let mut rest = n / 10;
    while 0 < rest {
        i -= 1;
        digits[i] = b'0' + (rest % 10) as u8;
        rest /= 10;
    }
    i
}

// A number in decimal.
pub fn put_decimal(n: usize, out: &mut [u8], at: usize) -> usize
    requires { at + 20 ≤ length out.old }
    ensures { Wrote out.old at (decimal n) out.new result }
{
    let mut digits = [0u8; 20];
    let i = spell(n, &mut digits);
    put_text(&digits[i..], out, at)
}

// The line of a refusal's number and place.
pub fn put_refusal(number: u8, place: usize, out: &mut [u8], at: usize) -> usize
    requires { at + 42 ≤ length out.old }
    ensures { Wrote out.old at (refusal_line number place) out.new result }
{
    let a = put_decimal(number as usize, out, at);
    let b = put_text(b" ", out, a);
    let c = put_decimal(place, out, b);
    put_text(b"\n", out, c)
}

// A refusal's line.
pub fn put_refused(refusal: Refusal, out: &mut [u8], at: usize) -> usize
    requires { at + 42 ≤ length out.old }
    ensures { Wrote out.old at (refusal_line (number_of refusal.reason) refusal.place) out.new result }
{
    put_refusal(refusal.reason.number(), refusal.place, out, at)
}

// How long a line is without its LF, and without a CR before that.
#[tactic(auto, using(crate::proofs::Ends::line_none, crate::proofs::Ends::line_one), unfolding(crate::specs::Line::line_length))]
pub fn line_length(s: &[u8]) -> usize
    ensures { (result ≡ line_length s.now) × (result ≤ length s.now) }
{
    match s {
        [.., b'\r', b'\n'] => s.len() - 2,
        [.., b'\n'] => s.len() - 1,
        _ => s.len(),
    }
}

fn fuse_in(b: u8) -> u8
    ensures { result ≡ pick (eqb b 48) 0 (pick (eqb b 49) 1 2) }
{
    match b {
        b'0' => 0,
        b'1' => 1,
        _ => 2,
    }
}

// The fuses that the digits of src stand for, into out; 2 for a byte that is none.
pub fn put_fuses_in(src: &[u8], out: &mut [u8]) -> usize
    requires { length src.now ≤ length out.old }
    ensures { Wrote out.old 0 (fuses_in src.now) out.new result }
{
    put_each(src, fuse_in, out, 0)
}

// The fuses of src as digits.
fn put_shown(src: &[u8], out: &mut [u8]) -> usize
    requires { length src.now ≤ length out.old }
    ensures { Wrote out.old 0 (shown src.now) out.new result }
{
    put_each(src, digit_of, out, 0)
}

// The fuses of src as a line of digits.
pub fn put_shown_line(src: &[u8], out: &mut [u8]) -> usize
    requires { length src.now < length out.old }
    ensures { Wrote out.old 0 (shown_line src.now) out.new result }
{
    let n = put_shown(src, out);
    put_text(b"\n", out, n)
}
