// Writes the fuse file of a map (document 01, 'The fuse file').
#![tactic(auto)]

ghost use Rattle.std.specs.Prelude.{◌≡◌, ℕ, ◌+◌, ◌≤◌, ◌<◌, length};
ghost use Rattle.fusetext.specs.Put.{Wrote};
ghost use Rattle.fusetext.specs.File.{listing_if, rows, checking, fields_of, file_of, Bits};
ghost use Rattle.fusewrite.specs.Writing.{Writes};

use basics::refusal::{Reason, Refusal};
use fusetext::field::{put_hex4, put_listing, put_text};
use fusetext::scan::{is_bits, is_zero, sum_of, weigh_of};

// A map's fuses, and the most bytes that its file can have.
const FUSES: usize = 5892;

const LONGEST: usize = 7154;

// An L field, unless its fuses are all 0.
fn put_listing_if(from: usize, fuses: &[u8], out: &mut [u8], at: usize) -> usize
    requires fuses_in_bounds { at + length fuses.now + 9 ≤ length out.old }
    requires bits { Bits fuses.now }
    ensures { Wrote out.old at (listing_if from fuses.now) out.new result }
{
    if is_zero(fuses) {
        at
    } else {
        put_listing(from, fuses, out, at)
    }
}

// The rows that aren't all 0.
fn put_rows(map: &[u8], out: &mut [u8], at: usize) -> usize
    requires at_in_bounds { at + 6996 ≤ length out.old }
    requires map_len { length map.now ≡ 5892 }
    requires bits { Bits map.now }
    ensures { Wrote out.old at (rows 132 map.now) out.new result }
{
    let mut o = at;
    for r in 0..132 {
        let from = 44 * r;
        let to = from + 44;
        o = put_listing_if(from, &map[from..to], out, o);
    }
    o
}

// The C field.
fn put_check(map: &[u8], out: &mut [u8], at: usize) -> usize
    requires at_in_bounds { at + 8 ≤ length out.old }
    requires map_len { length map.now ≡ 5892 }
    requires bits { Bits map.now }
    ensures { Wrote out.old at (checking map.now) out.new result }
{
    let a = put_text(b"C", out, at);
    let b = put_hex4(weigh_of(map), out, a);
    put_text(b"*\r\n", out, b)
}

// All that stands before byte 3.
fn put_fields(map: &[u8], out: &mut [u8]) -> usize
    requires in_bounds { 7149 ≤ length out.old }
    requires map_len { length map.now ≡ 5892 }
    requires bits { Bits map.now }
    ensures wrote { Wrote out.old 0 (fields_of map.now) out.new result }
    ensures upper_bound { result ≤ 7149 }
{
    let a = put_text(
        b"\x02Lola GAL22V10*\r\nQP24*\r\nQF5892*\r\nG0*\r\nF0*\r\n",
        out,
        0,
    );
    let b = put_rows(map, out, a);
    let c = put_listing(5808, &map[5808..5828], out, b);
    let d = put_listing_if(5828, &map[5828..5892], out, c);
    put_check(map, out, d)
}

// The whole file of a map, with the sum of bytes 2 to 3 at its end.
pub fn put_file(map: &[u8], out: &mut [u8]) -> usize
    requires in_bounds { 7154 ≤ length out.old }
    requires map_len { length map.now ≡ 5892 }
    requires bits { Bits map.now }
    ensures { Wrote out.old 0 (file_of map.now) out.new result }
{
    let n = put_fields(map, out);
    let e = put_text(b"\x03", out, n);
    let sum = sum_of(&out[..e]);
    put_hex4(sum, out, e)
}

// Writes the fuse file of map into out and answers its length, or refuses and leaves out as it was.
pub fn write(map: &[u8], out: &mut [u8]) -> Result<usize, Refusal>
    ensures { Writes map.now out.old result out.new }
{
    if map.len() != FUSES || !is_bits(map) {
        return Err(Refusal::new(Reason::Map, 0));
    }
    if out.len() < LONGEST {
        return Err(Refusal::new(Reason::Memory, 0));
    }
    Ok(put_file(map, out))
}
