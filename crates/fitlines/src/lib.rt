// The lines of the fit program.
#![tactic(auto)]

ghost use Rattle.std.specs.Prelude.{◌≡◌, ℕ, ◌+◌, ◌≤◌, ◌<◌, length};
ghost use Rattle.fusetext.specs.Put.{Wrote};
ghost use Rattle.fitlines.specs.Lines.{kind_of, level_of, head_of, line_of, line_if, lines_by};

use fusetext::field::put_text;
use lines::put_decimal;

// R where cell k is registered, or C.
#[tactic(auto, unfolding(crate::specs::Lines::kind_of))]
fn put_kind(map: &[u8], k: usize, out: &mut [u8], at: usize) -> usize
    requires map_len { length map.now ≡ 5892 }
    requires k_bound { k < 10 }
    requires at_in_bounds { at + 2 ≤ length out.old }
    ensures { Wrote out.old at (kind_of map.now k) out.new result }
{
    let kind = if gal::is_registered(map, k) {
        b"R "
    } else {
        b"C "
    };
    put_text(kind, out, at)
}

// H where S0 of cell k is 1, or L.
#[tactic(auto, unfolding(crate::specs::Lines::level_of))]
fn put_level(map: &[u8], k: usize, out: &mut [u8], at: usize) -> usize
    requires map_len { length map.now ≡ 5892 }
    requires k_bound { k < 10 }
    requires at_in_bounds { at + 2 ≤ length out.old }
    ensures { Wrote out.old at (level_of map.now k) out.new result }
{
    let level = if gal::is_plain(map, k) { b"H " } else { b"L " };
    put_text(level, out, at)
}

// The pin, the kind and the level of cell k.
fn put_head(map: &[u8], k: usize, out: &mut [u8], at: usize) -> usize
    requires map_len { length map.now ≡ 5892 }
    requires k_bound { k < 10 }
    requires at_in_bounds { at + 25 ≤ length out.old }
    ensures { Wrote out.old at (head_of map.now k) out.new result }
{
    let a = put_decimal(23 - k, out, at);
    let b = put_text(b" ", out, a);
    let c = put_kind(map, k, out, b);
    put_level(map, k, out, c)
}

// The line of cell k.
fn put_line(map: &[u8], k: usize, products: u32, factors: u32, out: &mut [u8], at: usize) -> usize
    requires map_len { length map.now ≡ 5892 }
    requires k_bound { k < 10 }
    requires at_in_bounds { at + 67 ≤ length out.old }
    ensures { Wrote out.old at (line_of map.now k products factors) out.new result }
{
    let a = put_head(map, k, out, at);
    let b = put_decimal(products as usize, out, a);
    let c = put_text(b" ", out, b);
    let d = put_decimal(factors as usize, out, c);
    put_text(b"\n", out, d)
}

// The line of cell k, where it is enabled.
fn put_line_if(
    map: &[u8],
    k: usize,
    products: u32,
    factors: u32,
    out: &mut [u8],
    at: usize,
) -> usize
    requires map_len { length map.now ≡ 5892 }
    requires k_bound { k < 10 }
    requires at_in_bounds { at + 67 ≤ length out.old }
    ensures { Wrote out.old at (line_if map.now k products factors) out.new result }
{
    if gal::is_enabled(map, k) {
        put_line(map, k, products, factors, out, at)
    } else {
        at
    }
}

// The lines of a map into out, and how long they are: of each enabled cell, pins rising. Facts are the products of the ten cells, and then their factors.
// Kept: products and factors are two lists in one slice: `lines_by` of specs/Lines reads them so, and the theorems of fitlaws and fitcall speak through it.
pub fn put_lines(map: &[u8], facts: &[u32], out: &mut [u8]) -> usize
    requires map_len { length map.now ≡ 5892 }
    requires facts_len { length facts.now ≡ 20 }
    requires in_bounds { 670 ≤ length out.old }
    ensures { Wrote out.old 0 (lines_by map.now facts.now) out.new result }
{
    let mut at = 0;
    for n in 0..10 {
        let k = 9 - n;
        at = put_line_if(map, k, facts[k], facts[10 + k], out, at);
    }
    at
}
