// Reads a fuse file into a map (document 01, 'The fuse file', Reading).
#![tactic(auto)]

ghost use Rattle.std.specs.Prelude.{◌≡◌, ℕ, ◌+◌, ◌≤◌, ◌<◌, length, drop, take, eqb};
ghost use Rattle.basics.specs.Choice.{pick};
ghost use Rattle.fusetext.specs.Put.{Wrote};
ghost use Rattle.fusetext.specs.File.{Bits};
ghost use Rattle.fusefields.specs.Fields.{unseen};
ghost use Rattle.fuseread.specs.Walk.{walked_of, walk, pieces};
ghost use Rattle.fuseread.specs.Reading.{filled, fuse_sum_fits, last_sum_fits, summed, whole, ending, closing, unlisted, read_of, outcome_of, Reads};

use basics::refusal::{Reason, Refusal};
use fusefields::bytes::{hex4_of, is_blank, is_hexit, is_not_end, is_not_star, run};
use fusefields::{Seen, judge};
use fusetext::field::{put_each, put_text};
use fusetext::scan::{is_bits, sum_of, weigh_of};

// How many fuses a map has, and what stands for one that no L field listed.
const FUSES: usize = 5892;
// Kept: the fuses are cells of fixed memory that the fields are written into byte by byte (fusefields::judge, whose lent cells are
// bytes); an Option for each would have to be a map as well before the sums are read.
const UNLISTED: u8 = 2;

// Where reading the fields ended, none of them at fault: with what has been seen, or at a field that has no `*`.
#[derive(Clone, Copy)]
pub enum Walk {
    Ended(Seen),
    Open(usize),
}

// The fields of s from start on, one after the other.
fn fields(s: &[u8], start: usize, cells: &mut [u8]) -> Result<Walk, Refusal>
    requires { (start ≤ length s.now) × (length cells.old ≡ 5892) }
    ensures { walked_of result cells.new ≡ walk unseen cells.old start (pieces (drop start s.now)) }
{
    let mut seen = Seen {
        qf: false,
        qp: false,
        g: false,
        l: false,
        f: None,
        c: None,
    };
    let mut at = start;
    loop {
        let rest = &s[at..];
        let n = run(rest, is_not_star);
        let piece = &rest[..n];
        let b = run(piece, is_blank);
        let place = at + b;
        if rest.len() <= n {
            return Ok(if n <= b {
                Walk::Ended(seen)
            } else {
                Walk::Open(place)
            });
        }
        match judge(seen, &piece[b..], cells) {
            Ok(more) => seen = more,
            Err(reason) => return Err(Refusal::new(reason, place)),
        }
        at = at + n + 1;
    }
}

fn or_default(f: u8, x: u8) -> u8
    ensures { result ≡ pick (eqb x 2) f x }
{
    if x == UNLISTED { f } else { x }
}

// The fuses of src, with the default for each that was not listed, into out.
fn fill(f: u8, src: &[u8], out: &mut [u8]) -> usize
    requires { length src.now ≤ length out.old }
    ensures { Wrote out.old 0 (filled f src.now) out.new result }
{
    put_each(src, |x| or_default(f, x), out, 0)
}

// Whether C's value, if there is one, agrees with the map.
#[tactic(auto, unfolding(crate::specs::Reading::fuse_sum_fits))]
fn is_fuse_sum(c: Option<u32>, m: &[u8]) -> bool
    requires { (length m.now ≡ 5892) × Bits m.now }
    ensures { result ≡ fuse_sum_fits c m.now }
{
    match c {
        None => true,
        Some(c) => weigh_of(m) % 65536 == c,
    }
}

// Whether the last four digits agree with the bytes up to byte 3, which stands at z.
fn is_last_sum(s: &[u8], z: usize) -> bool
    requires { (length s.now ≤ 65536) × (z + 5 ≤ length s.now) }
    ensures { result ≡ last_sum_fits s.now z }
{
    let e = z + 1;
    let w = sum_of(&s[..e]) % 65536;
    w == hex4_of(&s[e..])
}

// The two sums.
#[tactic(auto, unfolding(crate::specs::Reading::summed))]
fn sums(s: &[u8], z: usize, c: Option<u32>, m: &[u8]) -> Result<(), Refusal>
    requires s_len_bound { (length s.now ≤ 65536) × (z + 5 ≤ length s.now) }
    requires m_len { (length m.now ≡ 5892) × Bits m.now }
    ensures { outcome_of result m.now ≡ summed s.now z c m.now }
{
    if !is_fuse_sum(c, m) {
        return Err(Refusal::new(Reason::FuseSum, 0));
    }
    if !is_last_sum(s, z) {
        return Err(Refusal::new(Reason::ByteSum, 0));
    }
    Ok(())
}

// What is missing, and the sums. The map goes into out.
#[tactic(auto, using(crate::proofs::Endings::length_filled, fusetext::proofs::Puts::wrote_all, fusetext::proofs::Files::bits_all), unfolding(crate::specs::Reading::whole))]
fn finish(s: &[u8], z: usize, seen: Seen, cells: &[u8], out: &mut [u8]) -> Result<(), Refusal>
    requires s_len_bound { (length s.now ≤ 65536) × (z + 5 ≤ length s.now) }
    requires cells_len { (length cells.now ≡ 5892) × (length out.old ≡ 5892) }
    ensures { outcome_of result out.new ≡ whole s.now z seen cells.now }
{
    if !seen.qf {
        return Err(Refusal::new(Reason::Form, s.len()));
    }
    fill(seen.f.unwrap_or(UNLISTED), cells, out);
    if !is_bits(out) {
        return Err(Refusal::new(Reason::Form, s.len()));
    }
    sums(s, z, seen.c, out)
}

// Behind byte 3, which stands at z.
#[tactic(auto, using(crate::proofs::Endings::to_end), unfolding(crate::specs::Reading::ending))]
fn close(s: &[u8], z: usize, seen: Seen, cells: &[u8], out: &mut [u8]) -> Result<(), Refusal>
    requires s_len_bound { (length s.now ≤ 65536) × (z < length s.now) }
    requires cells_len { (length cells.now ≡ 5892) × (length out.old ≡ 5892) }
    ensures { outcome_of result out.new ≡ ending s.now z seen cells.now }
{
    let d = z + 1;
    let tail = &s[d..];
    let h = run(tail, is_hexit);
    if h < 4 {
        let place = if tail.len() <= h { s.len() } else { d };
        return Err(Refusal::new(Reason::Form, place));
    }
    let e = z + 5;
    let rest = &s[e..];
    let b = run(rest, is_blank);
    if b < rest.len() {
        return Err(Refusal::new(Reason::Form, e + b));
    }
    finish(s, z, seen, cells, out)
}

// The fields, and what follows them. Byte 3 stands at z, or z is the length; the heading has h bytes.
#[tactic(auto, using(crate::proofs::Endings::closing_ending, crate::proofs::Endings::closing_cut, crate::proofs::Endings::closing_fault, crate::proofs::Endings::closing_open, crate::proofs::Endings::closing_open_cut))]
fn after_heading(
    s: &[u8],
    z: usize,
    h: usize,
    cells: &mut [u8],
    out: &mut [u8],
) -> Result<(), Refusal>
    requires s_len_bound { (length s.now ≤ 65536) × (z ≤ length s.now) × (h + 2 ≤ z) }
    requires cells_len { (length cells.old ≡ 5892) × (length out.old ≡ 5892) }
    ensures { outcome_of result out.new ≡ closing s.now z (walk unseen cells.old (h + 2) (pieces (drop (h + 2) (take z s.now)))) }
{
    match fields(&s[..z], h + 2, cells)? {
        Walk::Ended(seen) if z < s.len() => close(s, z, seen, cells, out),
        Walk::Open(place) if z < s.len() => Err(Refusal::new(Reason::Form, place)),
        _ => Err(Refusal::new(Reason::Form, s.len())),
    }
}

// A whole file: its map goes into out, with cells to work in.
#[tactic(auto, using(std::proofs::lemmas::Grind::common_steps, crate::proofs::Endings::read_long, crate::proofs::Endings::read_start, crate::proofs::Endings::read_open, crate::proofs::Endings::read_past, crate::proofs::Endings::heading_is, crate::proofs::Endings::opened_star, crate::proofs::Endings::opened_fault, crate::proofs::Endings::opened_cut))]
fn read_file(s: &[u8], cells: &mut [u8], out: &mut [u8]) -> Result<(), Refusal>
    requires { (cells.old ≡ unlisted) × (length cells.old ≡ 5892) × (length out.old ≡ 5892) }
    ensures { outcome_of result out.new ≡ read_of s.now }
{
    if 65536 < s.len() {
        return Err(Refusal::new(Reason::Form, s.len()));
    }
    if s.len() < 1 || s[0] != 2 {
        return Err(Refusal::new(Reason::Form, 0));
    }
    let z = run(s, is_not_end);
    let h = run(&s[1..z], is_not_star);
    if z <= h + 1 {
        let place = if z < s.len() { 1 } else { s.len() };
        return Err(Refusal::new(Reason::Form, place));
    }
    after_heading(s, z, h, cells, out)
}

// Reads a fuse file into map, or refuses and leaves map as it was.
#[tactic(auto, using(std::proofs::lemmas::Grind::common_steps, crate::proofs::Endings::into_other, crate::proofs::Endings::into_map, fusetext::proofs::Puts::put_front, fusetext::proofs::Puts::wrote_all), unfolding(crate::specs::Reading::unlisted))]
pub fn read(file: &[u8], map: &mut [u8]) -> Result<(), Refusal>
    ensures { Reads file.now map.old result map.new }
{
    if map.len() != FUSES {
        return Err(Refusal::new(Reason::Map, 0));
    }
    let mut cells = [UNLISTED; FUSES];
    let mut out = [0u8; FUSES];
    read_file(file, &mut cells, &mut out)?;
    put_text(&out, map, 0);
    Ok(())
}
