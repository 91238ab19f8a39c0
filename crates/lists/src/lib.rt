// A list of signals: its names are new, and its type.
#![tactic(auto)]

ghost use Rattle.std.specs.Prelude.{◌≡◌, ◌-◌, ◌<◌, get_or, length, IfSome};
ghost use Rattle.basics.specs.Choice.{found_or};
ghost use Rattle.integers.specs.Integers.{num};
ghost use Rattle.names.specs.Names.{looked_up, spelling};
ghost use Rattle.judging.specs.Reading.{State, seen};
ghost use Rattle.lists.specs.Lists.{is_known, seen_walk, seen_came, back_of, is_back, fresh_of, is_length, closed_type, length_of, type_of};
ghost use Rattle.lists.specs.Sieve.{branch, spot_of, is_new, noted, stands_by, name_by, turn_by, sieve_by};

use basics::refusal::{Reason, Refusal};
use integers::Num;
use judging::{Read, Scope, Sort};
use words::{Cursor, Kind};

// One word along a list: go on, or the list's end.
#[derive(Clone, Copy, Debug, PartialEq, Eq)]
enum Walk {
    On(Cursor),
    End(Cursor),
}

// How many bytes a name has at most.
const LONGEST: usize = 16;

// Names are noted at places below this, in texts no longer than it: a place and one is held by a cell.
const PLACES: usize = 65535;

// How many cells a sieve has: those that names begin at, and two for each place of a text of 32,768 bytes.
const CELLS: usize = 65554;

// Whether a name is known.
pub fn is_known(scope: Scope, start: usize, end: usize) -> bool
    ensures { result ≡ is_known (looked_up scope.entry.text.now scope.entry.names.now start (end - start)) }
{
    names::look_up(scope.text, scope.names, start, basics::span(start, end)).is_some()
}

// Whether a name stands in its list before.
#[tactic(auto, using(std::proofs::lemmas::Grind::common_steps, crate::proofs::Laws::back_none), unfolding(crate::specs::Lists::back_of))]
fn stands_before(text: &[u8], first: usize, start: usize, end: usize) -> bool
    ensures { result ≡ is_back (back_of text.now first start end) }
{
    let mut from = Cursor { at: first };
    while let Ok(word) = from.next(text) {
        if word.kind == Kind::TextEnd || start <= word.start {
            return false;
        }
        if names::same_name(
            text,
            word.start,
            basics::span(word.start, word.next.at),
            start,
            basics::span(start, end),
        ) {
            return true;
        }
        from = word.next;
    }
    false
}

// Byte j of a spelling, 0 behind it.
#[tactic(auto, using(std::proofs::lemmas::Grind::common_steps, crate::proofs::Sifted::byte_from, crate::proofs::Sifted::byte_behind))]
fn byte_in(text: &[u8], start: usize, n: usize, j: usize) -> u8
    ensures { result ≡ get_or (spelling text.now start n).bytes j 0 }
{
    let rest = &text[start.min(text.len())..];
    if j < n {
        rest.get(j).copied().unwrap_or(0)
    } else {
        0
    }
}

// Bit d of a spelling.
#[tactic(auto, using(std::proofs::lemmas::Grind::common_steps), unfolding(crate::specs::Sieve::branch))]
fn branch_in(text: &[u8], start: usize, n: usize, d: usize) -> usize
    ensures value { result ≡ branch (spelling text.now start n) d }
    ensures bit { result < 2 }
{
    usize::from((byte_in(text, start, n, d / 8) >> (d % 8)) % 2)
}

// The cell of the sieve where a name would be noted, where the name surely is not in it.
#[tactic(auto, using(std::proofs::lemmas::Grind::common_steps, crate::proofs::Sifted::seek_out, crate::proofs::Sifted::seek_end, crate::proofs::Sifted::seek_empty, crate::proofs::Sifted::seek_found, crate::proofs::Sifted::seek_past), unfolding(crate::specs::Sieve::spot_of, names::specs::Names::spelling))]
fn spot_in(text: &[u8], sieve: &[u16], start: usize, n: usize) -> Option<usize>
    ensures spot { found_or (length sieve.now) result ≡ spot_of text.now sieve.now (spelling text.now start n) }
    ensures within { IfSome result (λ i. i < length sieve.now) }
{
    let mut i = n;
    for d in 0..8 * LONGEST {
        let cell = usize::from(*sieve.get(i)?);
        if cell == 0 {
            return Some(i);
        }
        if names::same_name(text, cell - 1, n, start, n) {
            return None;
        }
        i = 2 * cell + LONGEST + branch_in(text, start, n, d);
    }
    None
}

// Whether a name is surely new to the sieve; if so it is noted there.
#[tactic(auto, using(std::proofs::lemmas::Grind::common_steps), unfolding(crate::specs::Sieve::is_new, crate::specs::Sieve::noted))]
fn note(text: &[u8], sieve: &mut [u16], start: usize, n: usize) -> bool
    ensures new { result ≡ is_new text.now sieve.old start n }
    ensures noted { sieve.new ≡ noted text.now sieve.old start n }
{
    if text.len() > PLACES || start >= PLACES {
        return false;
    }
    match spot_in(text, sieve, start, n) {
        Some(i) => {
            sieve[i] = (start + 1) as u16;
            true
        }
        None => false,
    }
}

// Whether a name stands in its list before: the list is read again only where the sieve may hold the name.
#[tactic(auto, using(std::proofs::lemmas::Grind::common_steps), unfolding(crate::specs::Sieve::stands_by))]
fn stands(text: &[u8], sieve: &mut [u16], first: usize, start: usize, end: usize) -> bool
    ensures stands { result ≡ stands_by text.now sieve.old first start end }
    ensures noted { sieve.new ≡ noted text.now sieve.old start (end - start) }
{
    !note(text, sieve, start, basics::span(start, end)) && stands_before(text, first, start, end)
}

// A name of a list must be new.
#[tactic(auto, using(std::proofs::lemmas::Grind::common_steps), unfolding(crate::specs::Sieve::name_by))]
fn fresh_name(
    scope: Scope,
    sieve: &mut [u16],
    first: usize,
    start: usize,
    end: Cursor,
) -> Result<Walk, Refusal>
    ensures walk { seen_walk result ≡ name_by scope.entry.text.now scope.entry.names.now sieve.old first start end.at }
    ensures noted { sieve.new ≡ noted scope.entry.text.now sieve.old start (end.at - start) }
{
    let before = stands(scope.text, sieve, first, start, end.at);
    if before || is_known(scope, start, end.at) {
        return Err(Refusal::new(Reason::Name, start));
    }
    Ok(Walk::On(end))
}

// One word of a list.
#[tactic(auto, using(std::proofs::lemmas::Grind::common_steps), unfolding(crate::specs::Sieve::turn_by, crate::specs::Sieve::sieve_by))]
fn fresh_turn(scope: Scope, sieve: &mut [u16], first: usize, from: Cursor) -> Result<Walk, Refusal>
    ensures walk { seen_walk result ≡ turn_by scope.entry.text.now scope.entry.names.now sieve.old first from.at }
    ensures sieve { sieve.new ≡ sieve_by scope.entry.text.now sieve.old from.at }
{
    let word = from.next(scope.text)?;
    match word.kind {
        Kind::Name => fresh_name(scope, sieve, first, word.start, word.next),
        Kind::Comma => Ok(Walk::On(word.next)),
        Kind::Colon => Ok(Walk::End(word.next)),
        _ => Err(Refusal::new(Reason::Grammar, word.start)),
    }
}

// The names of the list that begins at a place are new; the sieve is lent.
#[tactic(auto, using(std::proofs::lemmas::Grind::common_steps, crate::proofs::Sifted::along_start, crate::proofs::Sifted::along_falls, crate::proofs::Sifted::along_size, crate::proofs::Sifted::along_more, crate::proofs::Sifted::along_last))]
fn fresh_along(scope: Scope, sieve: &mut [u16], first: Cursor) -> Result<Cursor, Refusal>
    ensures { seen_came result ≡ fresh_of scope.entry.text.now scope.entry.names.now first.at }
{
    let mut from = first;
    loop {
        match fresh_turn(scope, sieve, first.at, from)? {
            Walk::On(next) => from = next,
            Walk::End(next) => return Ok(next),
        }
    }
}

// The names of the list that begins at a place are new: the place past its `:`.
pub fn fresh(scope: Scope, first: Cursor) -> Result<Cursor, Refusal>
    ensures { seen_came result ≡ fresh_of scope.entry.text.now scope.entry.names.now first.at }
{
    let mut sieve: [u16; CELLS] = [0; CELLS];
    fresh_along(scope, &mut sieve, first)
}

// Whether a number is the length of an array.
fn is_length(value: Num) -> bool
    ensures { result ≡ is_length (num value) }
{
    matches!(value, Num::Up(1..=32))
}

// Behind a length: `]` and BIT.
#[tactic(auto, using(std::proofs::lemmas::Grind::common_steps), unfolding(crate::specs::Lists::closed_type, grammar::specs::Grammar::closed))]
fn close_type(text: &[u8], value: Num, from: Cursor) -> Result<Read, Refusal>
    ensures { (x : State) → seen result x ≡ closed_type text.now (num value) from.at x }
{
    let bracket = from.next(text)?;
    if bracket.kind != Kind::CloseSquare {
        return Err(Refusal::new(Reason::Grammar, bracket.start));
    }
    let bit = bracket.next.next(text)?;
    if bit.kind != Kind::Bit {
        return Err(Refusal::new(Reason::Grammar, bit.start));
    }
    Ok(Read {
        value,
        next: bit.next,
    })
}

// Behind `[` of a type.
#[tactic(auto, using(std::proofs::lemmas::Grind::common_steps), unfolding(crate::specs::Lists::length_of))]
fn read_length(
    scope: Scope,
    room: &mut [u32],
    count: &mut usize,
    from: Cursor,
) -> Result<Read, Refusal>
    ensures { seen result (room.new, count.new) ≡ length_of scope.entry.text.now scope.entry.names.now from.at (room.old, count.old) }
{
    let place = from.next(scope.text)?.start;
    let depth = grammar::level_limit();
    let length = readers::expression(scope, room, count, Sort::Number, from, depth)?;
    if !is_length(length.value) {
        return Err(Refusal::new(Reason::Index, place));
    }
    close_type(scope.text, length.value, length.next)
}

// The type of a list: 0 for BIT, else the length of the array.
#[tactic(auto, using(std::proofs::lemmas::Grind::common_steps), unfolding(crate::specs::Lists::type_of))]
pub fn read_type(
    scope: Scope,
    room: &mut [u32],
    count: &mut usize,
    from: Cursor,
) -> Result<Read, Refusal>
    ensures { seen result (room.new, count.new) ≡ type_of scope.entry.text.now scope.entry.names.now from.at (room.old, count.old) }
{
    let word = from.next(scope.text)?;
    match word.kind {
        Kind::Bit => Ok(Read {
            value: Num::Up(0),
            next: word.next,
        }),
        Kind::OpenSquare => read_length(scope, room, count, word.next),
        _ => Err(Refusal::new(Reason::Grammar, word.start)),
    }
}
