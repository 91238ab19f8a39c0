// Simple statements, carried out where they stand in the text: assignments and positions are written into the memory that is lent.
#![tactic(auto)]

ghost use Rattle.std.specs.Prelude.{◌≡◌, ◌+◌, ◌-◌, Ok, true, false, eqb};
ghost use Rattle.basics.specs.Choice.{pick};
ghost use Rattle.integers.specs.Integers.{num};
ghost use Rattle.judging.specs.Judging.{meant};
ghost use Rattle.judging.specs.Reading.{seen, seen_step};
ghost use Rattle.parts.specs.Parts.{positioned_in};
ghost use Rattle.simple.specs.Statements.{aimed, upward, target_of, assignment_of, number_turn, numbers_of, list_of, one_of, position_of, placed_of, behind_of, act_of, simple_of};

use basics::refusal::{Reason, Refusal};
use integers::Num;
use judging::{Meaning, Read, Scope, Sort, Step};
use words::{Cursor, Kind};

// The target of an assignment or a position: an element, and the cursor past it.
#[derive(Clone, Copy, Debug, PartialEq, Eq)]
pub struct Aim {
    pub element: u32,
    pub next: Cursor,
}

// How many statements and rounds of a FOR there may be together, and the place of the lent memory that they are counted at.
pub const STATEMENTS: u32 = 4096;

pub const USED_AT: usize = 2585;

// The target whose name is from start on to end.
#[tactic(auto, using(std::proofs::lemmas::Grind::common_steps), unfolding(crate::specs::Statements::target_of))]
fn target(scope: Scope, start: usize, end: Cursor, depth: usize) -> Result<Aim, Refusal>
    ensures { aimed result ≡ target_of scope.entry.text.now scope.entry.names.now depth start end.at }
{
    let mut one = [0u32; 1];
    let read = readers::index(scope, &mut one, &mut 0, Sort::Signal, start, end, depth)?;
    Ok(Aim {
        element: parts::tell(&one, 0).saturating_sub(judging::ELEMENT),
        next: read.next,
    })
}

// Behind `:=`: the equation of an element.
#[tactic(auto, using(std::proofs::lemmas::Grind::common_steps), unfolding(crate::specs::Statements::assignment_of))]
fn assignment(
    scope: Scope,
    room: &mut [u32],
    count: &mut usize,
    element: u32,
    from: Cursor,
    depth: usize,
) -> Result<Read, Refusal>
    ensures { seen result (room.new, count.new) ≡ assignment_of scope.entry.text.now scope.entry.names.now depth element from.at (room.old, count.old) }
{
    let first = *count;
    let read = readers::expression(scope, room, count, Sort::Signal, from, depth)?;
    parts::assign_to(room, element, first, *count);
    Ok(Read {
        value: Num::Up(0),
        ..read
    })
}

// A number that counts from 0.
fn up(v: Num) -> u32
    ensures { result ≡ upward (num v) }
{
    match v {
        Num::Up(k) => k as u32,
        Num::Down(_) => 0,
    }
}

// A number of a list, given to its element, or only read.
fn give(room: &mut [u32], on: bool, first: u32, v: Num, value: Num)
    ensures { room.new ≡ pick on (positioned_in room.old (first + upward (num v)) (num value)) room.old }
{
    if on {
        parts::position_of(room, first, up(v), value);
    }
}

// One number of a list, behind what was read of it.
#[tactic(auto, using(std::proofs::lemmas::Grind::common_steps, words::proofs::Codes::code_other), unfolding(crate::specs::Statements::number_turn))]
fn number_turn(
    scope: Scope,
    room: &mut [u32],
    count: &mut usize,
    on: bool,
    first: u32,
    read: Read,
    depth: usize,
) -> Result<Step, Refusal>
    ensures { seen_step result (room.new, count.new) ≡ number_turn scope.entry.text.now scope.entry.names.now depth on first (num read.value) read.next.at (room.old, count.old) }
{
    let number = readers::expression(scope, room, count, Sort::Number, read.next, depth)?;
    let word = number.next.next(scope.text)?;
    let past = Read {
        value: integers::step(read.value),
        next: word.next,
    };
    match word.kind {
        Kind::Semicolon => {
            give(room, on, first, read.value, number.value);
            Ok(Step::More(past))
        }
        Kind::CloseSquare => {
            give(room, on, first, read.value, number.value);
            Ok(Step::Last(past))
        }
        _ => Err(Refusal::new(Reason::Grammar, word.start)),
    }
}

// The numbers of a list, behind its `[`.
#[tactic(auto, using(std::proofs::lemmas::Grind::common_steps, crate::proofs::Laws::numbers_more, crate::proofs::Laws::numbers_last, crate::proofs::Laws::numbers_falls), unfolding(crate::specs::Statements::numbers_of))]
fn numbers(
    scope: Scope,
    room: &mut [u32],
    count: &mut usize,
    on: bool,
    first: u32,
    from: Cursor,
    depth: usize,
) -> Result<Read, Refusal>
    ensures { seen result (room.new, count.new) ≡ numbers_of scope.entry.text.now scope.entry.names.now depth on first from.at (room.old, count.old) }
{
    let mut read = Read {
        value: Num::Up(0),
        next: from,
    };
    loop {
        match number_turn(scope, room, count, on, first, read, depth)? {
            Step::More(past) => read = past,
            Step::Last(past) => return Ok(past),
        }
    }
}

// How many elements a statement names: those of an array, or one.
fn width(n: u16) -> u32
    ensures { result ≡ pick (eqb n 0) 1 n }
{
    if n == 0 { 1 } else { n as u32 }
}

// A list, behind its `[`, for n elements from first on.
#[tactic(auto, using(std::proofs::lemmas::Grind::common_steps), unfolding(crate::specs::Statements::list_of))]
fn list(
    scope: Scope,
    room: &mut [u32],
    count: &mut usize,
    first: u32,
    n: u16,
    from: Cursor,
    depth: usize,
) -> Result<Read, Refusal>
    ensures { seen result (room.new, count.new) ≡ list_of scope.entry.text.now scope.entry.names.now depth first n from.at (room.old, count.old) }
{
    let read = numbers(scope, room, count, false, first, from, depth)?;
    if up(read.value) == n as u32 {
        return numbers(scope, room, count, true, first, from, depth);
    }
    parts::miscount(room, first, width(n));
    Ok(Read {
        value: Num::Up(0),
        ..read
    })
}

// One number, for n elements from first on.
#[tactic(auto, using(std::proofs::lemmas::Grind::common_steps), unfolding(crate::specs::Statements::one_of))]
fn one_number(
    scope: Scope,
    room: &mut [u32],
    count: &mut usize,
    first: u32,
    n: u16,
    from: Cursor,
    depth: usize,
) -> Result<Read, Refusal>
    ensures { seen result (room.new, count.new) ≡ one_of scope.entry.text.now scope.entry.names.now depth first n from.at (room.old, count.old) }
{
    let read = readers::expression(scope, room, count, Sort::Number, from, depth)?;
    if n == 0 {
        parts::position_of(room, first, 0, read.value);
    } else {
        parts::miscount(room, first, n as u32);
    }
    Ok(Read {
        value: Num::Up(0),
        ..read
    })
}

// Behind `::`, for n elements from first on.
#[tactic(auto, using(std::proofs::lemmas::Grind::common_steps, words::proofs::Codes::code_other), unfolding(crate::specs::Statements::position_of))]
fn position(
    scope: Scope,
    room: &mut [u32],
    count: &mut usize,
    first: u32,
    n: u16,
    from: Cursor,
    depth: usize,
) -> Result<Read, Refusal>
    ensures { seen result (room.new, count.new) ≡ position_of scope.entry.text.now scope.entry.names.now depth first n from.at (room.old, count.old) }
{
    let word = from.next(scope.text)?;
    match word.kind {
        Kind::OpenSquare => list(scope, room, count, first, n, word.next, depth),
        _ => one_number(scope, room, count, first, n, from, depth),
    }
}

// Behind `::` of a name at start without an index, by what it stands for.
fn place_name(
    scope: Scope,
    room: &mut [u32],
    count: &mut usize,
    start: usize,
    meaning: Option<Meaning>,
    from: Cursor,
    depth: usize,
) -> Result<Read, Refusal>
    ensures { seen result (room.new, count.new) ≡ placed_of scope.entry.text.now scope.entry.names.now depth start from.at (room.old, count.old) (meant meaning) }
{
    match meaning {
        Some(Meaning::Signal(base)) => {
            position(
                scope,
                room,
                count,
                base.first as u32,
                base.size,
                from,
                depth,
            )
        }
        Some(Meaning::Value(_)) | None => Err(Refusal::new(Reason::Name, start)),
    }
}

// Behind a target.
#[tactic(auto, using(std::proofs::lemmas::Grind::common_steps, words::proofs::Codes::code_other))]
fn behind(
    scope: Scope,
    room: &mut [u32],
    count: &mut usize,
    aim: Aim,
    depth: usize,
) -> Result<Read, Refusal>
    ensures { seen result (room.new, count.new) ≡ behind_of scope.entry.text.now scope.entry.names.now depth (room.old, count.old) (aimed (Ok aim)) }
{
    let word = aim.next.next(scope.text)?;
    match word.kind {
        Kind::Becomes => assignment(scope, room, count, aim.element, word.next, depth),
        Kind::Place => position(scope, room, count, aim.element, 0, word.next, depth),
        _ => Err(Refusal::new(Reason::Grammar, word.start)),
    }
}

// An assignment or a position whose name is from start on to end.
#[tactic(auto, using(std::proofs::lemmas::Grind::common_steps, words::proofs::Codes::code_other), unfolding(crate::specs::Statements::act_of))]
fn act(
    scope: Scope,
    room: &mut [u32],
    count: &mut usize,
    start: usize,
    end: Cursor,
    depth: usize,
) -> Result<Read, Refusal>
    ensures { seen result (room.new, count.new) ≡ act_of scope.entry.text.now scope.entry.names.now depth start end.at (room.old, count.old) }
{
    let word = end.next(scope.text)?;
    match word.kind {
        Kind::Place => {
            let meaning = scope.meaning(start, end.at);
            place_name(scope, room, count, start, meaning, word.next, depth)
        }
        _ => {
            let aim = target(scope, start, end, depth)?;
            behind(scope, room, count, aim, depth)
        }
    }
}

// A simple statement: it is counted first.
#[tactic(auto, using(std::proofs::lemmas::Grind::common_steps, parts::proofs::Runs::none_more), unfolding(crate::specs::Statements::simple_of))]
pub fn simple(
    scope: Scope,
    room: &mut [u32],
    count: &mut usize,
    start: usize,
    end: Cursor,
    depth: usize,
) -> Result<Read, Refusal>
    ensures { seen result (room.new, count.new) ≡ simple_of scope.entry.text.now scope.entry.names.now depth start end.at (room.old, count.old) }
{
    if parts::one_more(room, USED_AT, STATEMENTS) {
        act(scope, room, count, start, end, depth)
    } else {
        Err(Refusal::new(Reason::Limit, start))
    }
}
