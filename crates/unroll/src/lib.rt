// Statements and FOR, carried out where they stand in the text: the body of a FOR is read again for each round.
#![tactic(auto)]

ghost use Rattle.std.specs.Prelude.{◌≡◌, pos};
ghost use Rattle.integers.specs.Integers.{num, rounds_of};
ghost use Rattle.names.specs.Names.{held};
ghost use Rattle.judging.specs.Reading.{seen, seen_step};
ghost use Rattle.unroll.specs.Loops.{with_loop, pass_turn, passed_of, seen_pass, seen_over, seen_header, upper_of, lower_of, range_of, header_of, round_of, turns_of, loop_of, statement_turn, for_of, statements_of};

use basics::refusal::{Reason, Refusal};
use integers::Num;
use judging::{Read, Scope, Sort, Step};
use names::{Entry, Table};
use words::{Cursor, Kind};

// One word of a body that is passed over: the body goes on, so many bodies being open within it, or has ended.
#[derive(Clone, Copy, Debug, PartialEq, Eq)]
pub enum Pass {
    Deeper { level: u8, next: Cursor },
    Ended(Cursor),
}

// What stands before the body of a FOR: its name from start on to end, its bounds, and the cursor at its body.
#[derive(Clone, Copy, Debug, PartialEq, Eq)]
pub struct Header {
    pub start: usize,
    pub end: usize,
    pub low: Num,
    pub high: Num,
    pub next: Cursor,
}

// How many bodies open within one are counted, at most.
const OPEN: u8 = 200;

// The names with a loop variable in front.
fn with_loop(names: &[u16], start: usize, end: usize, value: Num) -> Table
    ensures { held result ≡ with_loop names.now start end (num value) }
{
    let (value, size) = match value {
        Num::Up(m) => (m, 0),
        Num::Down(m) => (m, 1),
    };
    let entry = Entry {
        kind: names::VARIABLE,
        value,
        size,
    };
    Table::extend(names, start, basics::span(start, end), entry)
}

// One word of a body that is passed over.
#[tactic(auto, using(std::proofs::lemmas::Grind::common_steps, words::proofs::Codes::code_other), unfolding(crate::specs::Loops::pass_turn))]
fn pass_turn(text: &[u8], level: u8, from: Cursor) -> Result<Pass, Refusal>
    ensures { seen_pass result ≡ pass_turn text.now level from.at tt }
{
    let word = from.next(text)?;
    let next = word.next;
    match word.kind {
        Kind::TextEnd => Err(Refusal::new(Reason::Grammar, word.start)),
        Kind::For if level < OPEN => Ok(Pass::Deeper {
            level: level + 1,
            next,
        }),
        Kind::End if level == 0 => Ok(Pass::Ended(next)),
        Kind::End => Ok(Pass::Deeper {
            level: level - 1,
            next,
        }),
        _ => Ok(Pass::Deeper { level, next }),
    }
}

// The place past the END that closes a body.
#[tactic(auto, using(std::proofs::lemmas::Grind::common_steps, crate::proofs::Laws::pass_more, crate::proofs::Laws::pass_last, crate::proofs::Laws::pass_falls), unfolding(crate::specs::Loops::passed_of))]
fn pass_over(text: &[u8], from: Cursor) -> Result<Cursor, Refusal>
    ensures { seen_over result ≡ passed_of text.now from.at }
{
    let mut level = 0;
    let mut at = from;
    loop {
        match pass_turn(text, level, at)? {
            Pass::Deeper { level: open, next } => {
                level = open;
                at = next;
            }
            Pass::Ended(next) => return Ok(next),
        }
    }
}

// Behind `..` of a FOR: the upper bound and DO.
#[tactic(auto, using(std::proofs::lemmas::Grind::common_steps, words::proofs::Codes::code_other), unfolding(crate::specs::Loops::upper_of, grammar::specs::Grammar::closed))]
fn upper(
    scope: Scope,
    room: &mut [u32],
    count: &mut usize,
    start: usize,
    end: usize,
    low: Num,
    from: Cursor,
    depth: usize,
) -> Result<Header, Refusal>
    ensures { seen_header result (room.new, count.new) ≡ upper_of scope.entry.text.now scope.entry.names.now depth start end (num low) from.at (room.old, count.old) }
{
    let high = readers::expression(scope, room, count, Sort::Number, from, depth)?;
    let word = high.next.next(scope.text)?;
    match word.kind {
        Kind::Do => Ok(Header {
            start,
            end,
            low,
            high: high.value,
            next: word.next,
        }),
        _ => Err(Refusal::new(Reason::Grammar, word.start)),
    }
}

// Behind `:=` of a FOR: the lower bound and `..`.
#[tactic(auto, using(std::proofs::lemmas::Grind::common_steps, words::proofs::Codes::code_other), unfolding(crate::specs::Loops::lower_of, grammar::specs::Grammar::closed))]
fn lower(
    scope: Scope,
    room: &mut [u32],
    count: &mut usize,
    start: usize,
    end: usize,
    from: Cursor,
    depth: usize,
) -> Result<Header, Refusal>
    ensures { seen_header result (room.new, count.new) ≡ lower_of scope.entry.text.now scope.entry.names.now depth start end from.at (room.old, count.old) }
{
    let low = readers::expression(scope, room, count, Sort::Number, from, depth)?;
    let word = low.next.next(scope.text)?;
    match word.kind {
        Kind::Range => upper(scope, room, count, start, end, low.value, word.next, depth),
        _ => Err(Refusal::new(Reason::Grammar, word.start)),
    }
}

// Behind the name of a FOR.
#[tactic(auto, using(std::proofs::lemmas::Grind::common_steps, words::proofs::Codes::code_other), unfolding(crate::specs::Loops::range_of))]
fn ranged(
    scope: Scope,
    room: &mut [u32],
    count: &mut usize,
    start: usize,
    end: Cursor,
    depth: usize,
) -> Result<Header, Refusal>
    ensures { seen_header result (room.new, count.new) ≡ range_of scope.entry.text.now scope.entry.names.now depth start end.at (room.old, count.old) }
{
    let word = end.next(scope.text)?;
    match word.kind {
        Kind::Becomes => lower(scope, room, count, start, end.at, word.next, depth),
        _ => Err(Refusal::new(Reason::Grammar, word.start)),
    }
}

// Behind FOR, up to its body.
#[tactic(auto, using(std::proofs::lemmas::Grind::common_steps, words::proofs::Codes::code_other), unfolding(crate::specs::Loops::header_of))]
fn read_header(
    scope: Scope,
    room: &mut [u32],
    count: &mut usize,
    from: Cursor,
    depth: usize,
) -> Result<Header, Refusal>
    ensures { seen_header result (room.new, count.new) ≡ header_of scope.entry.text.now scope.entry.names.now depth from.at (room.old, count.old) }
{
    let word = from.next(scope.text)?;
    match word.kind {
        Kind::Name => ranged(scope, room, count, word.start, word.next, depth),
        _ => Err(Refusal::new(Reason::Grammar, word.start)),
    }
}

// One round of the FOR at a place: it is counted first.
#[cycle(unrolling)]
#[tactic(auto, using(std::proofs::lemmas::Grind::common_steps, parts::proofs::Runs::none_more), unfolding(crate::specs::Loops::round_of))]
fn round(
    scope: Scope,
    room: &mut [u32],
    count: &mut usize,
    place: usize,
    header: Header,
    value: Num,
    depth: usize,
) -> Result<Read, Refusal>
    ensures { seen result (room.new, count.new) ≡ round_of scope.entry.text.now scope.entry.names.now (statements_of scope.entry.text.now depth) place header.start header.end header.next.at (num value) (room.old, count.old) }
{
    if parts::one_more(room, simple::USED_AT, simple::STATEMENTS) {
        let table = with_loop(scope.names, header.start, header.end, value);
        let inside = Scope {
            text: scope.text,
            names: table.lent(),
        };
        statements(inside, room, count, header.next, depth)
    } else {
        Err(Refusal::new(Reason::Limit, place))
    }
}

// The rounds of the FOR at a place, from its lower bound on; over is the cursor past its END.
#[cycle(unrolling)]
#[tactic(auto, using(std::proofs::lemmas::Grind::common_steps, crate::proofs::Laws::turns_more, crate::proofs::Laws::turns_halt, crate::proofs::Laws::turns_done))]
fn turns(
    scope: Scope,
    room: &mut [u32],
    count: &mut usize,
    place: usize,
    header: Header,
    over: Cursor,
    depth: usize,
) -> Result<Read, Refusal>
    ensures { seen result (room.new, count.new) ≡ turns_of scope.entry.text.now scope.entry.names.now (statements_of scope.entry.text.now depth) place header.start header.end header.next.at over.at (rounds_of (num header.low) (num header.high)) (num header.low) (room.old, count.old) }
{
    let times = integers::rounds(header.low, header.high);
    let mut value = header.low;
    for _ in 0..times {
        round(scope, room, count, place, header, value, depth)?;
        value = integers::step(value);
    }
    Ok(Read {
        value: Num::Up(0),
        next: over,
    })
}

// The FOR at a place from its body on.
#[cycle(unrolling)]
#[tactic(auto, using(std::proofs::lemmas::Grind::common_steps), unfolding(crate::specs::Loops::loop_of))]
fn run_loop(
    scope: Scope,
    room: &mut [u32],
    count: &mut usize,
    place: usize,
    header: Header,
    depth: usize,
) -> Result<Read, Refusal>
    ensures { seen result (room.new, count.new) ≡ loop_of scope.entry.text.now scope.entry.names.now (statements_of scope.entry.text.now depth) place header.start header.end (num header.low) (num header.high) header.next.at (room.old, count.old) }
{
    let over = pass_over(scope.text, header.next)?;
    turns(scope, room, count, place, header, over, depth)
}

// Behind the FOR at a place: one level fewer is left within it.
#[cycle(unrolling)]
#[tactic(auto, using(std::proofs::lemmas::Grind::common_steps, crate::proofs::Laws::for_none, crate::proofs::Laws::for_some), unfolding(crate::specs::Loops::for_from))]
fn run_for(
    scope: Scope,
    room: &mut [u32],
    count: &mut usize,
    place: usize,
    from: Cursor,
    depth: usize,
) -> Result<Read, Refusal>
    ensures { seen result (room.new, count.new) ≡ for_of scope.entry.text.now depth scope.entry.names.now place from.at (room.old, count.old) }
{
    if depth == 0 {
        return Err(Refusal::new(Reason::Limit, place));
    }
    let header = read_header(scope, room, count, from, depth - 1)?;
    run_loop(scope, room, count, place, header, depth - 1)
}

// One statement.
#[cycle(unrolling)]
#[tactic(auto, using(std::proofs::lemmas::Grind::common_steps, words::proofs::Codes::code_other), unfolding(crate::specs::Loops::statement_turn))]
fn statement_turn(
    scope: Scope,
    room: &mut [u32],
    count: &mut usize,
    from: Cursor,
    depth: usize,
) -> Result<Step, Refusal>
    ensures { seen_step result (room.new, count.new) ≡ statement_turn scope.entry.text.now scope.entry.names.now depth (for_of scope.entry.text.now depth scope.entry.names.now) (pos 0) from.at (room.old, count.old) }
{
    let word = from.next(scope.text)?;
    let next = match word.kind {
        Kind::Name => simple::simple(scope, room, count, word.start, word.next, depth)?.next,
        Kind::For => run_for(scope, room, count, word.start, word.next, depth)?.next,
        Kind::Semicolon => word.next,
        _ => {
            return Ok(Step::Last(Read {
                value: Num::Up(0),
                next: from,
            }));
        }
    };
    Ok(Step::More(Read {
        value: Num::Up(0),
        next,
    }))
}

// The statements at a place, among the names that stand there, with levels of nesting left.
#[cycle(unrolling)]
#[tactic(auto, using(std::proofs::lemmas::Grind::common_steps, crate::proofs::Laws::statements_more, crate::proofs::Laws::statements_last, crate::proofs::Laws::statements_falls))]
pub fn statements(
    scope: Scope,
    parts: &mut [u32],
    count: &mut usize,
    from: Cursor,
    depth: usize,
) -> Result<Read, Refusal>
    ensures { seen result (parts.new, count.new) ≡ statements_of scope.entry.text.now depth scope.entry.names.now from.at (parts.old, count.old) }
{
    let mut at = from;
    loop {
        match statement_turn(scope, parts, count, at, depth)? {
            Step::More(read) => at = read.next,
            Step::Last(read) => return Ok(read),
        }
    }
}
