// Expressions, read where they stand in the text, for a sort. Readers of expression, term, factor and index call one another over what is left of the
// text. Each takes a cursor and hands back the value with the next cursor, or the refusal with its place. Nesting is bounded by the levels left.
#![tactic(auto)]

ghost use Rattle.std.specs.Prelude.{◌≡◌, true, false};
ghost use Rattle.words.specs.Kinds.{code};
ghost use Rattle.integers.specs.Integers.{num};
ghost use Rattle.judging.specs.Judging.{sort_of};
ghost use Rattle.judging.specs.Reading.{seen, seen_step};
ghost use Rattle.readers.specs.Readers.{inner_of, part_of, bracket_of, index_of, mux_of, reg_of, inverted_of, factor_of, term_of, expression_of};
ghost use Rattle.readers.specs.Levels.{among, operand_of, turn_of, chain_of, level_of};

use basics::refusal::{Reason, Refusal};
use judging::{Read, Scope, Sort, Step};
use words::{Cursor, Kind};

// The two levels of operators: sums have terms between their operators, products have factors.
#[derive(Clone, Copy)]
pub enum Level {
    Sum,
    Product,
}

// Whether a word is an operator of a level.
fn is_operator(level: Level, kind: Kind) -> bool
    ensures { result ≡ among level (code kind) }
{
    match level {
        Level::Sum => judging::is_sum(kind),
        Level::Product => judging::is_product(kind),
    }
}

// An expression in what opens at a place: one level fewer is left.
#[cycle(reading)]
#[tactic(auto, using(std::proofs::lemmas::Grind::common_steps, crate::proofs::Links::inner_some, crate::proofs::Links::inner_none))]
pub fn inner(
    scope: Scope,
    room: &mut [u32],
    count: &mut usize,
    sort: Sort,
    place: usize,
    from: Cursor,
    depth: usize,
) -> Result<Read, Refusal>
    ensures { seen result (room.new, count.new) ≡ inner_of scope.entry.text.now scope.entry.names.now depth false (sort_of sort) place from.at (room.old, count.old) }
{
    if depth == 0 {
        return Err(Refusal::new(Reason::Limit, place));
    }
    expression(scope, room, count, sort, from, depth - 1)
}

// An expression in what opens at a place, and the word of a kind.
#[cycle(reading)]
#[tactic(auto, using(std::proofs::lemmas::Grind::common_steps), unfolding(grammar::specs::Grammar::part, grammar::specs::Grammar::closed))]
fn part(
    scope: Scope,
    room: &mut [u32],
    count: &mut usize,
    sort: Sort,
    place: usize,
    kind: Kind,
    from: Cursor,
    depth: usize,
) -> Result<Read, Refusal>
    ensures { seen result (room.new, count.new) ≡ part_of scope.entry.text.now scope.entry.names.now depth (sort_of sort) place (code kind) from.at (room.old, count.old) }
{
    let read = inner(scope, room, count, sort, place, from, depth)?;
    let word = read.next.next(scope.text)?;
    if word.kind != kind {
        return Err(Refusal::new(Reason::Grammar, word.start));
    }
    Ok(Read {
        next: word.next,
        ..read
    })
}

// An index in brackets.
#[cycle(reading)]
#[tactic(auto, using(std::proofs::lemmas::Grind::common_steps), unfolding(grammar::specs::Grammar::bracketed))]
fn bracket(
    scope: Scope,
    room: &mut [u32],
    count: &mut usize,
    sort: Sort,
    start: usize,
    end: usize,
    place: usize,
    from: Cursor,
    depth: usize,
) -> Result<Read, Refusal>
    ensures { seen result (room.new, count.new) ≡ bracket_of scope.entry.text.now scope.entry.names.now depth (sort_of sort) start end place from.at (room.old, count.old) }
{
    let base = scope.open(sort, start, end, place)?;
    let index = part(
        scope,
        room,
        count,
        sort.of_index(),
        place,
        Kind::CloseSquare,
        from,
        depth,
    )?;
    let verdict = judging::element(sort, start, place, base, index.value)?;
    judging::put(room, count, verdict, start, index.next)
}

// Past a name: an index, or nothing.
#[cycle(reading)]
#[tactic(auto, using(std::proofs::lemmas::Grind::common_steps, crate::proofs::Links::word_past), unfolding(grammar::specs::Grammar::named))]
pub fn index(
    scope: Scope,
    room: &mut [u32],
    count: &mut usize,
    sort: Sort,
    start: usize,
    end: Cursor,
    depth: usize,
) -> Result<Read, Refusal>
    ensures { seen result (room.new, count.new) ≡ index_of scope.entry.text.now scope.entry.names.now depth (sort_of sort) start end.at (room.old, count.old) }
{
    let word = end.next(scope.text)?;
    let verdict = match word.kind {
        Kind::OpenSquare => {
            return bracket(
                scope, room, count, sort, start, end.at, word.start, word.next, depth,
            );
        }
        Kind::Dot => {
            return scope.point(room, count, sort, start, end.at, word.start, word.next);
        }
        _ => scope.plain(sort, start, end.at)?,
    };
    judging::put(room, count, verdict, start, end)
}

// MUX at a place, from past it.
#[cycle(reading)]
#[tactic(auto, using(std::proofs::lemmas::Grind::common_steps, crate::proofs::Links::word_past, crate::proofs::Links::part_past), unfolding(grammar::specs::Grammar::muxed, grammar::specs::Grammar::mux_second, grammar::specs::Grammar::mux_third))]
fn mux(
    scope: Scope,
    room: &mut [u32],
    count: &mut usize,
    sort: Sort,
    place: usize,
    from: Cursor,
    depth: usize,
) -> Result<Read, Refusal>
    ensures { seen result (room.new, count.new) ≡ mux_of scope.entry.text.now scope.entry.names.now depth (sort_of sort) place from.at (room.old, count.old) }
{
    let open = from.next(scope.text)?;
    if open.kind != Kind::Open {
        return Err(Refusal::new(Reason::Grammar, open.start));
    }
    let at = open.start;
    let first = part(
        scope,
        room,
        count,
        sort.of_part(),
        at,
        Kind::Colon,
        open.next,
        depth,
    )?;
    let second = part(
        scope,
        room,
        count,
        sort.of_part(),
        at,
        Kind::Comma,
        first.next,
        depth,
    )?;
    let third = part(
        scope,
        room,
        count,
        sort.of_part(),
        at,
        Kind::Close,
        second.next,
        depth,
    )?;
    judging::put(
        room,
        count,
        judging::mark(sort, judging::MUX, place)?,
        place,
        third.next,
    )
}

// REG at a place, from past it.
#[cycle(reading)]
#[tactic(auto, using(std::proofs::lemmas::Grind::common_steps, crate::proofs::Links::word_past, crate::proofs::Links::inner_past), unfolding(grammar::specs::Grammar::regged, grammar::specs::Grammar::kept))]
fn reg(
    scope: Scope,
    room: &mut [u32],
    count: &mut usize,
    sort: Sort,
    place: usize,
    from: Cursor,
    depth: usize,
) -> Result<Read, Refusal>
    ensures { seen result (room.new, count.new) ≡ reg_of scope.entry.text.now scope.entry.names.now depth (sort_of sort) place from.at (room.old, count.old) }
{
    let open = from.next(scope.text)?;
    if open.kind != Kind::Open {
        return Err(Refusal::new(Reason::Grammar, open.start));
    }
    let at = open.start;
    let first = inner(scope, room, count, sort.of_part(), at, open.next, depth)?;
    let word = first.next.next(scope.text)?;
    match word.kind {
        Kind::Close => judging::put(
            room,
            count,
            judging::mark(sort, judging::REG, place)?,
            place,
            word.next,
        ),
        Kind::Comma => {
            let second = part(
                scope,
                room,
                count,
                sort.of_part(),
                at,
                Kind::Close,
                word.next,
                depth,
            )?;
            judging::put(
                room,
                count,
                judging::mark(sort, judging::HELD, place)?,
                place,
                second.next,
            )
        }
        _ => Err(Refusal::new(Reason::Grammar, word.start)),
    }
}

// A ~ at a place, from past it: a factor within it, with one level fewer left.
#[cycle(reading)]
#[inline(always)]
#[tactic(auto, using(std::proofs::lemmas::Grind::common_steps, crate::proofs::Links::negated_some, crate::proofs::Links::inner_none), unfolding(grammar::specs::Grammar::inverted))]
fn invert(
    scope: Scope,
    room: &mut [u32],
    count: &mut usize,
    sort: Sort,
    place: usize,
    from: Cursor,
    depth: usize,
) -> Result<Read, Refusal>
    ensures { seen result (room.new, count.new) ≡ inverted_of scope.entry.text.now scope.entry.names.now depth (sort_of sort) place from.at (room.old, count.old) }
{
    if depth == 0 {
        return Err(Refusal::new(Reason::Limit, place));
    }
    let read = factor(scope, room, count, sort, from, depth - 1)?;
    judging::put(
        room,
        count,
        judging::mark(sort, judging::NOT, place)?,
        place,
        read.next,
    )
}

#[cycle(reading)]
#[tactic(auto, using(std::proofs::lemmas::Grind::common_steps, crate::proofs::Links::word_past), unfolding(grammar::specs::Grammar::factor))]
fn factor(
    scope: Scope,
    room: &mut [u32],
    count: &mut usize,
    sort: Sort,
    from: Cursor,
    depth: usize,
) -> Result<Read, Refusal>
    ensures { seen result (room.new, count.new) ≡ factor_of scope.entry.text.now scope.entry.names.now depth (sort_of sort) from.at (room.old, count.old) }
{
    let word = from.next(scope.text)?;
    let start = word.start;
    let verdict = match word.kind {
        Kind::Number => judging::literal(sort, start, word.value)?,
        Kind::Large => return Err(Refusal::new(Reason::Arithmetic, start)),
        Kind::Logic => judging::logic(sort, start, word.value)?,
        Kind::Name => return index(scope, room, count, sort, start, word.next, depth),
        Kind::Open => {
            return part(
                scope,
                room,
                count,
                sort,
                start,
                Kind::Close,
                word.next,
                depth,
            );
        }
        Kind::Tilde => return invert(scope, room, count, sort, start, word.next, depth),
        Kind::Mux => return mux(scope, room, count, sort, start, word.next, depth),
        Kind::Reg => return reg(scope, room, count, sort, start, word.next, depth),
        _ => return Err(Refusal::new(Reason::Grammar, start)),
    };
    judging::put(room, count, verdict, start, word.next)
}

// A term.
// The functions of a level are laid into one another at each of the two levels, so that neither asks at every word which it is; this is where they meet.
#[cycle(reading)]
#[inline(never)]
fn term(
    scope: Scope,
    room: &mut [u32],
    count: &mut usize,
    sort: Sort,
    from: Cursor,
    depth: usize,
) -> Result<Read, Refusal>
    ensures { seen result (room.new, count.new) ≡ term_of scope.entry.text.now scope.entry.names.now depth (sort_of sort) from.at (room.old, count.old) }
{
    operands(scope, room, count, Level::Product, sort, from, depth)
}

// What stands between the operators of a level.
#[cycle(reading)]
#[inline(always)]
fn operand(
    scope: Scope,
    room: &mut [u32],
    count: &mut usize,
    level: Level,
    sort: Sort,
    from: Cursor,
    depth: usize,
) -> Result<Read, Refusal>
    ensures { seen result (room.new, count.new) ≡ operand_of scope.entry.text.now scope.entry.names.now depth level (sort_of sort) from.at (room.old, count.old) }
{
    match level {
        Level::Sum => term(scope, room, count, sort, from, depth),
        Level::Product => factor(scope, room, count, sort, from, depth),
    }
}

// Behind an operand: an operator and the next one, or the end of the chain.
#[cycle(reading)]
#[inline(always)]
#[tactic(auto, using(std::proofs::lemmas::Grind::common_steps, crate::proofs::Links::word_gone, crate::proofs::Links::operator_real, crate::proofs::Links::operand_low), unfolding(grammar::specs::Grammar::turn))]
fn turn(
    scope: Scope,
    room: &mut [u32],
    count: &mut usize,
    level: Level,
    sort: Sort,
    left: Read,
    depth: usize,
) -> Result<Step, Refusal>
    ensures { seen_step result (room.new, count.new) ≡ turn_of scope.entry.text.now scope.entry.names.now depth level (sort_of sort) (num left.value) left.next.at (room.old, count.old) }
{
    let word = left.next.next(scope.text)?;
    if !is_operator(level, word.kind) {
        return Ok(Step::Last(left));
    }
    let right = operand(scope, room, count, level, sort, word.next, depth)?;
    let verdict = judging::operate(sort, word.kind, word.start, left.value, right.value)?;
    Ok(Step::More(judging::put(room, count, verdict, word.start, right.next)?))
}

// Behind a first operand: all turns of the chain.
#[cycle(reading)]
#[inline(always)]
#[tactic(auto, using(std::proofs::lemmas::Grind::common_steps, crate::proofs::Links::chain_last))]
fn chain(
    scope: Scope,
    room: &mut [u32],
    count: &mut usize,
    level: Level,
    sort: Sort,
    first: Read,
    depth: usize,
) -> Result<Read, Refusal>
    ensures { seen result (room.new, count.new) ≡ chain_of scope.entry.text.now scope.entry.names.now depth level (sort_of sort) (num first.value) first.next.at (room.old, count.old) }
{
    let mut left = first;
    loop {
        match turn(scope, room, count, level, sort, left, depth)? {
            Step::More(read) => left = read,
            Step::Last(read) => return Ok(read),
        }
    }
}

// Operands with the operators of a level between them.
#[cycle(reading)]
#[inline(always)]
#[tactic(auto, using(std::proofs::lemmas::Grind::common_steps, crate::proofs::Links::operand_past), unfolding(grammar::specs::Grammar::expression, grammar::specs::Grammar::term, grammar::specs::Grammar::level))]
fn operands(
    scope: Scope,
    room: &mut [u32],
    count: &mut usize,
    level: Level,
    sort: Sort,
    from: Cursor,
    depth: usize,
) -> Result<Read, Refusal>
    ensures { seen result (room.new, count.new) ≡ level_of scope.entry.text.now scope.entry.names.now depth level (sort_of sort) from.at (room.old, count.old) }
{
    let first = operand(scope, room, count, level, sort, from, depth)?;
    chain(scope, room, count, level, sort, first, depth)
}

#[cycle(reading)]
pub fn expression(
    scope: Scope,
    room: &mut [u32],
    count: &mut usize,
    sort: Sort,
    from: Cursor,
    depth: usize,
) -> Result<Read, Refusal>
    ensures { seen result (room.new, count.new) ≡ expression_of scope.entry.text.now scope.entry.names.now depth (sort_of sort) from.at (room.old, count.old) }
{
    operands(scope, room, count, Level::Sum, sort, from, depth)
}
