// Stage 2 of expressions and statements: words and grammar, literals too large, nesting. Nothing is kept but where they end.
#![tactic(auto)]

ghost use Rattle.std.specs.Prelude.{◌≡◌, ℕ, false};
ghost use Rattle.words.specs.declared.Cursor.{Cursor};
ghost use Rattle.words.specs.Kinds.{code};
ghost use Rattle.grammar.specs.Grammar.{expression, named, nested};
ghost use Rattle.grammar.specs.Trees.{checks};
ghost use Rattle.grammar.specs.Modules.{must, up_to, given, number_turn, numbers, positioned, aimed, simple, statement, statement_turn, for_of};
ghost use Rattle.grammar.specs.Forms.{blank, checked_statements};
ghost use Rattle.phrases.specs.Seen.{seen_end, seen_go};
ghost use Rattle.phrases.specs.Turns.{Listed, Nearer, list_of};

use basics::refusal::{Reason, Refusal};
use judging::{Scope, Sort};
use words::{Cursor, Kind};

// One turn of a list: go on, or the list's end.
#[derive(Clone, Copy, Debug, PartialEq, Eq)]
pub enum Turn {
    More(Cursor),
    Last(Cursor),
}

// An expression, with so many levels of nesting left.
#[tactic(auto, using(crate::proofs::Zero::expression_past, crate::proofs::Zero::expression_refused))]
fn whole(text: &[u8], from: Cursor, depth: usize) -> Result<Cursor, Refusal>
    ensures { seen_end result ≡ expression checks text.now (nested checks text.now depth) 0 from.at tt }
{
    let scope = Scope { text, names: &[] };
    let read = readers::expression(scope, &mut [], &mut 0, Sort::Checked, from, depth)?;
    Ok(read.next)
}

// An expression within what opens at a place.
#[tactic(auto, using(crate::proofs::Zero::inner_past, crate::proofs::Zero::inner_refused))]
pub fn within(text: &[u8], place: usize, from: Cursor, depth: usize) -> Result<Cursor, Refusal>
    ensures { seen_end result ≡ nested checks text.now depth false 0 place from.at tt }
{
    let scope = Scope { text, names: &[] };
    let read = readers::inner(scope, &mut [], &mut 0, Sort::Checked, place, from, depth)?;
    Ok(read.next)
}

// Past a name: an index, or nothing.
#[tactic(auto, using(crate::proofs::Zero::index_past, crate::proofs::Zero::index_refused))]
fn indexed(text: &[u8], start: usize, end: Cursor, depth: usize) -> Result<Cursor, Refusal>
    ensures { seen_end result ≡ named checks text.now (nested checks text.now depth) 0 start end.at tt }
{
    let scope = Scope { text, names: &[] };
    let read = readers::index(scope, &mut [], &mut 0, Sort::Checked, start, end, depth)?;
    Ok(read.next)
}

// The word of the kind that has a number.
// Kept: the kind is a number, here and in `give`, since the clauses speak of every number; `past` takes a kind.
#[tactic(auto, using(std::proofs::lemmas::Grind::common_steps), unfolding(grammar::specs::Grammar::closed))]
pub fn expect(text: &[u8], kind: u8, from: Cursor) -> Result<Cursor, Refusal>
    ensures { seen_end result ≡ must text.now kind from.at tt }
{
    let word = from.next(text)?;
    if word.kind as u8 == kind {
        Ok(word.next)
    } else {
        Err(Refusal::new(Reason::Grammar, word.start))
    }
}

// The word of a kind.
pub fn past(text: &[u8], kind: Kind, from: Cursor) -> Result<Cursor, Refusal>
    ensures { seen_end result ≡ must text.now (code kind) from.at tt }
{
    expect(text, kind as u8, from)
}

// An expression and the word of the kind that has a number.
#[tactic(auto, using(std::proofs::lemmas::Grind::common_steps), unfolding(grammar::specs::Modules::up_to))]
fn up_to(text: &[u8], kind: u8, from: Cursor, depth: usize) -> Result<Cursor, Refusal>
    ensures { seen_end result ≡ up_to checks blank text.now 0 depth kind from.at tt }
{
    let end = whole(text, from, depth)?;
    expect(text, kind, end)
}

// `:=`, an expression and the word of the kind that has a number.
#[tactic(auto, using(std::proofs::lemmas::Grind::common_steps), unfolding(grammar::specs::Modules::given))]
pub fn give(text: &[u8], kind: u8, from: Cursor, depth: usize) -> Result<Cursor, Refusal>
    ensures { seen_end result ≡ given checks blank text.now 0 depth kind from.at tt }
{
    let value = past(text, Kind::Becomes, from)?;
    up_to(text, kind, value, depth)
}

// A number of the position list that opens at a place, and the word behind it.
#[tactic(auto, using(std::proofs::lemmas::Grind::common_steps), unfolding(grammar::specs::Modules::number_turn))]
fn number_turn(text: &[u8], place: usize, from: Cursor, depth: usize) -> Result<Turn, Refusal>
    ensures { seen_go result ≡ number_turn checks blank text.now depth place tt from.at tt }
{
    let word = within(text, place, from, depth)?.next(text)?;
    match word.kind {
        Kind::Semicolon => Ok(Turn::More(word.next)),
        Kind::CloseSquare => Ok(Turn::Last(word.next)),
        _ => Err(Refusal::new(Reason::Grammar, word.start)),
    }
}

// Turn after turn, until one is the list's last.
#[tactic(auto, using(std::proofs::lemmas::Grind::common_steps, crate::proofs::Lists::list_more, crate::proofs::Lists::list_last))]
pub fn repeat<F: Fn(Cursor) -> Result<Turn, Refusal>>(
    from: Cursor,
    turn: F,
) -> Result<Cursor, Refusal>
    ghost list: { Listed }
    requires callable { F.IsAlwaysCallable turn }
    requires turns { (at : Cursor) (r : _) → F.post turn at r → seen_go r ≡ list.turns tt at.at tt }
    requires nearer { Nearer list }
    ensures { seen_end result ≡ list_of list from.at }
{
    let mut at = from;
    loop {
        match turn(at)? {
            Turn::More(next) => at = next,
            Turn::Last(last) => return Ok(last),
        }
    }
}

// The numbers of a position list.
#[tactic(auto, using(std::proofs::lemmas::Grind::common_steps, crate::proofs::Lists::number_nearer), unfolding(grammar::specs::Modules::numbers))]
fn number_list(text: &[u8], place: usize, from: Cursor, depth: usize) -> Result<Cursor, Refusal>
    ensures { seen_end result ≡ numbers checks blank text.now depth place from.at tt }
{
    repeat(from, &|at| number_turn(text, place, at, depth))
}

// Behind `::`: a list of numbers, or one.
#[tactic(auto, using(std::proofs::lemmas::Grind::common_steps, crate::proofs::Lists::handed), unfolding(grammar::specs::Modules::positioned))]
fn position(text: &[u8], from: Cursor, depth: usize) -> Result<Cursor, Refusal>
    ensures { (place : ℕ) → seen_end result ≡ positioned checks blank text.now depth place tt from.at tt }
{
    let word = from.next(text)?;
    match word.kind {
        Kind::OpenSquare => number_list(text, word.start, word.next, depth),
        _ => whole(text, from, depth),
    }
}

// Behind the designator of a statement.
#[tactic(auto, using(std::proofs::lemmas::Grind::common_steps, crate::proofs::Lists::handed), unfolding(grammar::specs::Modules::aimed))]
fn aim(text: &[u8], from: Cursor, depth: usize) -> Result<Cursor, Refusal>
    ensures { (place : ℕ) → seen_end result ≡ aimed checks blank text.now depth place tt from.at tt }
{
    let word = from.next(text)?;
    match word.kind {
        Kind::Becomes => whole(text, word.next, depth),
        Kind::Place => position(text, word.next, depth),
        _ => Err(Refusal::new(Reason::Grammar, word.start)),
    }
}

// An assignment or a position, from past its name.
#[tactic(auto, using(std::proofs::lemmas::Grind::common_steps), unfolding(grammar::specs::Modules::simple))]
fn simple_statement(text: &[u8], start: usize, end: Cursor, depth: usize) -> Result<Cursor, Refusal>
    ensures { seen_end result ≡ simple checks blank text.now depth start end.at tt }
{
    let next = indexed(text, start, end, depth)?;
    aim(text, next, depth)
}

// A statement, possibly empty.
#[cycle(phrasing)]
#[tactic(auto, using(std::proofs::lemmas::Grind::common_steps), unfolding(grammar::specs::Modules::statement))]
fn one_statement(text: &[u8], from: Cursor, depth: usize) -> Result<Cursor, Refusal>
    ensures { seen_end result ≡ statement checks blank text.now depth (for_of checks blank text.now depth) from.at tt }
{
    let word = from.next(text)?;
    match word.kind {
        Kind::Name => simple_statement(text, word.start, word.next, depth),
        Kind::For => for_loop(text, word.start, word.next, depth),
        _ => Ok(from),
    }
}

// A statement, and the `;` that another one follows.
#[cycle(phrasing)]
#[tactic(auto, using(std::proofs::lemmas::Grind::common_steps), unfolding(grammar::specs::Modules::statement_turn))]
fn statement_turn(text: &[u8], from: Cursor, depth: usize) -> Result<Turn, Refusal>
    ensures { seen_go result ≡ statement_turn checks blank text.now depth (for_of checks blank text.now depth) tt from.at tt }
{
    let end = one_statement(text, from, depth)?;
    let word = end.next(text)?;
    Ok(match word.kind {
        Kind::Semicolon => Turn::More(word.next),
        _ => Turn::Last(end),
    })
}

// Statements, separated by `;`, with so many levels of nesting left: where they end, or their refusal.
// Kept: a loop of its own beside `repeat`, tried: the check does not cover a call with a ghost value within a cycle of calls.
#[cycle(phrasing)]
#[tactic(auto, using(std::proofs::lemmas::Grind::common_steps, crate::proofs::Lists::statement_nearer, crate::proofs::Lists::statement_more, crate::proofs::Lists::statement_last))]
pub fn statement_list(text: &[u8], from: Cursor, depth: usize) -> Result<Cursor, Refusal>
    ensures { seen_end result ≡ checked_statements text.now depth from.at }
{
    let mut at = from;
    loop {
        match statement_turn(text, at, depth)? {
            Turn::More(next) => at = next,
            Turn::Last(end) => return Ok(end),
        }
    }
}

// Behind the FOR at a place: its name, its bounds, its statements and its END. It takes a level.
#[cycle(phrasing)]
#[tactic(auto, using(std::proofs::lemmas::Grind::common_steps, words::proofs::Codes::code_other, crate::proofs::Lists::for_none, crate::proofs::Lists::for_some), unfolding(grammar::specs::Modules::for_from, grammar::specs::Modules::ranged, grammar::specs::Modules::looped))]
fn for_loop(text: &[u8], place: usize, from: Cursor, depth: usize) -> Result<Cursor, Refusal>
    ensures { seen_end result ≡ for_of checks blank text.now depth place from.at tt }
{
    if depth == 0 {
        return Err(Refusal::new(Reason::Limit, place));
    }
    let name = from.next(text)?;
    if name.kind != Kind::Name {
        return Err(Refusal::new(Reason::Grammar, name.start));
    }
    let first = give(text, Kind::Range as u8, name.next, depth - 1)?;
    let last = up_to(text, Kind::Do as u8, first, depth - 1)?;
    let body = statement_list(text, last, depth - 1)?;
    past(text, Kind::End, body)
}
