// Stage 2 of a whole text: words and grammar, literals too large, nesting. Nothing is kept but the places where the later stages start.
#![tactic(auto)]

ghost use Rattle.std.specs.Prelude.{◌≡◌, ℕ};
ghost use Rattle.words.specs.Kinds.{code};
ghost use Rattle.grammar.specs.Trees.{checks};
ghost use Rattle.grammar.specs.Modules.{constant_turn, name_turn, name_list, typed, type_of, list_turn, constants, lists, declarations, begun, headed, same_name, ended, headless};
ghost use Rattle.grammar.specs.Forms.{blank, checked_text};
ghost use Rattle.phrases.specs.Seen.{seen_end, seen_go};
ghost use Rattle.checking.specs.Seen.{seen_body, seen_head, seen_text};

use basics::refusal::{Reason, Refusal};
use phrases::Turn;
use words::{Cursor, Kind, Word};

// Where the statements start, and where they end.
#[derive(Clone, Copy, Debug, PartialEq, Eq)]
pub struct Body {
    pub start: Cursor,
    pub next: Cursor,
}

// The module's name, and what is behind the heading.
#[derive(Clone, Copy, Debug, PartialEq, Eq)]
pub struct Head {
    pub name: Word,
    pub next: Cursor,
}

// Where the declarations and the statements of a text start, and where it ends.
#[derive(Clone, Copy, Debug, PartialEq, Eq)]
pub struct Checked {
    pub declarations: Cursor,
    pub statements: Cursor,
    pub next: Cursor,
}

// A constant.
#[tactic(auto, using(std::proofs::lemmas::Grind::common_steps, words::proofs::Codes::code_other), unfolding(grammar::specs::Modules::constant_turn))]
fn constant_turn(text: &[u8], from: Cursor) -> Result<Turn, Refusal>
    ensures { seen_go result ≡ constant_turn checks blank text.now tt from.at tt }
{
    let word = from.next(text)?;
    if word.kind != Kind::Name {
        return Ok(Turn::Last(from));
    }
    let end = phrases::give(
        text,
        Kind::Semicolon as u8,
        word.next,
        grammar::level_limit(),
    )?;
    Ok(Turn::More(end))
}

// Behind a name of a list: a comma and one name more, or the list's end.
#[tactic(auto, using(std::proofs::lemmas::Grind::common_steps, words::proofs::Codes::code_other), unfolding(grammar::specs::Modules::name_turn, grammar::specs::Modules::another_name))]
fn name_turn(text: &[u8], from: Cursor) -> Result<Turn, Refusal>
    ensures { seen_go result ≡ name_turn checks blank text.now tt from.at tt }
{
    let word = from.next(text)?;
    if word.kind != Kind::Comma {
        return Ok(Turn::Last(from));
    }
    let name = word.next.next(text)?;
    if name.kind != Kind::Name {
        return Err(Refusal::new(Reason::Grammar, name.start));
    }
    Ok(Turn::More(name.next))
}

// Names with commas between them, from past the first.
#[tactic(auto, using(std::proofs::lemmas::Grind::common_steps), unfolding(grammar::specs::Modules::name_list))]
fn name_list(text: &[u8], from: Cursor) -> Result<Cursor, Refusal>
    ensures { (start : ℕ) → seen_end result ≡ name_list checks blank text.now start from.at tt }
{
    phrases::repeat(from, &|at| name_turn(text, at))
}

// A type: BIT, or `[`, a length, `]` and BIT.
#[tactic(auto, using(std::proofs::lemmas::Grind::common_steps), unfolding(grammar::specs::Modules::typed, grammar::specs::Modules::arrayed, grammar::specs::Grammar::part))]
fn one_type(text: &[u8], from: Cursor) -> Result<Cursor, Refusal>
    ensures { seen_end result ≡ typed checks blank text.now from.at tt }
{
    let word = from.next(text)?;
    match word.kind {
        Kind::Bit => Ok(word.next),
        Kind::OpenSquare => {
            let length = phrases::within(text, word.start, word.next, grammar::level_limit())?;
            let closed = phrases::past(text, Kind::CloseSquare, length)?;
            phrases::past(text, Kind::Bit, closed)
        }
        _ => Err(Refusal::new(Reason::Grammar, word.start)),
    }
}

// Behind the names of a list: `:`, a type and `;`.
#[tactic(auto, using(std::proofs::lemmas::Grind::common_steps), unfolding(grammar::specs::Modules::type_of))]
fn list_type(text: &[u8], from: Cursor) -> Result<Cursor, Refusal>
    ensures { seen_end result ≡ type_of checks blank text.now from.at tt }
{
    let colon = phrases::past(text, Kind::Colon, from)?;
    let end = one_type(text, colon)?;
    phrases::past(text, Kind::Semicolon, end)
}

// A list of names of a class, of one type.
#[tactic(auto, using(std::proofs::lemmas::Grind::common_steps, words::proofs::Codes::code_other), unfolding(grammar::specs::Modules::list_turn))]
fn list_turn(text: &[u8], class: Kind, from: Cursor) -> Result<Turn, Refusal>
    ensures { seen_go result ≡ list_turn checks blank text.now (code class) tt from.at tt }
{
    let word = from.next(text)?;
    if word.kind != Kind::Name {
        return Ok(Turn::Last(from));
    }
    let names = name_list(text, word.next)?;
    let end = list_type(text, names)?;
    Ok(Turn::More(end))
}

// CONST and its constants, or nothing.
#[tactic(auto, using(std::proofs::lemmas::Grind::common_steps, words::proofs::Codes::code_other), unfolding(grammar::specs::Modules::constants))]
fn constant_section(text: &[u8], from: Cursor) -> Result<Cursor, Refusal>
    ensures { seen_end result ≡ constants checks blank text.now tt from.at tt }
{
    let word = from.next(text)?;
    if word.kind != Kind::Const {
        return Ok(from);
    }
    phrases::repeat(word.next, &|at| constant_turn(text, at))
}

// IN, OUT or VAR and its lists, or nothing.
#[tactic(auto, using(std::proofs::lemmas::Grind::common_steps, words::proofs::Codes::code_other), unfolding(grammar::specs::Modules::lists))]
fn signal_section(text: &[u8], class: Kind, from: Cursor) -> Result<Cursor, Refusal>
    ensures { seen_end result ≡ lists checks blank text.now (code class) tt from.at tt }
{
    let word = from.next(text)?;
    if word.kind == class {
        phrases::repeat(word.next, &|at| list_turn(text, class, at))
    } else {
        Ok(from)
    }
}

// The declarations.
#[tactic(auto, using(std::proofs::lemmas::Grind::common_steps), unfolding(grammar::specs::Modules::declarations, grammar::specs::Modules::out_and_var))]
fn all_declarations(text: &[u8], from: Cursor) -> Result<Cursor, Refusal>
    ensures { seen_end result ≡ declarations checks blank text.now from.at tt }
{
    let constants = constant_section(text, from)?;
    let inputs = signal_section(text, Kind::In, constants)?;
    let outputs = signal_section(text, Kind::Out, inputs)?;
    signal_section(text, Kind::Var, outputs)
}

// BEGIN and statements, or nothing.
#[tactic(auto, using(std::proofs::lemmas::Grind::common_steps, words::proofs::Codes::code_other), unfolding(grammar::specs::Modules::begun))]
fn begin(text: &[u8], from: Cursor) -> Result<Body, Refusal>
    ensures { seen_body result ≡ begun checks blank text.now from.at tt }
{
    let word = from.next(text)?;
    if word.kind != Kind::Begin {
        return Ok(Body {
            start: from,
            next: from,
        });
    }
    let next = phrases::statement_list(text, word.next, grammar::level_limit())?;
    Ok(Body {
        start: word.next,
        next,
    })
}

// `MODULE name ;`.
#[tactic(auto, using(std::proofs::lemmas::Grind::common_steps, words::proofs::Codes::code_other, crate::proofs::Sections::closing), unfolding(grammar::specs::Modules::headed))]
fn heading(text: &[u8], from: Cursor) -> Result<Head, Refusal>
    ensures { seen_head result ≡ headed checks blank text.now from.at tt }
{
    let name = phrases::past(text, Kind::Module, from)?.next(text)?;
    if name.kind != Kind::Name {
        return Err(Refusal::new(Reason::Grammar, name.start));
    }
    let next = phrases::past(text, Kind::Semicolon, name.next)?;
    Ok(Head { name, next })
}

// The module's name again.
#[tactic(auto, using(std::proofs::lemmas::Grind::common_steps, words::proofs::Codes::code_other), unfolding(grammar::specs::Modules::same_name))]
fn name_again(text: &[u8], name: Word, from: Cursor) -> Result<Cursor, Refusal>
    ensures { seen_end result ≡ same_name checks blank text.now name.start name.next.at from.at tt }
{
    let word = from.next(text)?;
    let first = basics::span(name.start, name.next.at);
    let second = basics::span(word.start, word.next.at);
    if word.kind == Kind::Name && names::same_name(text, name.start, first, word.start, second) {
        Ok(word.next)
    } else {
        Err(Refusal::new(Reason::Grammar, word.start))
    }
}

// `END name .` and the text's end.
#[tactic(auto, using(std::proofs::lemmas::Grind::common_steps), unfolding(grammar::specs::Modules::ended))]
fn ending(text: &[u8], name: Word, from: Cursor) -> Result<Cursor, Refusal>
    ensures { seen_end result ≡ ended checks blank text.now name.start name.next.at from.at tt }
{
    let end = phrases::past(text, Kind::End, from)?;
    let named = name_again(text, name, end)?;
    let dot = phrases::past(text, Kind::Dot, named)?;
    phrases::past(text, Kind::TextEnd, dot)
}

// All that follows the heading.
#[tactic(auto, using(std::proofs::lemmas::Grind::common_steps), unfolding(grammar::specs::Modules::headless))]
fn behind_heading(text: &[u8], name: Word, from: Cursor) -> Result<Checked, Refusal>
    ensures { seen_text result ≡ headless checks blank text.now name.start name.next.at from.at tt }
{
    let body = begin(text, all_declarations(text, from)?)?;
    let next = ending(text, name, body.next)?;
    Ok(Checked {
        declarations: from,
        statements: body.start,
        next,
    })
}

// A whole text: where its declarations and its statements start, or its refusal of stage 2.
#[tactic(auto, using(std::proofs::lemmas::Grind::common_steps), unfolding(grammar::specs::Modules::whole_text))]
pub fn check(text: &[u8]) -> Result<Checked, Refusal>
    ensures { seen_text result ≡ checked_text text.now }
{
    let head = heading(text, Cursor { at: 0 })?;
    behind_heading(text, head.name, head.next)
}
