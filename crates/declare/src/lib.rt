// Declarations, judged where they stand in the text: names are handed on by value, elements are written into the memory that is lent.
#![tactic(auto)]

ghost use Rattle.std.specs.Prelude.{◌≡◌, ◌+◌, ℕ};
ghost use Rattle.words.specs.Kinds.{code, taken};
ghost use Rattle.integers.specs.Integers.{num};
ghost use Rattle.names.specs.Names.{held};
ghost use Rattle.grammar.specs.Grammar.{turned};
ghost use Rattle.simple.specs.Statements.{upward};
ghost use Rattle.declare.specs.Declarations.{class_of, seen_made, with_constant, width_of, constant_from, constant_of, element_name, elements_of, list_end, signals_of, item_of, items_of, section_of, declarations_of};

use basics::refusal::{Reason, Refusal};
use integers::Num;
use judging::{Scope, Sort};
use names::{Entry, Table};
use words::{Cursor, Kind};

// What was made of a part: the names that stand behind it, and the place past it.
#[derive(Clone, Copy)]
pub struct Made {
    pub table: Table,
    pub next: Cursor,
}

// The sections of declarations. What is not a constant is a signal, and its section's number is its class in memory.
#[derive(Clone, Copy, Debug, PartialEq, Eq)]
enum Section {
    Constants = 0,
    In = 1,
    Out = 2,
    Var = 3,
}

// The sections, in their order.
const SECTIONS: [Section; 4] = [Section::Constants, Section::In, Section::Out, Section::Var];

// Where the counts of elements and constants stand in memory, and their limits.
const ELEMENTS_AT: usize = 2586;

const CONSTANTS_AT: usize = 2587;

const ELEMENTS: u32 = 64;

const CONSTANTS: u32 = 32;

impl Section {
    // The word that a section begins with.
    fn word(self) -> Kind
        ensures { code result ≡ 208 + class_of self }
    {
        match self {
            Section::Constants => Kind::Const,
            Section::In => Kind::In,
            Section::Out => Kind::Out,
            Section::Var => Kind::Var,
        }
    }
}

// The names with a constant in front.
fn with_constant(names: &[u16], start: usize, end: usize, value: Num) -> Table
    ensures { held result ≡ with_constant names.now start end (num value) }
{
    let (value, size) = match value {
        Num::Up(m) => (m, 0),
        Num::Down(m) => (m, 1),
    };
    let kind = names::CONSTANT;
    Table::extend(
        names,
        start,
        basics::span(start, end),
        Entry { kind, value, size },
    )
}

// Behind the name of a constant.
#[tactic(auto, using(std::proofs::lemmas::Grind::common_steps), unfolding(crate::specs::Declarations::constant_from, crate::specs::Declarations::constant_end))]
fn value_constant(
    scope: Scope,
    room: &mut [u32],
    count: &mut usize,
    start: usize,
    end: Cursor,
) -> Result<Made, Refusal>
    ensures { seen_made result (room.new, count.new) ≡ constant_from scope.entry.text.now scope.entry.names.now start end.at (room.old, count.old) }
{
    let becomes = end.next(scope.text)?;
    if becomes.kind != Kind::Becomes {
        return Err(Refusal::new(Reason::Grammar, becomes.start));
    }
    let depth = grammar::level_limit();
    let read = readers::expression(scope, room, count, Sort::Number, becomes.next, depth)?;
    let semicolon = read.next.next(scope.text)?;
    if semicolon.kind != Kind::Semicolon {
        return Err(Refusal::new(Reason::Grammar, semicolon.start));
    }
    Ok(Made {
        table: with_constant(scope.names, start, end.at, read.value),
        next: semicolon.next,
    })
}

// A constant.
#[tactic(auto, using(std::proofs::lemmas::Grind::common_steps, parts::proofs::Runs::none_more), unfolding(crate::specs::Declarations::constant_of))]
fn constant(
    scope: Scope,
    room: &mut [u32],
    count: &mut usize,
    start: usize,
    end: Cursor,
) -> Result<Made, Refusal>
    ensures { seen_made result (room.new, count.new) ≡ constant_of scope.entry.text.now scope.entry.names.now start end.at (room.old, count.old) }
{
    if lists::is_known(scope, start, end.at) {
        return Err(Refusal::new(Reason::Name, start));
    }
    if !parts::one_more(room, CONSTANTS_AT, CONSTANTS) {
        return Err(Refusal::new(Reason::Limit, start));
    }
    value_constant(scope, room, count, start, end)
}

// How many elements a name has.
fn width(length: u16) -> u32
    ensures { result ≡ width_of length }
{
    u32::from(length.max(1))
}

// The elements of a name.
#[tactic(auto, using(std::proofs::lemmas::Grind::common_steps), unfolding(crate::specs::Declarations::element_name))]
fn element_name(
    names: &[u16],
    room: &mut [u32],
    section: Section,
    length: u16,
    start: usize,
    end: Cursor,
) -> Result<Made, Refusal>
    ensures { (k : ℕ) → turned (seen_made result (room.new, k)) ≡ element_name (class_of section) length names.now start end.at (room.old, k) }
{
    let first = parts::tell(room, ELEMENTS_AT);
    let n = width(length);
    if u64::from(first) + u64::from(n) > u64::from(ELEMENTS) {
        return Err(Refusal::new(Reason::Limit, start));
    }
    parts::declare_from(room, section as u32, start, first, n);
    parts::put(room, ELEMENTS_AT, first + n);
    let entry = Entry {
        kind: names::SIGNAL,
        value: first as u16,
        size: length,
    };
    Ok(Made {
        table: Table::extend(names, start, basics::span(start, end.at), entry),
        next: end,
    })
}

// The elements of a list's names.
#[tactic(auto, using(std::proofs::lemmas::Grind::common_steps, crate::proofs::Laws::name_more, crate::proofs::Laws::name_falls, crate::proofs::Laws::name_last, crate::proofs::Laws::comma_more, crate::proofs::Laws::comma_falls, crate::proofs::Laws::names_end, crate::proofs::Laws::names_none), unfolding(crate::specs::Declarations::elements_of))]
fn elements(
    text: &[u8],
    room: &mut [u32],
    section: Section,
    length: u16,
    from: Made,
) -> Result<Made, Refusal>
    ensures { (k : ℕ) → seen_made result (room.new, k) ≡ elements_of text.now (class_of section) length (held from.table) from.next.at (room.old, k) }
{
    let mut made = from;
    loop {
        let word = made.next.next(text)?;
        made = match word.kind {
            Kind::Name => element_name(
                made.table.lent(),
                room,
                section,
                length,
                word.start,
                word.next,
            )?,
            Kind::Comma => Made {
                next: word.next,
                ..made
            },
            _ => return Ok(made),
        };
    }
}

// A number that counts from 0.
fn up(v: Num) -> u16
    ensures { result ≡ upward (num v) }
{
    match v {
        Num::Up(k) => k,
        Num::Down(_) => 0,
    }
}

// Behind the type of a list, which begins where the names stand.
#[tactic(auto, using(std::proofs::lemmas::Grind::common_steps), unfolding(crate::specs::Declarations::list_end))]
fn end_list(
    text: &[u8],
    room: &mut [u32],
    section: Section,
    list: Made,
    length: Num,
    from: Cursor,
) -> Result<Made, Refusal>
    ensures { (k : ℕ) → seen_made result (room.new, k) ≡ list_end text.now (class_of section) (held list.table) list.next.at (num length) from.at (room.old, k) }
{
    let semicolon = from.next(text)?;
    if semicolon.kind != Kind::Semicolon {
        return Err(Refusal::new(Reason::Grammar, semicolon.start));
    }
    let made = elements(text, room, section, up(length), list)?;
    Ok(Made {
        next: semicolon.next,
        ..made
    })
}

// A list of signals, which begins where the names stand.
#[tactic(auto, using(std::proofs::lemmas::Grind::common_steps), unfolding(crate::specs::Declarations::signals_of))]
fn signals(
    text: &[u8],
    room: &mut [u32],
    count: &mut usize,
    section: Section,
    list: Made,
) -> Result<Made, Refusal>
    ensures { seen_made result (room.new, count.new) ≡ signals_of text.now (class_of section) (held list.table) list.next.at (room.old, count.old) }
{
    let scope = Scope {
        text,
        names: list.table.lent(),
    };
    let colon = lists::fresh(scope, list.next)?;
    let length = lists::read_type(scope, room, count, colon)?;
    end_list(text, room, section, list, length.value, length.next)
}

// A declaration of a section, whose first name is from start to end.
#[tactic(auto, using(std::proofs::lemmas::Grind::common_steps), unfolding(crate::specs::Declarations::item_of))]
fn item(
    text: &[u8],
    room: &mut [u32],
    count: &mut usize,
    section: Section,
    from: Made,
    start: usize,
    end: Cursor,
) -> Result<Made, Refusal>
    ensures { seen_made result (room.new, count.new) ≡ item_of text.now (class_of section) (held from.table) from.next.at start end.at (room.old, count.old) }
{
    match section {
        Section::Constants => constant(
            Scope {
                text,
                names: from.table.lent(),
            },
            room,
            count,
            start,
            end,
        ),
        _ => signals(text, room, count, section, from),
    }
}

// The declarations of a section, behind its word.
#[tactic(auto, using(std::proofs::lemmas::Grind::common_steps, crate::proofs::Laws::item_more, crate::proofs::Laws::item_falls, crate::proofs::Laws::item_last, crate::proofs::Laws::items_end, crate::proofs::Laws::items_none), unfolding(crate::specs::Declarations::items_of))]
fn items(
    text: &[u8],
    room: &mut [u32],
    count: &mut usize,
    section: Section,
    from: Made,
) -> Result<Made, Refusal>
    ensures { seen_made result (room.new, count.new) ≡ items_of text.now (class_of section) (held from.table) from.next.at (room.old, count.old) }
{
    let mut made = from;
    loop {
        let word = made.next.next(text)?;
        if word.kind != Kind::Name {
            return Ok(made);
        }
        made = item(text, room, count, section, made, word.start, word.next)?;
    }
}

// A section, or nothing.
#[tactic(auto, using(std::proofs::lemmas::Grind::common_steps, words::proofs::Codes::code_one, words::proofs::Codes::code_other), unfolding(crate::specs::Declarations::section_of))]
fn section_at(
    text: &[u8],
    room: &mut [u32],
    count: &mut usize,
    section: Section,
    from: Made,
) -> Result<Made, Refusal>
    ensures { seen_made result (room.new, count.new) ≡ section_of text.now (class_of section) (held from.table) from.next.at (room.old, count.old) }
{
    let word = from.next.next(text)?;
    if word.kind != section.word() {
        return Ok(from);
    }
    let made = Made {
        next: word.next,
        ..from
    };
    items(text, room, count, section, made)
}

// The declarations of a module, behind its heading.
#[tactic(auto, using(std::proofs::lemmas::Grind::common_steps, crate::proofs::Laws::all_declared, crate::proofs::Laws::declared_more, crate::proofs::Laws::declared_stop, crate::proofs::Laws::declared_end))]
pub fn declare(
    text: &[u8],
    parts: &mut [u32],
    count: &mut usize,
    from: Cursor,
) -> Result<Made, Refusal>
    ensures { seen_made result (parts.new, count.new) ≡ declarations_of text.now from.at (parts.old, count.old) }
{
    let mut made = Made {
        table: Table::none(),
        next: from,
    };
    for section in SECTIONS {
        made = section_at(text, parts, count, section, made)?;
    }
    Ok(made)
}
