// What the parts of an expression are, each judged for a sort. One function writes: a signal's nodes go to the room that is lent, operands first, and
// the count says how many are there.
#![tactic(auto)]

ghost use Rattle.std.specs.Prelude.{◌≡◌, Ok};
ghost use Rattle.words.specs.Kinds.{code};
ghost use Rattle.integers.specs.Integers.{num, answer, combined};
ghost use Rattle.grammar.specs.Outcome.{built_at};
ghost use Rattle.grammar.specs.Grammar.{is_sum, is_product, index_sort, part_sort};
ghost use Rattle.judging.specs.Judging.{sort_of, judged, opening, meant, meaning_of, mark_of, literal_of, logic_of, plain_of, opened_of, element_of, operator_of};
ghost use Rattle.judging.specs.Reading.{seen, done, dotted_of, pointed_of};

use basics::refusal::{Reason, Refusal};
use integers::{Num, Operator};
use words::{Cursor, Kind};

// What a part is read for: only to be checked, a number, a signal, or a signal that is not counted, of which there are as many sorts as numbers from 3 on.
#[derive(Clone, Copy, Debug, PartialEq, Eq)]
pub enum Sort {
    Checked,
    Number,
    Signal,
    Uncounted(u8),
}

// The sort that has a number.
impl From<u8> for Sort {
    ghost from_gives = { λ n sort. sort_of sort ≡ n };

    fn from(number: u8) -> Sort {
        match number {
            0 => Sort::Checked,
            1 => Sort::Number,
            2 => Sort::Signal,
            n => Sort::Uncounted(n - 3),
        }
    }
}

// Kept: nodes are numbers here, as they stand in the lent room (memory is fixed), and the elements follow the operators.
// The nodes of signals: the two constants, the operators, MUX, REG of one part and of two; element k is the node that many behind the first element.
pub const LOW: u32 = 0;

pub const HIGH: u32 = 1;

pub const NOT: u32 = 2;

pub const AND: u32 = 3;

pub const OR: u32 = 4;

pub const XOR: u32 = 5;

pub const MUX: u32 = 6;

pub const REG: u32 = 7;

pub const HELD: u32 = 8;

pub const ELEMENT: u32 = 9;

// How many nodes a module may have.
pub const NODES: usize = 2048;

// What a part is: a number (0 where no number is wanted), or a signal's node.
#[derive(Clone, Copy, Debug, PartialEq, Eq)]
pub enum Judged {
    Number(Num),
    Node(u32),
}

// A signal's first element and its length, 0 for a BIT.
#[derive(Clone, Copy, Debug, PartialEq, Eq)]
pub struct Base {
    pub first: u16,
    pub size: u16,
}

// What a name stands for.
#[derive(Clone, Copy, Debug, PartialEq, Eq)]
pub enum Meaning {
    Value(Num),
    Signal(Base),
}

// What was read: a number (0 where no number is wanted), and the cursor past it.
#[derive(Clone, Copy, Debug, PartialEq, Eq)]
pub struct Read {
    pub value: Num,
    pub next: Cursor,
}

// One turn of a chain of operators: go on, or the end of the chain.
#[derive(Clone, Copy, Debug, PartialEq, Eq)]
pub enum Step {
    More(Read),
    Last(Read),
}

// A text, and the names that stand at a place of it.
#[derive(Clone, Copy)]
pub struct Scope<'a> {
    pub text: &'a [u8],
    pub names: &'a [u16],
}

pub fn is_sum(kind: Kind) -> bool
    ensures { result ≡ is_sum (code kind) }
{
    matches!(kind, Kind::Plus | Kind::Minus)
}

pub fn is_product(kind: Kind) -> bool
    ensures { result ≡ is_product (code kind) }
{
    matches!(kind, Kind::Star | Kind::Caret | Kind::Div | Kind::Mod)
}

impl Sort {
    // The sort of an index.
    #[tactic(auto, using(std::proofs::lemmas::Grind::common_steps), unfolding(grammar::specs::Grammar::index_sort))]
    pub fn of_index(self) -> Sort
        ensures { sort_of result ≡ index_sort (sort_of self) }
    {
        match self {
            Sort::Checked => Sort::Checked,
            _ => Sort::Number,
        }
    }

    // The sort of a part of MUX or REG.
    #[tactic(auto, using(std::proofs::lemmas::Grind::common_steps), unfolding(grammar::specs::Grammar::part_sort))]
    pub fn of_part(self) -> Sort
        ensures { sort_of result ≡ part_sort (sort_of self) }
    {
        match self {
            Sort::Number => Sort::Uncounted(0),
            _ => self,
        }
    }
}

// A node of a signal.
#[tactic(auto, using(std::proofs::lemmas::Grind::common_steps), unfolding(crate::specs::Judging::mark_of))]
pub fn mark(sort: Sort, code: u32, place: usize) -> Result<Judged, Refusal>
    ensures { judged result ≡ mark_of (sort_of sort) code place }
{
    match sort {
        Sort::Signal => Ok(Judged::Node(code)),
        Sort::Number => Err(Refusal::new(Reason::Name, place)),
        Sort::Checked | Sort::Uncounted(_) => Ok(Judged::Number(Num::Up(0))),
    }
}

#[tactic(auto, using(std::proofs::lemmas::Grind::common_steps), unfolding(crate::specs::Judging::literal_of))]
pub fn literal(sort: Sort, place: usize, value: u16) -> Result<Judged, Refusal>
    ensures { judged result ≡ literal_of (sort_of sort) place value }
{
    match sort {
        Sort::Number => Ok(Judged::Number(Num::from(value))),
        Sort::Checked => Ok(Judged::Number(Num::Up(0))),
        Sort::Signal | Sort::Uncounted(_) => Err(Refusal::new(Reason::Name, place)),
    }
}

#[tactic(auto, using(std::proofs::lemmas::Grind::common_steps), unfolding(crate::specs::Judging::logic_of))]
pub fn logic(sort: Sort, place: usize, value: u16) -> Result<Judged, Refusal>
    ensures { judged result ≡ logic_of (sort_of sort) place value }
{
    mark(sort, if value == 0 { LOW } else { HIGH }, place)
}

impl Scope<'_> {
    // What the name from start to end stands for.
    #[inline(always)]
    #[tactic(auto, using(std::proofs::lemmas::Grind::common_steps), unfolding(crate::specs::Judging::meaning_of, names::specs::Names::number_of))]
    pub fn meaning(self, start: usize, end: usize) -> Option<Meaning>
        ensures { meant result ≡ meaning_of self.entry.text.now self.entry.names.now start end }
    {
        let entry = names::look_up(self.text, self.names, start, basics::span(start, end))?;
        Some(if entry.kind == names::SIGNAL {
            Meaning::Signal(Base {
                first: entry.value,
                size: entry.size,
            })
        } else if entry.size == 0 {
            Meaning::Value(Num::Up(entry.value))
        } else {
            Meaning::Value(Num::Down(entry.value))
        })
    }
}

// An element of an array, by its index.
#[tactic(auto, using(std::proofs::lemmas::Grind::common_steps), unfolding(crate::specs::Judging::element_of))]
pub fn element(
    sort: Sort,
    start: usize,
    place: usize,
    base: Base,
    index: Num,
) -> Result<Judged, Refusal>
    ensures { judged result ≡ element_of (sort_of sort) start place base.first base.size (num index) }
{
    match index {
        _ if sort == Sort::Checked => Ok(Judged::Number(Num::Up(0))),
        Num::Up(i) if i < base.size => mark(sort, ELEMENT + (base.first as u32 + i as u32), start),
        _ => Err(Refusal::new(Reason::Index, place)),
    }
}

// The operator on numbers that a word is, on two numbers.
#[inline(always)]
#[tactic(auto, using(std::proofs::lemmas::Grind::common_steps), unfolding(integers::specs::Integers::combined))]
fn combined(kind: Kind, a: Num, b: Num) -> Option<Num>
    ensures { answer result ≡ combined (code kind) (num a) (num b) }
{
    match kind {
        Kind::Plus => Operator::Plus.on(a, b),
        Kind::Minus => Operator::Minus.on(a, b),
        Kind::Star => Operator::Times.on(a, b),
        Kind::Div => Operator::Divide.on(a, b),
        Kind::Mod => Operator::Modulo.on(a, b),
        Kind::Caret => Operator::Power.on(a, b),
        _ => None,
    }
}

// An operator at a place, between two operands. It is laid into each level of operators, where its kind is one of two or of four.
#[inline(always)]
#[tactic(auto, using(std::proofs::lemmas::Grind::common_steps), unfolding(crate::specs::Judging::operator_of))]
pub fn operate(sort: Sort, kind: Kind, place: usize, a: Num, b: Num) -> Result<Judged, Refusal>
    ensures { judged result ≡ operator_of (sort_of sort) (code kind) place (num a) (num b) }
{
    match (sort, kind) {
        (Sort::Checked, _) => Ok(Judged::Number(Num::Up(0))),
        (Sort::Number, _) => match combined(kind, a, b) {
            Some(n) => Ok(Judged::Number(n)),
            None => Err(Refusal::new(Reason::Arithmetic, place)),
        },
        (_, Kind::Plus) => mark(sort, OR, place),
        (_, Kind::Minus) => mark(sort, XOR, place),
        (_, Kind::Star) => mark(sort, AND, place),
        _ => Err(Refusal::new(Reason::Name, place)),
    }
}

// What was judged: a node is written.
// Kept: room and count are two parameters: a struct that holds the lent room would add to each contract that its loan stays the same one.
#[tactic(auto, using(std::proofs::lemmas::Grind::common_steps), unfolding(crate::specs::Reading::emitted))]
pub fn put(
    room: &mut [u32],
    count: &mut usize,
    verdict: Judged,
    place: usize,
    next: Cursor,
) -> Result<Read, Refusal>
    ensures { seen result (room.new, count.new) ≡ built_at next.at (done (judged (Ok verdict)) place (room.old, count.old)) }
{
    match verdict {
        Judged::Number(value) => Ok(Read { value, next }),
        Judged::Node(code) => {
            if *count >= NODES || *count >= room.len() {
                return Err(Refusal::new(Reason::Limit, place));
            }
            room[*count] = code;
            *count += 1;
            Ok(Read {
                value: Num::Up(0),
                next,
            })
        }
    }
}

impl Scope<'_> {
    // A name without an index.
    #[tactic(auto, using(std::proofs::lemmas::Grind::common_steps), unfolding(crate::specs::Judging::plain_of))]
    pub fn plain(self, sort: Sort, start: usize, end: usize) -> Result<Judged, Refusal>
        ensures { judged result ≡ plain_of self.entry.text.now self.entry.names.now (sort_of sort) start end }
    {
        if sort == Sort::Checked {
            return Ok(Judged::Number(Num::Up(0)));
        }
        match self.meaning(start, end) {
            Some(Meaning::Value(value)) if sort == Sort::Number => Ok(Judged::Number(value)),
            Some(Meaning::Signal(base)) if sort != Sort::Number => {
                if base.size == 0 {
                    mark(sort, ELEMENT + base.first as u32, start)
                } else {
                    Err(Refusal::new(Reason::Index, start))
                }
            }
            _ => Err(Refusal::new(Reason::Name, start)),
        }
    }

    // A name that an index at a place follows.
    #[tactic(auto, using(std::proofs::lemmas::Grind::common_steps), unfolding(crate::specs::Judging::opened_of))]
    pub fn open(self, sort: Sort, start: usize, end: usize, place: usize) -> Result<Base, Refusal>
        ensures { opening result ≡ opened_of self.entry.text.now self.entry.names.now (sort_of sort) start end place }
    {
        if sort == Sort::Checked {
            return Ok(Base { first: 0, size: 0 });
        }
        match self.meaning(start, end) {
            Some(Meaning::Value(_)) if sort == Sort::Number => Err(Refusal::new(
                Reason::Index,
                place,
            )),
            Some(Meaning::Signal(base)) if sort != Sort::Number => {
                if base.size == 0 {
                    Err(Refusal::new(Reason::Index, place))
                } else {
                    Ok(base)
                }
            }
            _ => Err(Refusal::new(Reason::Name, start)),
        }
    }

    // Behind the dot of an index.
    #[tactic(auto, using(std::proofs::lemmas::Grind::common_steps), unfolding(grammar::specs::Grammar::dotted))]
    pub fn dot(
        self,
        room: &mut [u32],
        count: &mut usize,
        sort: Sort,
        from: Cursor,
    ) -> Result<Read, Refusal>
        ensures { seen result (room.new, count.new) ≡ dotted_of self.entry.text.now self.entry.names.now (sort_of sort) from.at (room.old, count.old) }
    {
        let word = from.next(self.text)?;
        let verdict = match word.kind {
            Kind::Number => literal(sort, word.start, word.value)?,
            Kind::Large => return Err(Refusal::new(Reason::Arithmetic, word.start)),
            Kind::Name => self.plain(sort, word.start, word.next.at)?,
            _ => return Err(Refusal::new(Reason::Grammar, word.start)),
        };
        put(room, count, verdict, word.start, word.next)
    }

    // An index with a dot at a place, of the name from start to end.
    #[tactic(auto, using(std::proofs::lemmas::Grind::common_steps), unfolding(grammar::specs::Grammar::pointed))]
    pub fn point(
        self,
        room: &mut [u32],
        count: &mut usize,
        sort: Sort,
        start: usize,
        end: usize,
        place: usize,
        from: Cursor,
    ) -> Result<Read, Refusal>
        ensures { seen result (room.new, count.new) ≡ pointed_of self.entry.text.now self.entry.names.now (sort_of sort) start end place from.at (room.old, count.old) }
    {
        let base = self.open(sort, start, end, place)?;
        let index = self.dot(room, count, sort.of_index(), from)?;
        let verdict = element(sort, start, place, base, index.value)?;
        put(room, count, verdict, start, index.next)
    }
}
