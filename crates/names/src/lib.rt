// Names: constants, signals and loop variables, the newest first. A name is known by its spelling, the bytes of the text at a start.
// They are lent as numbers, five for a name: the place and the length of its spelling, its kind, value and size. A number is held as value, size 0, or
// as -(value + 1), size 1; a signal as its first element and 0 for a BIT, else the array's length.
#![tactic(auto)]

pub mod table;

ghost use Rattle.std.specs.Prelude.{◌≡◌, Option, take, drop};
ghost use Rattle.names.specs.Names.{spelling, same, seen_found, looked_up};

pub use table::Table;

// Kept: kinds are numbers here, since names are lent as numbers (memory is fixed) and `look_up` shows whatever number stands there.
pub const CONSTANT: u16 = 1;

pub const SIGNAL: u16 = 2;

pub const VARIABLE: u16 = 3;

// What a name stands for: its kind, value and size.
#[derive(Clone, Copy, Debug, PartialEq, Eq)]
pub struct Entry {
    pub kind: u16,
    pub value: u16,
    pub size: u16,
}

// The n bytes at a start, or those that the text has.
fn spelt(text: &[u8], start: usize, n: usize) -> &[u8]
    ensures { result.now ≡ take n (drop start text.now) }
{
    let rest = &text[start.min(text.len())..];
    &rest[..n.min(rest.len())]
}

// Whether the m bytes at one place and the n at another are one spelling.
pub fn same_name(text: &[u8], a: usize, m: usize, b: usize, n: usize) -> bool
    ensures { result ≡ same (spelling text.now a m) (spelling text.now b n) }
{
    m == n && spelt(text, a, m) == spelt(text, b, n)
}

// What the name of n bytes at start is, among the names lent.
pub fn look_up(text: &[u8], names: &[u16], start: usize, n: usize) -> Option<Entry>
    ensures { seen_found result ≡ looked_up text.now names.now start n }
{
    let mut names = names;
    while let [at, length, kind, value, size, rest @ ..] = names {
        if same_name(text, *at as usize, *length as usize, start, n) {
            return Some(Entry {
                kind: *kind,
                value: *value,
                size: *size,
            });
        }
        names = rest;
    }
    None
}
