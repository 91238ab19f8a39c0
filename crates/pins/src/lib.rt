// The pins that an OUT's equation names, and the variables of its truth tables.
#![tactic(auto)]

ghost use Rattle.std.specs.Prelude.{◌≡◌, Bool, true, false, not, ◌&&◌, ◌||◌, List, ℕ, ◌+◌, ◌-◌, ◌*◌, ◌<◌, ◌≤◌, length, get_or, set, take, replicate, eqb};
ghost use Rattle.basics.specs.Choice.{pick, bit, on};
ghost use Rattle.basics.specs.Below.{any_below, listed};
ghost use Rattle.trees.specs.Machine.{env_of};
ghost use Rattle.trees.specs.Layout.{Elements, elements_of, nodes_at};
ghost use Rattle.reach.specs.Uses.{keeps, uses};
ghost use Rattle.reach.specs.Reach.{via};
ghost use Rattle.reach.specs.Table.{cell, Matrix, marked};
ghost use Rattle.pins.specs.Named.{mentions, mentions_at, names_pin};
ghost use Rattle.pins.specs.Variables.{variable_pin};
ghost use Rattle.pins.specs.Memory.{named_in, Variables};

const RISING_PINS: [usize; 22] = [
    1, 2, 3, 4, 5, 6, 7, 8, 9, 10, 11, 13, 14, 15, 16, 17, 18, 19, 20, 21, 22, 23,
];

// The pin of variable i.
#[tactic(auto, unfolding(crate::specs::Variables::variable_pin))]
pub fn variable_pin(rows: bool, i: usize) -> usize
    requires { i < 22 }
    ensures { result ≡ variable_pin rows i }
{
    if rows {
        device::column(21 - i) as usize
    } else {
        RISING_PINS[i]
    }
}

// Element j is written in the equation of o, or met from one that is.
fn is_named(d: &[u8], m: &[u8], o: usize, j: usize) -> bool
    requires o_bound { o < 64 }
    requires j_bound { j < 64 }
    ensures { result ≡ named_in d.now m.now o j }
{
    trees::named(d, o * 64 + j)
        || circuit::find(|k| trees::named(d, o * 64 + k) && trees::named(m, k * 64 + j)).is_some()
}

fn named_row(d: &[u8], m: &[u8], o: usize) -> [u8; 64]
    requires { o < 64 }
    ensures { result ≡ listed (λ j. bit (named_in d.now m.now o j)) 64 }
{
    circuit::bits(|j| is_named(d, m, o, j))
}

// The elements that the equation of o mentions: a 1 for each.
fn mentioned(parts: &[u32], m: &[u8], o: usize) -> [u8; 64]
    requires matrix { Matrix m.now (via (uses (elements_of parts.now)) 64) }
    requires o_bound { o < 64 }
    ensures { result ≡ listed (λ j. bit (mentions (elements_of parts.now) o j)) 64 }
{
    let mut d = [0u8; 4096];
    reach::mark_equation(&mut d, o, parts, o);
    named_row(&d, m, o)
}

// An element that remains is at pin p, and is mentioned.
#[tactic(auto, using(crate::proofs::Naming::row_at))]
fn is_at(parts: &[u32], row: &[u8; 64], o: usize, p: usize, j: usize) -> bool
    requires row_value { row.now ≡ listed (λ j. bit (mentions (elements_of parts.now) o j)) 64 }
    requires j_bound { j < 64 }
    ensures { result ≡ mentions_at (elements_of parts.now) o p j }
{
    reach::is_remaining(parts, j) && trees::at(parts, trees::PIN_AT + j) == p && row[j] == 1
}

// A two-part REG names its own pin.
fn is_own(parts: &[u32], o: usize, p: usize) -> bool
    requires { o < 64 }
    ensures { result ≡ keeps (nodes_at parts.now o) && eqb (get_or parts.now (2432 + o) 0) p }
{
    reach::keeping(parts, o) && trees::at(parts, trees::PIN_AT + o) == p
}

// The equation of o names pin p.
fn is_named_pin(parts: &[u32], row: &[u8; 64], o: usize, p: usize) -> bool
    requires row_value { row.now ≡ listed (λ j. bit (mentions (elements_of parts.now) o j)) 64 }
    requires o_bound { o < 64 }
    ensures { result ≡ names_pin (elements_of parts.now) o p }
{
    circuit::find(|j| is_at(parts, row, o, p, j)).is_some() || is_own(parts, o, p)
}

// The variables that an equation names: their pins, how many there are, and which of the 22.
#[derive(Clone, Copy)]
pub struct Chosen {
    pub vars: [u8; 22],
    pub count: usize,
    pub mask: u32,
}

impl Chosen {
    // The pins of the variables.
    pub fn pins(&self) -> &[u8]
        requires { self.now.count ≤ 22 }
        ensures { result.now ≡ take self.now.count self.now.vars }
    {
        &self.vars[..self.count]
    }
}

fn choose(parts: &[u32], row: &[u8; 64], rows: bool, o: usize) -> Chosen
    requires row_value { row.now ≡ listed (λ j. bit (mentions (elements_of parts.now) o j)) 64 }
    requires o_bound { o < 64 }
    ensures { Variables (elements_of parts.now) rows o result.vars result.count result.mask }
{
    let mut vars = [0u8; 22];
    let mut count: usize = 0;
    let mut mask: u32 = 0;
    for i in 0..22 {
        let p = variable_pin(rows, i);
        if is_named_pin(parts, row, o, p) {
            vars[count] = p as u8;
            count += 1;
            mask += 1 << i;
        }
    }
    Chosen { vars, count, mask }
}

// The variables of the table of o.
pub fn variables(parts: &[u32], m: &[u8], rows: bool, o: usize) -> Chosen
    requires matrix { Matrix m.now (via (uses (elements_of parts.now)) 64) }
    requires o_bound { o < 64 }
    ensures { Variables (elements_of parts.now) rows o result.vars result.count result.mask }
{
    let row = mentioned(parts, m, o);
    choose(parts, &row, rows, o)
}
