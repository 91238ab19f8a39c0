// Truth tables of an OUT's function, over the variables that it names.
#![tactic(auto)]

ghost use Rattle.std.specs.Prelude.{IfSome, IfErr, ◌≡◌, Bool, true, false, not, ◌&&◌, ◌||◌, List, ◌++◌, ℕ, ◌+◌, ◌-◌, ◌*◌, ◌/◌, ◌%◌, ◌^◌, ◌<◌, ◌≤◌, eqb, length, get_or, set, take, drop};
ghost use Rattle.basics.specs.Choice.{pick, bit, on, xor, found_or};
ghost use Rattle.basics.specs.Below.{listed};
ghost use Rattle.basics.specs.declared.refusal.Reason.{Reason};
ghost use Rattle.trees.specs.Machine.{env_of};
ghost use Rattle.trees.specs.Layout.{Elements, elements_of, class_of, nodes_at};
ghost use Rattle.reach.specs.Uses.{uses};
ghost use Rattle.reach.specs.Reach.{via};
ghost use Rattle.reach.specs.Table.{Matrix};
ghost use Rattle.circuit.specs.StageFive.{stage_five};
ghost use Rattle.circuit.specs.StageFive.Verdict.{fine};
ghost use Rattle.meaning.specs.Meaning.{known, meaning};
ghost use Rattle.meaning.specs.Circuit.{out_at};
ghost use Rattle.meaning.specs.Settle.{Ordered, rank_in};
ghost use Rattle.tables.specs.Tables.{flip_at, set_bits, setting_at, outcome, tabled, table_in};
ghost use Rattle.tables.specs.Memory.{InOrder, Pins};
ghost use Rattle.tables.specs.Answered.{seen};
ghost use Rattle.tables.specs.Ready.{Ready, entry_at};

use basics::refusal::{Reason, Refusal};
use pins::Chosen;
use trees::Class;

// How many settings n variables have.
pub fn power(n: usize) -> usize
    requires { n < 11 }
    ensures { result ≡ 2 ^ n }
{
    1 << n
}

// Element i is an OUT at pin p.
#[tactic(auto, using(trees::proofs::Classes::numbers))]
fn is_out_at(parts: &[u32], p: usize, i: usize) -> bool
    requires { i < 64 }
    ensures { result ≡ eqb (class_of parts.now i) 2 && eqb (get_or parts.now (2432 + i) 0) p }
{
    matches!(reach::class_of(parts, i), Some(Class::Out))
        && trees::at(parts, trees::PIN_AT + i) == p
}

// The OUT at pin p.
pub fn out_at(parts: &[u32], p: usize) -> Option<usize>
    ensures found { found_or 64 result ≡ out_at (elements_of parts.now) p }
    ensures inside { IfSome result (λ i. i < 64) }
{
    circuit::find(|i| is_out_at(parts, p, i))
}

// Whether the variable of pin p is the complement of the pin's value.
#[tactic(auto, unfolding(crate::specs::Tables::flip_at))]
fn is_flipped(parts: &[u32], rows: bool, p: usize) -> bool
    requires { p < 24 }
    ensures { result ≡ flip_at (elements_of parts.now) rows p }
{
    if !rows {
        return false;
    }
    match out_at(parts, p) {
        Some(o) => !reach::registered(parts, o) || reach::inverse(parts, o),
        None => true,
    }
}

fn flips(parts: &[u32], rows: bool) -> [u8; 24]
    ensures { result ≡ listed (λ p. bit (flip_at (elements_of parts.now) rows p)) 24 }
{
    circuit::bits(|p| is_flipped(parts, rows, p))
}

// The pins where the variables are the bits of k.
fn pins_of(flips: [u8; 24], vars: &[u8], k: usize) -> [u8; 24]
    requires { Pins vars.now }
    ensures { env_of result ≡ set_bits (env_of flips) (env_of flips) vars.now k }
{
    let mut pins = flips;
    let mut left = k;
    for &var in vars {
        let x = var as usize;
        pins[x] = basics::byte_of(trees::named(&flips, x) != (left % 2 == 1));
        left /= 2;
    }
    pins
}

// The value of an element that remains.
fn is_known(parts: &[u32], pins: &[u8], i: usize) -> bool
    requires { i < 64 }
    ensures { result ≡ known (elements_of parts.now) (env_of pins.now) i }
{
    reach::is_remaining(parts, i) && trees::named(pins, trees::at(parts, trees::PIN_AT + i))
}

fn known_values(parts: &[u32], pins: &[u8]) -> [u8; 64]
    ensures { result ≡ listed (λ i. bit (known (elements_of parts.now) (env_of pins.now) i)) 64 }
{
    circuit::bits(|i| is_known(parts, pins, i))
}

// The values of all elements.
fn all_values(parts: &[u32], order: &[u8], pins: &[u8]) -> [u8; 64]
    requires parts_value { stage_five (elements_of parts.now) ≡ fine }
    requires in_order { InOrder (elements_of parts.now) order.now }
    ensures { env_of result ≡ meaning (elements_of parts.now) (env_of pins.now) }
{
    let mut vals = known_values(parts, pins);
    meaning::settle(&mut vals, parts, order);
    vals
}

// The value of the function of o.
fn result(parts: &[u32], rows: bool, o: usize, pins: &[u8; 24], vals: &[u8; 64]) -> bool
    requires o_bound { o < 64 }
    requires vals_value { env_of vals.now ≡ meaning (elements_of parts.now) (env_of pins.now) }
    ensures { result ≡ outcome (elements_of parts.now) rows o (env_of pins.now) }
{
    let inverted = reach::inverse(parts, o);
    let shown = trees::named(pins, trees::at(parts, trees::PIN_AT + o));
    let v = meaning::value_in(parts, o, vals, inverted != shown);
    if rows { inverted != v } else { v }
}

// The function of OUT o over the pins vars, for rows or for the question; its elements get their values in order, and flips says which variables
// are complements.
#[derive(Clone, Copy)]
struct Function<'a> {
    parts: &'a [u32],
    order: &'a [u8],
    flips: [u8; 24],
    vars: &'a [u8],
    rows: bool,
    o: usize,
}

impl Function<'_> {
    // Entry k of its table.
    fn entry(&self, k: usize) -> bool
        requires { Ready self.now }
        ensures { result ≡ entry_at self.now k }
    {
        let pins = pins_of(self.flips, self.vars, k);
        let vals = all_values(self.parts, self.order, &pins);
        result(self.parts, self.rows, self.o, &pins, &vals)
    }

    // Its table over so many settings.
    fn fill(&self, t: &mut [u8], size: usize)
        requires ready { Ready self.now }
        requires size_in_bounds { size ≤ length t.old }
        ensures { t.new ≡ listed (λ k. bit (entry_at self.now k)) size ++ drop size t.old }
    {
        for k in 0..size {
            t[k] = basics::byte_of(self.entry(k));
        }
    }
}

// The order of the elements, and then the table.
fn tabulate(t: &mut [u8], size: usize, parts: &[u32], m: &[u8], vars: &[u8], rows: bool, o: usize)
    requires parts_value { stage_five (elements_of parts.now) ≡ fine }
    requires matrix { Matrix m.now (via (uses (elements_of parts.now)) 64) }
    requires pins { Pins vars.now }
    requires o_bound { o < 64 }
    requires size_in_bounds { size ≤ length t.old }
    ensures { t.new ≡ listed (λ k. bit (outcome (elements_of parts.now) rows o (setting_at (elements_of parts.now) rows vars.now k))) size ++ drop size t.old }
{
    let ranks = meaning::ranks(m);
    let mut order = [0u8; 4160];
    let n = meaning::order(parts, &ranks, &mut order);
    let function = Function {
        parts,
        order: &order[..n],
        flips: flips(parts, rows),
        vars,
        rows,
        o,
    };
    function.fill(t, size);
}

// The truth table of OUT o, for rows or for the question: its variables, or a refusal where its equation names too many pins.
fn table(parts: &[u32], rows: bool, o: usize, t: &mut [u8]) -> Result<Chosen, Refusal>
    requires parts_value { stage_five (elements_of parts.now) ≡ fine }
    requires o_bound { o < 64 }
    requires in_bounds { 1024 ≤ length t.old }
    ensures said { seen result ≡ tabled (elements_of parts.now) rows o }
    ensures reason { IfErr result (λ r. r.reason ≡ Reason.Pins) }
    ensures filled { t.new ≡ table_in (elements_of parts.now) rows o t.old }
{
    let mut m = [0u8; 4096];
    reach::reach(&mut m, parts);
    let chosen = pins::variables(parts, &m, rows, o);
    if chosen.count > 10 {
        return Err(Refusal::new(Reason::Pins, trees::at(parts, trees::PLACE_AT + o)));
    }
    tabulate(t, power(chosen.count), parts, &m, chosen.pins(), rows, o);
    Ok(chosen)
}

// The truth table of OUT o over the complements of the columns' signals, last column pair first.
// Kept: this and the next differ in one truth value, which their names say and a call of one function would not.
pub fn rows_table(parts: &[u32], o: usize, t: &mut [u8]) -> Result<Chosen, Refusal>
    requires parts_value { stage_five (elements_of parts.now) ≡ fine }
    requires o_bound { o < 64 }
    requires in_bounds { 1024 ≤ length t.old }
    ensures said { seen result ≡ tabled (elements_of parts.now) true o }
    ensures reason { IfErr result (λ r. r.reason ≡ Reason.Pins) }
    ensures filled { t.new ≡ table_in (elements_of parts.now) true o t.old }
{
    table(parts, true, o, t)
}

// The truth table of OUT o over its pins, rising: for the product question.
pub fn question_table(parts: &[u32], o: usize, t: &mut [u8]) -> Result<Chosen, Refusal>
    requires parts_value { stage_five (elements_of parts.now) ≡ fine }
    requires o_bound { o < 64 }
    requires in_bounds { 1024 ≤ length t.old }
    ensures said { seen result ≡ tabled (elements_of parts.now) false o }
    ensures reason { IfErr result (λ r. r.reason ≡ Reason.Pins) }
    ensures filled { t.new ≡ table_in (elements_of parts.now) false o t.old }
{
    table(parts, false, o, t)
}
