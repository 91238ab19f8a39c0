// One cell's products and its S0, from the truth table of its function.
#![tactic(auto)]

ghost use Rattle.std.specs.Prelude.{◌≡◌, true, not, ℕ, ◌^◌, ◌<◌, ◌≤◌, eqb, length, replicate};
ghost use Rattle.basics.specs.Choice.{bit, pick};
ghost use Rattle.basics.specs.Below.{listed};
ghost use Rattle.sums.specs.Named.{count};
ghost use Rattle.engine.specs.Table.{holds, function};
ghost use Rattle.cover.specs.Sum.{bits_of, seen as found};
ghost use Rattle.fit.specs.Fit.{seen, sum_within, inverted, fitted};

use cover::Products;

// A cell's S0 and its first n products.
#[derive(Clone, Copy, Debug, PartialEq, Eq)]
pub struct Fitted {
    pub s0: bool,
    pub n: usize,
    pub masks: [u64; 16],
}

// The opposite of a table's byte.
fn other(x: u8) -> u8
    ensures { result ≡ bit (not (eqb x 1)) }
{
    basics::byte_of(x != 1)
}

// The table of the function that is true where f is not.
#[tactic(auto, using(basics::proofs::Folds::listing_end))]
fn turn(f: &[u8], g: &mut [u8])
    requires { length g.old ≡ length f.now }
    ensures { g.new ≡ listed (λ i. bit (not (holds f.now i))) (length f.now) }
{
    for i in 0..f.len() {
        g[i] = other(f[i]);
    }
}

// A complete sum in cell k, with this S0, if it is within the cell's products.
fn within(k: usize, sum: Option<Products>, s0: bool) -> Option<Fitted>
    requires { k < 10 }
    ensures { seen result ≡ sum_within k s0 (found sum) }
{
    let Products { n, masks } = sum?;
    if n <= device::products(k) as usize {
        Some(Fitted { s0, n, masks })
    } else {
        None
    }
}

// The S0 that goes with the primes of the function itself.
fn own_s0(registered: bool, s0: bool) -> bool
    ensures { result ≡ pick registered s0 true }
{
    !registered || s0
}

// Cell k with S0 = 0 and the primes of not f, if they fit; g is for the table of not f.
fn fit_turned(
    k: usize,
    f: &[u8],
    g: &mut [u8],
    room: &mut [u8],
    n: usize,
    named: u32,
) -> Option<Fitted>
    requires k_bound { k < 10 }
    requires n_bound { n < 11 }
    requires f_len { length f.now ≡ 2 ^ n }
    requires g_len { length g.old ≡ length f.now }
    requires in_bounds { 59049 ≤ length room.old }
    requires named_value { count (bits_of 22 named) ≡ n }
    ensures value { seen result ≡ inverted k named (function f.now) }
    ensures room_after { room.new ≡ replicate (length room.old) 0 }
{
    turn(f, g);
    within(k, cover::cover(g, room, n, named), false)
}

fn fit_inverted(k: usize, f: &[u8], room: &mut [u8], n: usize, named: u32) -> Option<Fitted>
    requires k_bound { k < 10 }
    requires n_bound { n < 11 }
    requires f_len { length f.now ≡ 2 ^ n }
    requires in_bounds { 59049 ≤ length room.old }
    requires named_value { count (bits_of 22 named) ≡ n }
    ensures value { seen result ≡ inverted k named (function f.now) }
    ensures room_after { room.new ≡ replicate (length room.old) 0 }
{
    let mut g = [0u8; 1024];
    let size = f.len();
    fit_turned(k, f, &mut g[..size], room, n, named)
}

// Cell k's products and S0 for the truth table f of the n variables that named has a bit for; s0 is what a register's text asks.
pub fn fit_cell(
    k: usize,
    registered: bool,
    s0: bool,
    f: &[u8],
    room: &mut [u8],
    n: usize,
    named: u32,
) -> Option<Fitted>
    requires k_bound { k < 10 }
    requires n_bound { n < 11 }
    requires f_len { length f.now ≡ 2 ^ n }
    requires in_bounds { 59049 ≤ length room.old }
    requires named_value { count (bits_of 22 named) ≡ n }
    ensures value { seen result ≡ fitted k registered s0 named (function f.now) }
    ensures room_after { room.new ≡ replicate (length room.old) 0 }
{
    let own = within(k, cover::cover(f, room, n, named), own_s0(registered, s0));
    if own.is_some() || registered {
        return own;
    }
    fit_inverted(k, f, room, n, named)
}
