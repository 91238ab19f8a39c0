// The values of all elements on a setting of the pins, each found once.
#![tactic(auto)]

ghost use Rattle.std.specs.Prelude.{◌≡◌, Bool, true, false, not, ◌&&◌, ◌||◌, List, ℕ, ◌+◌, ◌-◌, ◌*◌, ◌/◌, ◌%◌, ◌<◌, ◌≤◌, length, get_or, set, take};
ghost use Rattle.basics.specs.Choice.{pick, bit, on};
ghost use Rattle.basics.specs.Below.{tally, listed};
ghost use Rattle.trees.specs.Machine.{value_of, env_of};
ghost use Rattle.trees.specs.Layout.{Elements, elements_of, nodes_at};
ghost use Rattle.reach.specs.Uses.{replaced};
ghost use Rattle.reach.specs.Table.{cell};
ghost use Rattle.meaning.specs.Settle.{settled1, settle_all, rank_in, its_turn, Ordered};

// How many elements element i meets.
fn rank_of(m: &[u8], i: usize) -> u8
    requires m_len { length m.now ≡ 4096 }
    requires i_bound { i < 64 }
    ensures { result ≡ rank_in m.now i }
{
    let mut n: u8 = 0;
    for &b in &m[i * 64..i * 64 + 64] {
        n += basics::byte_of(b == 1);
    }
    n
}

// The rank of every element.
pub fn ranks(m: &[u8]) -> [u8; 64]
    requires { length m.now ≡ 4096 }
    ensures { result ≡ listed (rank_in m.now) 64 }
{
    let mut out = [0u8; 64];
    for i in 0..64 {
        out[i] = rank_of(m, i);
    }
    out
}

// The number at a place, 0 beyond the end.
pub fn byte_at(s: &[u8], k: usize) -> usize
    ensures { result ≡ get_or s.now k 0 }
{
    if k < s.len() { s[k] as usize } else { 0 }
}

// Element p % 64 is replaced and has rank p / 64.
fn is_turn(parts: &[u32], ranks: &[u8], p: usize) -> bool
    ensures { result ≡ its_turn (elements_of parts.now) ranks.now p }
{
    let i = p % 64;
    byte_at(ranks, i) == p / 64 && reach::is_replaced(parts, i)
}

// Element p % 64 stands behind the n before it if its turn has come.
fn order_one(parts: &[u32], ranks: &[u8], out: &mut [u8], n: usize, p: usize) -> usize
    requires n_in_bounds { n < length out.old }
    requires n_bound { n < 4160 }
    ensures { (result ≡ pick (its_turn (elements_of parts.now) ranks.now p) (n + 1) n) × (out.new ≡ pick (its_turn (elements_of parts.now) ranks.now p) (set out.old n (p % 64)) out.old) }
{
    if is_turn(parts, ranks, p) {
        out[n] = (p % 64) as u8;
        n + 1
    } else {
        n
    }
}

// The elements that are replaced, by rank.
pub fn order(parts: &[u32], ranks: &[u8], out: &mut [u8]) -> usize
    requires { length out.old ≡ 4160 }
    ensures { Ordered (elements_of parts.now) ranks.now out.new result }
{
    let mut n: usize = 0;
    for p in 0..4160 {
        n = order_one(parts, ranks, out, n, p);
    }
    n
}

// The value of the equation of element i.
pub fn value_in(parts: &[u32], i: usize, vals: &[u8], q: bool) -> bool
    requires { i < 64 }
    ensures { result ≡ value_of (env_of vals.now) q (nodes_at parts.now i) }
{
    trees::value_of(trees::nodes_of(parts, i), vals, q)
}

// Element i is given its value.
fn settle_one(vals: &mut [u8], parts: &[u32], i: usize)
    requires { length vals.old ≡ 64 }
    ensures { vals.new ≡ settled1 (elements_of parts.now) vals.old i }
{
    if i < 64 {
        let v = value_in(parts, i, vals, false);
        vals[i] = basics::byte_of(v);
    }
}

// The elements are given their values in order.
pub fn settle(vals: &mut [u8], parts: &[u32], order: &[u8])
    requires { length vals.old ≡ 64 }
    ensures { vals.new ≡ settle_all (elements_of parts.now) vals.old order.now }
{
    for &i in order {
        settle_one(vals, parts, i as usize);
    }
}
