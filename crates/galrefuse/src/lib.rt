// What the model refuses: no map (31), a map outside the model (30), values that are not the caller's to give (32).
#![tactic(auto)]

ghost use Rattle.std.specs.Prelude.{◌≡◌, ◌&&◌, ◌||◌, ◌<◌, ltb, length, get_or};
ghost use Rattle.basics.specs.Choice.{on};
ghost use Rattle.basics.specs.Below.{any_below};
ghost use Rattle.rows.specs.Row.{joins};
ghost use Rattle.gal.specs.Refuse.{no_map, forbidden, forbidden_pairs, reads, strays, strays_cell, cell_faulty, bad_enable, outside, callers, wrong, wrong_pins, wrong_bits, no_values};

use std::array;

// The pair is bad, and a fuse of it joins.
fn pair_reads(bad: u8, a: u8, b: u8) -> bool
    ensures { result ≡ (on bad && (joins a || joins b)) }
{
    bad == 1 && (a == 0 || b == 0)
}

// Row r reads one of the bad pairs.
fn row_reads(map: &[u8], r: usize, bad: &[u8; 22]) -> bool
    requires map_len { length map.now ≡ 5892 }
    requires r_bound { r < 132 }
    ensures { result ≡ reads map.now r bad.now }
{
    (0..22).any(|i| pair_reads(bad[i], map[r * 44 + i * 2], map[r * 44 + (i * 2 + 1)]))
}

// Row r is live and reads a bad pair.
#[tactic(auto, unfolding(gal::specs::Refuse::strays))]
fn row_strays(map: &[u8], r: usize, bad: &[u8; 22]) -> bool
    requires map_len { length map.now ≡ 5892 }
    requires r_bound { r < 132 }
    ensures { result ≡ strays map.now r bad.now }
{
    !gal::row_dead(map, r) && row_reads(map, r, bad)
}

// A live product of cell k reads one of the bad pairs.
fn cell_strays(map: &[u8], k: usize, bad: &[u8; 22]) -> bool
    requires map_len { length map.now ≡ 5892 }
    requires k_bound { k < 10 }
    ensures { result ≡ strays_cell map.now k bad.now }
{
    let first = device::enable(k) as usize + 1;
    let n = device::products(k) as usize;
    (0..n).any(|i| row_strays(map, first + i, bad))
}

// Pin 1, or an enabled combinational pin.
#[tactic(auto, unfolding(gal::specs::Refuse::forbidden))]
fn forbidden_pin(map: &[u8], x: usize) -> bool
    requires { length map.now ≡ 5892 }
    ensures { result ≡ forbidden map.now x }
{
    x == 1 || 13 < x && x < 24 && gal::is_enabled(map, 23 - x) && !gal::is_registered(map, 23 - x)
}

// The column pairs that no live product may read.
fn forbidden_pairs(map: &[u8]) -> [u8; 22]
    requires { length map.now ≡ 5892 }
    ensures { result ≡ forbidden_pairs map.now }
{
    array::from_fn(|p| basics::byte_of(forbidden_pin(map, device::column(p) as usize)))
}

// Cell k is enabled or registered, and a live product of it reads a bad pair.
#[tactic(auto, unfolding(gal::specs::Refuse::cell_faulty))]
fn cell_faulty(map: &[u8], k: usize, bad: &[u8; 22]) -> bool
    requires map_len { length map.now ≡ 5892 }
    requires k_bound { k < 10 }
    ensures { result ≡ cell_faulty map.now k bad.now }
{
    (gal::is_enabled(map, k) || gal::is_registered(map, k)) && cell_strays(map, k, bad)
}

// Some cell is at fault.
fn any_faulty(map: &[u8], bad: &[u8; 22]) -> bool
    requires { length map.now ≡ 5892 }
    ensures { result ≡ any_below (λ k. cell_faulty map.now k bad.now) 10 }
{
    (0..10).any(|k| cell_faulty(map, k, bad))
}

// The enable row of cell k is neither all 0 nor all 1.
#[tactic(auto, using(device::proofs::Rule::rows_fit), unfolding(gal::specs::Refuse::bad_enable))]
fn bad_enable(map: &[u8], k: usize) -> bool
    requires map_len { length map.now ≡ 5892 }
    requires k_bound { k < 10 }
    ensures { result ≡ bad_enable map.now k }
{
    let r = device::enable(k) as usize;
    !gal::row_is(map, r, 0) && !gal::row_is(map, r, 1)
}

// Some enable row is neither all 0 nor all 1.
fn any_bad_enable(map: &[u8]) -> bool
    requires { length map.now ≡ 5892 }
    ensures { result ≡ any_below (bad_enable map.now) 10 }
{
    (0..10).any(|k| bad_enable(map, k))
}

// The map is outside the model: 30.
#[tactic(auto, unfolding(gal::specs::Refuse::outside))]
pub fn is_outside(map: &[u8]) -> bool
    requires { length map.now ≡ 5892 }
    ensures { result ≡ outside map.now }
{
    !gal::row_is(map, 0, 0)
        || !gal::row_is(map, 131, 0)
        || any_bad_enable(map)
        || any_faulty(map, &forbidden_pairs(map))
}

// Some byte of the map is above 1.
fn big_byte(map: &[u8]) -> bool
    requires { length map.now ≡ 5892 }
    ensures { result ≡ any_below (λ i. ltb 1 (get_or map.now i 0)) 5892 }
{
    map.iter().any(|&fuse| 1 < fuse)
}

// Not 5,892 bytes of 0 and 1: 31.
#[tactic(auto, unfolding(gal::specs::Refuse::no_map))]
pub fn no_map(map: &[u8]) -> bool
    ensures { result ≡ no_map map.now }
{
    map.len() != 5892 || big_byte(map)
}

// Pins 2 to 11.
fn low_pin(x: usize) -> bool
    ensures { result ≡ (ltb 1 x && ltb x 12) }
{
    1 < x && x < 12
}

// Pin x is the caller's.
#[tactic(auto, unfolding(gal::specs::Refuse::callers))]
fn caller_pin(map: &[u8], x: usize) -> bool
    requires { length map.now ≡ 5892 }
    ensures { result ≡ callers map.now x }
{
    low_pin(x)
        || x == 13
        || 13 < x && x < 24 && !gal::is_enabled(map, 23 - x) && !gal::is_registered(map, 23 - x)
}

// The value v may not be given, to a pin or bit of the caller's own or not.
fn wrong_value(own: bool, v: u8) -> bool
    ensures { result ≡ wrong own v }
{
    1 < v || v == 1 && !own
}

// Some pin value may not be given.
fn wrong_pins(map: &[u8], pins: &[u8; 24]) -> bool
    requires { length map.now ≡ 5892 }
    ensures { result ≡ wrong_pins map.now pins.now }
{
    (0..24).any(|i| wrong_value(caller_pin(map, i + 1), pins[i]))
}

// Some register bit may not be given.
fn wrong_bits(map: &[u8], bits: &[u8; 10]) -> bool
    requires { length map.now ≡ 5892 }
    ensures { result ≡ wrong_bits map.now bits.now }
{
    (0..10).any(|i| wrong_value(gal::is_registered(map, 9 - i), bits[i]))
}

// Some value may not be given: 32.
#[tactic(auto, unfolding(gal::specs::Refuse::no_values))]
pub fn no_values(map: &[u8], bits: &[u8; 10], pins: &[u8; 24]) -> bool
    requires { length map.now ≡ 5892 }
    ensures { result ≡ no_values map.now bits.now pins.now }
{
    wrong_pins(map, pins) || wrong_bits(map, bits)
}
