// The device: rows and cells of a map.
#![tactic(auto)]

ghost use Rattle.std.specs.Prelude.{◌≡◌, ◌&&◌, ◌<◌, length};
ghost use Rattle.rows.specs.Row.{joins, pair_true};
ghost use Rattle.gal.specs.Map.{row_is, plain_out, registered, enabled, row_true, total};
ghost use Rattle.gal.specs.Refuse.{dead};

// The pins shown, their values, and the registers after the clock: pins 1 to 24, registers of pins 14 to 23.
#[derive(Clone, Copy, PartialEq, Eq)]
pub struct Answer {
    pub shown: [u8; 24],
    pub values: [u8; 24],
    pub next: [u8; 10],
}

// Every fuse of row r is v.
// Kept: that a map has 5,892 fuses is a `requires` here and below, and no type: maps are slices that callers lend, and a narrower type would ask more of them.
pub fn row_is(map: &[u8], r: usize, v: u8) -> bool
    requires map_len { length map.now ≡ 5892 }
    requires r_bound { r < 132 }
    ensures { result ≡ row_is map.now r v }
{
    map[r * 44..r * 44 + 44].iter().all(|&fuse| fuse == v)
}

// The fuses a and b of a pair join both columns.
fn pair_dead(a: u8, b: u8) -> bool
    ensures { result ≡ (joins a && joins b) }
{
    a == 0 && b == 0
}

// The fuses a and b of a pair ask for nothing but what the signal s has.
fn pair_true(a: u8, b: u8, s: u8) -> bool
    ensures { result ≡ pair_true a b s }
{
    if s == 1 { b != 0 } else { a != 0 }
}

// Row r joins both columns of a pair.
pub fn row_dead(map: &[u8], r: usize) -> bool
    requires map_len { length map.now ≡ 5892 }
    requires r_bound { r < 132 }
    ensures { result ≡ dead map.now r }
{
    (0..22).any(|i| pair_dead(map[r * 44 + i * 2], map[r * 44 + (i * 2 + 1)]))
}

// Row r is true where the column pairs have the signals sig.
pub fn row_true(map: &[u8], r: usize, sig: &[u8; 22]) -> bool
    requires map_len { length map.now ≡ 5892 }
    requires r_bound { r < 132 }
    ensures { result ≡ row_true map.now r sig.now }
{
    (0..22).all(|i| pair_true(map[r * 44 + i * 2], map[r * 44 + (i * 2 + 1)], sig[i]))
}

// A product of cell k is true.
pub fn cell_total(map: &[u8], k: usize, sig: &[u8; 22]) -> bool
    requires map_len { length map.now ≡ 5892 }
    requires k_bound { k < 10 }
    ensures { result ≡ total map.now k sig.now }
{
    let first = device::enable(k) as usize + 1;
    let n = device::products(k) as usize;
    (0..n).any(|i| row_true(map, first + i, sig))
}

// The enable row of cell k is open.
#[tactic(auto, using(device::proofs::Rule::rows_fit), unfolding(crate::specs::Map::enabled))]
pub fn is_enabled(map: &[u8], k: usize) -> bool
    requires map_len { length map.now ≡ 5892 }
    requires k_bound { k < 10 }
    ensures { result ≡ enabled map.now k }
{
    row_is(map, device::enable(k) as usize, 1)
}

// S1 of cell k is 0.
pub fn is_registered(map: &[u8], k: usize) -> bool
    requires map_len { length map.now ≡ 5892 }
    requires k_bound { k < 10 }
    ensures { result ≡ registered map.now k }
{
    map[5809 + k * 2] != 1
}

// S0 of cell k is 1.
pub fn is_plain(map: &[u8], k: usize) -> bool
    requires map_len { length map.now ≡ 5892 }
    requires k_bound { k < 10 }
    ensures { result ≡ plain_out map.now k }
{
    map[5808 + k * 2] == 1
}
