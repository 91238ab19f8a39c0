// From ten fitted cells to the whole map, and what a fit line counts of a cell.
#![tactic(auto)]

ghost use Rattle.std.specs.Prelude.{◌≡◌, ◌+◌, ◌<◌, ◌≤◌, leb, ltb, length, get_or, take};
ghost use Rattle.basics.specs.Choice.{bit, pick};
ghost use Rattle.cells.specs.Map.{used, clocked, cell_at, row_at, row_fuse, s0_fuse, s1_fuse, switch_fuse, map_of, Begun, Written};
ghost use Rattle.cells.specs.Kind.{kind_of, kinds_of, numbers};
ghost use Rattle.cells.specs.Counts.{picks};

use rows::{Product, Row};
use std::array;

// What a cell is used for.
#[derive(Clone, Copy, Debug, PartialEq, Eq)]
pub enum Kind {
    Unused = 0,
    Combinational = 1,
    Registered = 2,
}

// Ten fitted cells, that of pin 23 first: the masks of each cell's products in their order, how many they are, the cell's kind and its S0.
// Kept: four arrays by cell, and no array of cells: `map_of` of specs/Map, `Fits` and the theorem `behaves` of behave speak of these lists.
#[derive(Clone, Copy)]
pub struct Cells {
    pub masks: [[Product; 16]; 10],
    pub counts: [u8; 10],
    pub kinds: [Kind; 10],
    pub s0s: [u8; 10],
}

// A cell's kind by its number: 0 is unused, 2 registered, and any other number combinational.
impl From<u8> for Kind {
    ghost from_gives = { λ n k. k ≡ kind_of n };

    #[tactic(auto, using(std::proofs::lemmas::Grind::common_steps), unfolding(crate::specs::Kind::kind_of))]
    fn from(number: u8) -> Kind {
        match number {
            0 => Kind::Unused,
            2 => Kind::Registered,
            _ => Kind::Combinational,
        }
    }
}

impl Cells {
    // Writes the whole map.
    pub fn write_map(self, map: &mut [u8])
        requires { length map.old ≡ 5892 }
        ensures { map.new ≡ map_of self.masks self.counts (numbers self.kinds) self.s0s }
    {
        self.write_rows(map);
        for i in 5808..5892 {
            map[i] = self.last_fuse(i - 5808);
        }
    }

    // Writes all rows.
    fn write_rows(self, map: &mut [u8])
        requires { length map.old ≡ 5892 }
        ensures { Begun (row_fuse self.masks self.counts (numbers self.kinds)) map.new 5808 }
    {
        for r in 0..132 {
            write_row(map, r, &self.row_at(r));
        }
    }

    // Row r of the map.
    #[tactic(auto, using(crate::proofs::Writing::few_cells, crate::proofs::Writing::row_begins, crate::proofs::Writing::row_near), unfolding(crate::specs::Map::row_at, crate::specs::Map::cell_row))]
    fn row_at(self, r: usize) -> Row
        requires { r < 132 }
        ensures { result.fuses ≡ row_at self.masks self.counts (numbers self.kinds) r }
    {
        if r == 0 || r == 131 {
            return Row::dead();
        }
        let k = cell_at(r);
        let a = r - device::enable(k) as usize;
        if self.kinds[k] == Kind::Unused {
            Row::dead()
        } else if a == 0 {
            Row::open()
        } else if a <= self.counts[k] as usize {
            Row::of_product(self.masks[k][a - 1])
        } else {
            Row::dead()
        }
    }

    // The fuse that stands j behind the rows.
    fn last_fuse(&self, j: usize) -> u8
        ensures { result ≡ pick (ltb j 20) (switch_fuse (numbers self.now.kinds) self.now.s0s j) 0 }
    {
        if 20 <= j {
            0
        } else if j % 2 == 0 {
            self.s0_fuse(j / 2)
        } else {
            self.s1_fuse(j / 2)
        }
    }

    // S0 of cell k.
    fn s0_fuse(&self, k: usize) -> u8
        requires { k < 10 }
        ensures { result ≡ s0_fuse (numbers self.now.kinds) self.now.s0s k }
    {
        if self.kinds[k] == Kind::Unused || self.s0s[k] == 1 {
            1
        } else {
            0
        }
    }

    // S1 of cell k.
    fn s1_fuse(&self, k: usize) -> u8
        requires { k < 10 }
        ensures { result ≡ s1_fuse (numbers self.now.kinds) k }
    {
        if self.kinds[k] == Kind::Registered {
            0
        } else {
            1
        }
    }
}

// Ten kinds by their numbers.
fn kinds_of(numbers: [u8; 10]) -> [Kind; 10]
    ensures { result ≡ kinds_of numbers }
{
    array::from_fn(|k| Kind::from(numbers[k]))
}

// Writes the whole map of ten cells, given as four lists, their kinds by number.
#[tactic(auto, using(std::proofs::lemmas::Grind::common_steps, crate::proofs::Numbers::map_by_kinds))]
pub fn write_map(
    all: [[Product; 16]; 10],
    counts: [u8; 10],
    kinds: [u8; 10],
    s0s: [u8; 10],
    map: &mut [u8],
)
    requires { length map.old ≡ 5892 }
    ensures { map.new ≡ map_of all counts kinds s0s }
{
    let cells = Cells {
        masks: all,
        counts,
        kinds: kinds_of(kinds),
        s0s,
    };
    cells.write_map(map);
}

// The cell that row r belongs to.
fn cell_at(r: usize) -> usize
    ensures { result ≡ cell_at r }
{
    (1..10).filter(|&k| device::enable(k) as usize <= r).count()
}

// Writes row r.
fn write_row(map: &mut [u8], r: usize, row: &Row)
    requires r_bound { r < 132 }
    requires map_len { length map.old ≡ 5892 }
    ensures { Written map.old map.new r row.now.fuses }
{
    map[r * 44..r * 44 + 44].copy_from_slice(&row.fuses);
}

// The factors of the first n products together.
#[tactic(auto, using(crate::proofs::Summing::step))]
pub fn factors(masks: [Product; 16], n: usize) -> u32
    requires { n ≤ 16 }
    ensures { result ≡ picks (take n masks) }
{
    let mut sum = 0;
    for mask in &masks[..n] {
        sum += ((mask % 4294967296) as u32).count_ones();
    }
    sum
}
