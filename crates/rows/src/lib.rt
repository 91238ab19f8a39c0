// Rows of fuses: open, dead, of a product, of a cell's feedback.
#![tactic(auto)]

ghost use Rattle.std.specs.Prelude.{◌≡◌, ◌+◌, ◌*◌, ◌%◌, ◌<◌, replicate};
ghost use Rattle.basics.specs.Choice.{bit, on};
ghost use Rattle.rows.specs.Row.{plain_fuse, inverse_fuse, product_row, feedback, feedback_fuse, feedback_row};

use std::array;

// A product of the twenty-two variables: bit i tells whether variable i is picked, bit 32 + i whether it is picked plain.
pub type Product = u64;

// A row of 44 fuses, in the order of the columns.
#[derive(Clone, Copy)]
pub struct Row {
    pub fuses: [u8; 44],
}

impl Row {
    pub const OPEN: Row = Row { fuses: [1u8; 44] };

    pub const DEAD: Row = Row { fuses: [0u8; 44] };

    // The row that is always true.
    pub fn open() -> Self
        ensures { result.fuses ≡ replicate 44 1 }
    {
        Row::OPEN
    }

    // The row that joins everything.
    pub fn dead() -> Self
        ensures { result.fuses ≡ replicate 44 0 }
    {
        Row::DEAD
    }

    // The row of a product.
    #[tactic(auto, using(crate::proofs::Filling::end), unfolding(crate::specs::Row::product_row))]
    pub fn of_product(product: Product) -> Self
        ensures { result.fuses ≡ product_row product }
    {
        let mut fuses = [1u8; 44];
        let mut a = product % 4294967296;
        let mut b = product / 4294967296;
        for i in 0..22 {
            let pair = 21 - i;
            fuses[pair * 2] = plain_fuse(a, b);
            fuses[pair * 2 + 1] = inverse_fuse(a, b);
            a /= 2;
            b /= 2;
        }
        Row { fuses }
    }

    // The row of one factor: the pin of cell k shows v.
    pub fn of_feedback(k: usize, registered: bool, s0: bool, v: bool) -> Self
        requires { k < 10 }
        ensures { result.fuses ≡ feedback_row k registered s0 v }
    {
        let x = feedback_of(registered, s0, v);
        Row {
            fuses: array::from_fn(|c| feedback_fuse(k, x, c)),
        }
    }
}

// The plain fuse of a variable whose bits are the lowest of a and b.
fn plain_fuse(a: u64, b: u64) -> u8
    ensures { result ≡ plain_fuse (on (a % 2)) (on (b % 2)) }
{
    if a % 2 == 1 && b % 2 != 1 { 0 } else { 1 }
}

fn inverse_fuse(a: u64, b: u64) -> u8
    ensures { result ≡ inverse_fuse (on (a % 2)) (on (b % 2)) }
{
    if a % 2 == 1 && b % 2 == 1 { 0 } else { 1 }
}

// The signal that a cell feeds back where its pin shows v.
fn feedback_of(registered: bool, s0: bool, v: bool) -> bool
    ensures { result ≡ feedback registered s0 v }
{
    if registered && s0 { !v } else { v }
}

// The fuse at column c.
#[tactic(auto, unfolding(crate::specs::Row::feedback_fuse))]
fn feedback_fuse(k: usize, x: bool, c: usize) -> u8
    requires { k < 10 }
    ensures { result ≡ feedback_fuse k x c }
{
    if c == 4 * k + 2 {
        basics::byte_of(!x)
    } else if c == 4 * k + 3 {
        basics::byte_of(x)
    } else {
        1
    }
}
