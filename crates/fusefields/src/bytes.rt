// Kinds of bytes, and the loops over them.
ghost use Rattle.std.specs.Prelude.{◌≡◌, ℕ, ◌+◌, ◌-◌, ◌≤◌, ◌<◌, min, length};
ghost use Rattle.fusefields.specs.Bytes.{blank, digit, fuse, fuse_or_blank, hexit, not_star, not_end, CountsFront, value, hex_of, hex4_of, fuses};
ghost use Rattle.fusetext.specs.Put.{Wrote};

#[tactic(auto, unfolding(crate::specs::Bytes::blank))]
pub fn is_blank(b: u8) -> bool
    ensures { result ≡ blank b }
{
    matches!(b, b' ' | b'\t' | b'\r' | b'\n')
}

#[tactic(auto, unfolding(crate::specs::Bytes::digit))]
pub fn is_digit(b: u8) -> bool
    ensures { result ≡ digit b }
{
    matches!(b, b'0'..=b'9')
}

#[tactic(auto, unfolding(crate::specs::Bytes::fuse))]
pub fn is_fuse(b: u8) -> bool
    ensures { result ≡ fuse b }
{
    matches!(b, b'0' | b'1')
}

#[tactic(auto, unfolding(crate::specs::Bytes::fuse_or_blank))]
pub fn is_fuse_or_blank(b: u8) -> bool
    ensures { result ≡ fuse_or_blank b }
{
    is_fuse(b) || is_blank(b)
}

#[tactic(auto, unfolding(crate::specs::Bytes::hexit, crate::specs::Bytes::digit))]
pub fn is_hexit(b: u8) -> bool
    ensures { result ≡ hexit b }
{
    matches!(b, b'0'..=b'9' | b'A'..=b'F' | b'a'..=b'f')
}

// Whether b is no `*`, and whether it is no byte 3.
#[tactic(auto, unfolding(crate::specs::Bytes::not_star))]
pub fn is_not_star(b: u8) -> bool
    ensures { result ≡ not_star b }
{
    b != b'*'
}

#[tactic(auto, unfolding(crate::specs::Bytes::not_end))]
pub fn is_not_end(b: u8) -> bool
    ensures { result ≡ not_end b }
{
    b != 3
}

// How many bytes at the front of s pass the test.
pub fn run<F: Fn(u8) -> bool>(s: &[u8], test: F) -> usize
    requires { F.IsAlwaysCallable test }
    ensures count { CountsFront (F.post test) s.now result }
    ensures upper_bound { result ≤ length s.now }
{
    for j in 0..s.len() {
        if !test(s[j]) {
            return j;
        }
    }
    s.len()
}

// The value of decimal digits, or most where it is more.
pub fn value_of(s: &[u8], most: usize) -> usize
    requires { most ≤ 1000000000000000000 }
    ensures { (result ≡ min most (value 0 s.now)) × (result ≤ most) }
{
    let mut n = 0;
    for &b in s {
        n = (10 * n + b.saturating_sub(b'0') as usize).min(most);
    }
    n
}

// The value of a hex digit.
#[tactic(auto, unfolding(crate::specs::Bytes::hex_of))]
fn hex_of(b: u8) -> u32
    ensures { (result ≡ hex_of b) × (result ≤ 255) }
{
    let nought = match b {
        ..=b'9' => b'0',
        ..=b'F' => b'A' - 10,
        _ => b'a' - 10,
    };
    b.saturating_sub(nought) as u32
}

// The value of four hex digits.
#[tactic(auto, unfolding(crate::specs::Bytes::hex4_of))]
pub fn hex4_of(xs: &[u8]) -> u32
    requires { 4 ≤ length xs.now }
    ensures { result ≡ hex4_of xs.now }
{
    4096 * hex_of(xs[0]) + 256 * hex_of(xs[1]) + 16 * hex_of(xs[2]) + hex_of(xs[3])
}

// How many fuses are among the bytes.
pub fn count_fuses(s: &[u8]) -> usize
    ensures { (result ≡ length (fuses s.now)) × (result ≤ length s.now) }
{
    let mut n: usize = 0;
    for &b in s {
        if is_fuse(b) {
            n += 1;
        }
    }
    n
}

// The fuses among the bytes, into cells from at on.
pub fn put_fuses(s: &[u8], cells: &mut [u8], at: usize) -> usize
    requires { at + length (fuses s.now) ≤ length cells.old }
    ensures { Wrote cells.old at (fuses s.now) cells.new result }
{
    let mut o = at;
    for &b in s {
        if is_fuse(b) {
            cells[o] = b - b'0';
            o += 1;
        }
    }
    o
}
