// Functions that write one field at a place, each with one contract: Wrote.
ghost use Rattle.std.specs.Prelude.{◌≡◌, ℕ, ◌+◌, ◌≤◌, ◌<◌, length, get_or, eqb};
ghost use Rattle.basics.specs.Choice.{pick};
ghost use Rattle.fusetext.specs.Put.{Wrote, WroteEach};
ghost use Rattle.fusetext.specs.Digits.{dec4, hex_digit, hex4};
ghost use Rattle.fusetext.specs.File.{digits, listing, Bits};

// The bytes of src.
pub fn put_text(src: &[u8], out: &mut [u8], at: usize) -> usize
    requires { at + length src.now ≤ length out.old }
    ensures { Wrote out.old at src.now out.new result }
{
    let end = at + src.len();
    out[at..end].copy_from_slice(src);
    end
}

// The bytes of src, each as f turns it.
pub fn put_each<F: Fn(u8) -> u8>(src: &[u8], f: F, out: &mut [u8], at: usize) -> usize
    requires callable { F.IsAlwaysCallable f }
    requires in_bounds { at + length src.now ≤ length out.old }
    ensures { WroteEach (F.post f) out.old at src.now out.new result }
{
    let mut o = at;
    for &x in src {
        out[o] = f(x);
        o += 1;
    }
    o
}

// The digit of a fuse: 1 for a 1, 0 for any other byte.
pub fn digit_of(x: u8) -> u8
    ensures { result ≡ pick (eqb x 1) 49 48 }
{
    if x == 1 { b'1' } else { b'0' }
}

// The fuses of src as digits.
fn put_digits(src: &[u8], out: &mut [u8], at: usize) -> usize
    requires src_in_bounds { at + length src.now ≤ length out.old }
    requires bits { Bits src.now }
    ensures { Wrote out.old at (digits src.now) out.new result }
{
    put_each(src, digit_of, out, at)
}

// Four decimal digits.
fn put_dec4(n: usize, out: &mut [u8], at: usize) -> usize
    requires { at + 4 ≤ length out.old }
    ensures { Wrote out.old at (dec4 n) out.new result }
{
    let text = [
        b'0' + (n / 1000 % 10) as u8,
        b'0' + (n / 100 % 10) as u8,
        b'0' + (n / 10 % 10) as u8,
        b'0' + (n % 10) as u8,
    ];
    put_text(&text, out, at)
}

#[tactic(auto, unfolding(crate::specs::Digits::hex_digit))]
fn hex_digit(n: u8) -> u8
    requires { n < 16 }
    ensures { result ≡ hex_digit n }
{
    if n < 10 { b'0' + n } else { b'A' + (n - 10) }
}

// The low sixteen bits of n, as four digits of base sixteen.
pub fn put_hex4(n: u32, out: &mut [u8], at: usize) -> usize
    requires { at + 4 ≤ length out.old }
    ensures { Wrote out.old at (hex4 n) out.new result }
{
    let text = [
        hex_digit((n / 4096 % 16) as u8),
        hex_digit((n / 256 % 16) as u8),
        hex_digit((n / 16 % 16) as u8),
        hex_digit((n % 16) as u8),
    ];
    put_text(&text, out, at)
}

// An L field.
pub fn put_listing(from: usize, fuses: &[u8], out: &mut [u8], at: usize) -> usize
    requires fuses_in_bounds { at + length fuses.now + 9 ≤ length out.old }
    requires bits { Bits fuses.now }
    ensures { Wrote out.old at (listing from fuses.now) out.new result }
{
    let a = put_text(b"L", out, at);
    let b = put_dec4(from, out, a);
    let c = put_text(b" ", out, b);
    let d = put_digits(fuses, out, c);
    put_text(b"*\r\n", out, d)
}
