// Functions that read a list of fuses or bytes through once.
ghost use Rattle.std.specs.Prelude.{◌≡◌, ℕ, ◌+◌, ◌%◌, ◌^◌, ◌≤◌, ◌<◌, length};
ghost use Rattle.fusetext.specs.File.{zeros, bits, sum, fuse_sum, Bits};

// Whether all are 0.
pub fn is_zero(s: &[u8]) -> bool
    ensures { result ≡ zeros s.now }
{
    s.iter().all(|&b| b == 0)
}

// Whether all are 0 or 1.
pub fn is_bits(s: &[u8]) -> bool
    ensures { result ≡ bits s.now }
{
    s.iter().all(|&b| b <= 1)
}

// The sum of the bytes.
#[tactic(auto, using(crate::proofs::Files::sum_next, crate::proofs::Files::sum_none))]
pub fn sum_of(s: &[u8]) -> u32
    requires { length s.now ≤ 65536 }
    ensures { result ≡ sum s.now }
{
    let mut acc: u32 = 0;
    for &b in s {
        acc += b as u32;
    }
    acc
}

// The weights of a byte's bits, lowest first.
const WEIGHTS: [u32; 8] = [1, 2, 4, 8, 16, 32, 64, 128];

// What fuse j weighs in its byte: the lowest fuse is the lowest bit.
fn weight(j: usize) -> u32
    ensures { (result ≡ 2 ^ (j % 8)) × (result ≤ 128) }
{
    WEIGHTS[j % 8]
}

// The fuse sum of a map: its fuses in bytes, summed.
pub fn weigh_of(s: &[u8]) -> u32
    requires s_len { length s.now ≡ 5892 }
    requires bits { Bits s.now }
    ensures { result ≡ fuse_sum s.now }
{
    let mut acc: u32 = 0;
    for j in 0..s.len() {
        if s[j] == 1 {
            acc += weight(j);
        }
    }
    acc
}
