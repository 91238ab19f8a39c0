// Reads a fuse file from standard input and prints its map as 5,892 digits, or a refusal's line.
#![tactic(auto)]

use std::io;
use std::io::Write;

fn main(rt: HostRuntime) -> io::Result<()> {
    let mut input = rt.stdin();
    let mut file = [0u8; 65537];
    let n = answers::read_full(&mut input, &mut file)?;
    let mut total = n;
    if 65536 < n {
        total = answers::whole_length(&mut input, n)?;
    }
    let mut out = [0u8; 5893];
    let k = verbs::read_answer(&file[..n], total, &mut out);
    rt.stdout().write_all(&out[..k])
}
