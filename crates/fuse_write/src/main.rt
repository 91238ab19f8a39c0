// Takes a map as 5,892 digits on standard input and prints its fuse file, or a refusal's line. The digits may end in LF or in CR LF, and a
// byte more is enough to tell that there are too many.
#![tactic(auto)]

use std::io;
use std::io::Write;

fn main(rt: HostRuntime) -> io::Result<()> {
    let mut text = [0u8; 5895];
    let n = answers::read_full(&mut rt.stdin(), &mut text)?;
    let mut out = [0u8; 7154];
    let k = verbs::write_answer(&text[..n], &mut out);
    rt.stdout().write_all(&out[..k])
}
