// What the programs over texts do between reading and printing: each function writes what is printed into the output lent, and answers how long it
// is. The working room is zeroed.
#![tactic(auto)]

ghost use Rattle.std.specs.Prelude.{◌≡◌, ℕ, ◌≤◌, length, replicate};
ghost use Rattle.fusetext.specs.Put.{Wrote};
ghost use Rattle.textverbs.specs.Answers.{compile_answer, fit_answer, ask_answer};

use fusetext::field::put_text;
use kinvlopt::Grade;

// A text's fuse file, or its refusal's line.
pub fn compile_answer(text: &[u8], out: &mut [u8], room: &mut [u8]) -> usize
    requires in_bounds { 7154 ≤ length out.old }
    requires in_bounds_2 { 65536 ≤ length room.old }
    ensures wrote { Wrote out.old 0 (compile_answer text.now) out.new result }
    ensures room_after { room.new ≡ replicate (length room.old) 0 }
{
    match kinvlopt::compile(text, out, room) {
        Ok(len) => len,
        Err(refusal) => lines::put_refused(refusal, out, 0),
    }
}

// A text's fit lines, or its refusal's line.
pub fn fit_answer(text: &[u8], out: &mut [u8], room: &mut [u8]) -> usize
    requires in_bounds { 7154 ≤ length out.old }
    requires in_bounds_2 { 65536 ≤ length room.old }
    ensures wrote { Wrote out.old 0 (fit_answer text.now) out.new result }
    ensures room_after { room.new ≡ replicate (length room.old) 0 }
{
    match kinvlopt::fit(text, out, room) {
        Ok(len) => len,
        Err(refusal) => lines::put_refused(refusal, out, 0),
    }
}

// What a product is to the function of a text's OUT pin, as the line of its digit, or the refusal's line.
pub fn ask_answer(text: &[u8], pin: usize, product: usize, out: &mut [u8], room: &mut [u8]) -> usize
    requires in_bounds { 42 ≤ length out.old }
    requires in_bounds_2 { 65536 ≤ length room.old }
    ensures wrote { Wrote out.old 0 (ask_answer text.now pin product) out.new result }
    ensures room_after { room.new ≡ replicate (length room.old) 0 }
{
    match kinvlopt::ask(text, pin, product, room) {
        Ok(Grade::NoImplicant) => put_text(b"0\n", out, 0),
        Ok(Grade::Implicant) => put_text(b"1\n", out, 0),
        Ok(Grade::Prime) => put_text(b"2\n", out, 0),
        Err(refusal) => lines::put_refused(refusal, out, 0),
    }
}
