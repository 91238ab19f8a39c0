// What the programs do between reading and printing: each function writes what is printed into the room lent, and answers how long it is.
#![tactic(auto)]

ghost use Rattle.std.specs.Prelude.{◌≡◌, [], ℕ, ◌+◌, ◌*◌, ◌≤◌, length, take, drop};
ghost use Rattle.fusetext.specs.Put.{Wrote};
ghost use Rattle.gallines.specs.Lines.{answer_to};
ghost use Rattle.verbs.specs.Printed.{read_answer, file_answer, write_answer, bare, answers_from, line_end, model_answer, map_taken};

use basics::refusal::{Reason, Refusal};
use fusetext::field::put_text;

// The answer to a fuse file of `total` bytes. Of one that is too long a part is enough.
pub fn read_answer(file: &[u8], total: usize, out: &mut [u8]) -> usize
    requires { 5893 ≤ length out.old }
    ensures { Wrote out.old 0 (read_answer file.now total) out.new result }
{
    if 65536 < total {
        return lines::put_refused(Refusal::new(Reason::Form, total), out, 0);
    }
    let mut map = [0u8; 5892];
    match fuseread::read(file, &mut map) {
        Ok(()) => lines::put_shown_line(&map, out),
        Err(refusal) => lines::put_refused(refusal, out, 0),
    }
}

// The answer to a map.
fn put_file(map: &[u8], out: &mut [u8]) -> usize
    requires { 7154 ≤ length out.old }
    ensures { Wrote out.old 0 (file_answer map.now) out.new result }
{
    match fusewrite::write(map, out) {
        Ok(len) => len,
        Err(refusal) => lines::put_refused(refusal, out, 0),
    }
}

// The answer to a line of a map's digits.
pub fn write_answer(text: &[u8], out: &mut [u8]) -> usize
    requires { 7154 ≤ length out.old }
    ensures { Wrote out.old 0 (write_answer text.now) out.new result }
{
    let n = lines::line_length(text);
    if 5892 < n {
        return lines::put_refused(Refusal::new(Reason::Map, 0), out, 0);
    }
    let mut map = [0u8; 5892];
    lines::put_fuses_in(&text[..n], &mut map);
    put_file(&map[..n], out)
}

// The answer to one line of the model's.
fn put_answer(map: &[u8], line: &[u8], out: &mut [u8], at: usize) -> usize
    requires { at + length (answer_to map.now line.now) ≤ length out.old }
    ensures { Wrote out.old at (answer_to map.now line.now) out.new result }
{
    let mut text = [0u8; 61];
    let n = gallines::answer(map, line, &mut text);
    put_text(&text[..n], out, at)
}

// The answer to a line that ended in LF.
fn put_ended(map: &[u8], line: &[u8], out: &mut [u8], at: usize) -> usize
    requires { at + length (answer_to map.now (bare line.now)) ≤ length out.old }
    ensures { Wrote out.old at (answer_to map.now (bare line.now)) out.new result }
{
    let k = gallines::contents_of(line);
    put_answer(map, &line[..k], out, at)
}

// The answer to what stands behind the last LF.
fn put_last(map: &[u8], line: &[u8], out: &mut [u8], at: usize) -> usize
    requires { at + length (answers_from map.now line.now []) ≤ length out.old }
    ensures { Wrote out.old at (answers_from map.now line.now []) out.new result }
{
    if line.len() == 0 {
        at
    } else {
        put_answer(map, line, out, at)
    }
}

// The answers to lines. A byte is answered by five at the most.
fn put_answers(map: &[u8], s: &[u8], out: &mut [u8]) -> usize
    requires { 5 * length s.now ≤ length out.old }
    ensures { Wrote out.old 0 (answers_from map.now [] s.now) out.new result }
{
    let mut start = 0;
    let mut o = 0;
    for i in 0..s.len() {
        if s[i] == b'\n' {
            o = put_ended(map, &s[start..i], out, o);
            start = i + 1;
        }
    }
    put_last(map, &s[start..], out, o)
}

// How many bytes come before the first LF.
#[tactic(auto, using(crate::proofs::Asking::end_here, crate::proofs::Asking::end_next, crate::proofs::Asking::end_none))]
fn line_end(s: &[u8]) -> usize
    ensures { (result ≡ line_end s.now) × (result ≤ length s.now) }
{
    for i in 0..s.len() {
        if s[i] == b'\n' {
            return i;
        }
    }
    s.len()
}

// The answers to the lines from byte e on, by the map in the first k bytes.
fn put_behind(s: &[u8], k: usize, e: usize, out: &mut [u8]) -> usize
    requires { (k ≤ length s.now) × (e ≤ length s.now) × (5 * length s.now ≤ length out.old) }
    ensures { Wrote out.old 0 (answers_from (take k s.now) [] (drop e s.now)) out.new result }
{
    put_answers(&s[..k], &s[e..], out)
}

// The answers to a map's line and the lines behind it. The digits of the map are turned into fuses where they stand.
pub fn model_answer(input: &mut [u8], out: &mut [u8]) -> usize
    requires { 5 * length input.old ≤ length out.old }
    ensures wrote { Wrote out.old 0 (model_answer input.old) out.new result }
    ensures input_after { input.new ≡ map_taken input.old }
{
    let h = line_end(input);
    if input.len() <= h {
        return 0;
    }
    let k = gallines::contents_of(&input[..h]);
    gallines::map_in(&mut input[..k]);
    put_behind(input, k, h + 1, out)
}
