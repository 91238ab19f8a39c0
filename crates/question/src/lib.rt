// The product question: whether a product is an implicant of an OUT's function, and whether it is prime.
#![tactic(auto)]

ghost use Rattle.std.specs.Prelude.{◌≡◌, false, ◌<◌, ◌≤◌, length, replicate};
ghost use Rattle.trees.specs.Layout.{elements_of};
ghost use Rattle.circuit.specs.StageFive.{stage_five};
ghost use Rattle.circuit.specs.StageFive.Verdict.{fine};
ghost use Rattle.pins.specs.Variables.{count_of};
ghost use Rattle.outputs.specs.Outputs.{stage_six};
ghost use Rattle.question.specs.Question.{seen, question_table, asked_of, asked};

use basics::refusal::{Reason, Refusal};
use engine::Grade;

// Over the truth table of OUT o.
fn ask_table(
    parts: &[u32],
    o: usize,
    f: &[u8],
    n: usize,
    number: usize,
    room: &mut [u8],
) -> Result<Grade, Refusal>
    requires n_value { n ≡ count_of (elements_of parts.now) false o }
    requires n_bound { n < 11 }
    requires f_value { f.now ≡ question_table (elements_of parts.now) o }
    requires in_bounds { 59049 ≤ length room.old }
    requires room_value { room.old ≡ replicate (length room.old) 0 }
    ensures value { seen result ≡ asked_of (elements_of parts.now) o number }
    ensures room_unchanged { room.new ≡ room.old }
{
    if number < cover::pow3(n) {
        Ok(cover::ask(f, room, n, number))
    } else {
        Err(Refusal::new(Reason::Question, 0))
    }
}

// Of OUT o.
fn ask_out(parts: &[u32], o: usize, number: usize, room: &mut [u8]) -> Result<Grade, Refusal>
    requires parts_value { stage_five (elements_of parts.now) ≡ fine }
    requires o_bound { o < 64 }
    requires o_bound_2 { count_of (elements_of parts.now) false o ≤ 10 }
    requires in_bounds { 59049 ≤ length room.old }
    requires room_value { room.old ≡ replicate (length room.old) 0 }
    ensures value { seen result ≡ asked_of (elements_of parts.now) o number }
    ensures room_unchanged { room.new ≡ room.old }
{
    let mut t = [0u8; 1024];
    let chosen = tables::question_table(parts, o, &mut t)?;
    let size = tables::power(chosen.count);
    ask_table(parts, o, &t[..size], chosen.count, number, room)
}

// The product with that number, of the OUT at a pin.
pub fn ask_output(
    parts: &[u32],
    pin: usize,
    number: usize,
    room: &mut [u8],
) -> Result<Grade, Refusal>
    requires parts_value { stage_five (elements_of parts.now) ≡ fine }
    requires parts_value_2 { stage_six (elements_of parts.now) ≡ fine }
    requires in_bounds { 59049 ≤ length room.old }
    ensures value { seen result ≡ asked (elements_of parts.now) pin number }
    ensures room_after { room.new ≡ replicate (length room.old) 0 }
{
    cover::clear(room);
    match tables::out_at(parts, pin) {
        Some(o) => ask_out(parts, o, number, room),
        None => Err(Refusal::new(Reason::Question, 0)),
    }
}
