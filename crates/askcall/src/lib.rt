// The grader's call: a text, an OUT pin and a product's number in, what that product is to the pin's function out.
#![tactic(auto)]

ghost use Rattle.std.specs.Prelude.{◌≡◌, ℕ, ◌≤◌, length, replicate};
ghost use Rattle.trees.specs.Layout.{elements_of};
ghost use Rattle.circuit.specs.StageFive.{stage_five};
ghost use Rattle.circuit.specs.StageFive.Verdict.{fine};
ghost use Rattle.outputs.specs.Outputs.{stage_six};
ghost use Rattle.texts.specs.Stages.{unless, whole_of};
ghost use Rattle.askcall.specs.Asking.{questioned, Does, Asks};

use basics::refusal::{Reason, Refusal};
use engine::Grade;

// Stage 6 and the question, of elements that stages 1 to 5 let pass.
fn ask_parts(parts: &[u32], pin: usize, product: usize, room: &mut [u8]) -> Result<Grade, Refusal>
    requires parts_value { stage_five (elements_of parts.now) ≡ fine }
    requires in_bounds { 65536 ≤ length room.old }
    ensures { Does (questioned pin product (unless (stage_six (elements_of parts.now)) parts.now)) room.old result room.new }
{
    let mut map = [0u8; 5892];
    let mut facts = [0u32; 20];
    outmap::map_outputs(parts, room, &mut map, &mut facts)?;
    question::ask_output(parts, pin, product, room)
}

// All stages of a text and the question.
fn ask_text(text: &[u8], pin: usize, product: usize, room: &mut [u8]) -> Result<Grade, Refusal>
    requires in_bounds { 65536 ≤ length room.old }
    requires room_value { room.old ≡ replicate (length room.old) 0 }
    ensures { Does (questioned pin product (whole_of text.now)) room.old result room.new }
{
    let mut parts = [0u32; 2588];
    lola::front(text, &mut parts)?;
    ask_parts(&parts, pin, product, room)
}

// Grades the product with that number for the OUT at a pin of a text, or refuses. The working room is zeroed.
pub fn ask(text: &[u8], pin: usize, product: usize, room: &mut [u8]) -> Result<Grade, Refusal>
    ensures { Asks text.now pin product room.old result room.new }
{
    cover::clear(room);
    if room.len() < 65536 {
        return Err(Refusal::new(Reason::Memory, 0));
    }
    ask_text(text, pin, product, room)
}
