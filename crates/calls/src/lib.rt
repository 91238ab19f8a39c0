// A call over a text that says bytes of its map: what such calls have in common, whatever it is that they say.
#![tactic(auto)]

ghost use Rattle.std.specs.Prelude.{◌≡◌, ℕ, List, ◌≤◌, length, replicate};
ghost use Rattle.basics.specs.Refusal.{answered};
ghost use Rattle.trees.specs.Layout.{elements_of};
ghost use Rattle.circuit.specs.StageFive.{stage_five};
ghost use Rattle.circuit.specs.StageFive.Verdict.{fine};
ghost use Rattle.outputs.specs.Outputs.{stage_six};
ghost use Rattle.fusetext.specs.Put.{Wrote};
ghost use Rattle.texts.specs.Stages.{unless, whole_of};
ghost use Rattle.texts.specs.Calls.{written, called, Does};
ghost use Rattle.fusewrite.specs.Writing.{written_of};
ghost use Rattle.calls.specs.Saying.{Mapped};

use basics::refusal::{Reason, Refusal};

// What is said of a map.
pub trait Says {
    // The bytes that are said.
    ghost says: { List ℕ → List ℕ };

    // Writes what is said of a module's map, with what stage 6 counted of it, and answers how many bytes that is.
    fn put(map: &[u8], facts: &[u32], out: &mut [u8]) -> usize
        requires mapped { Mapped map.now facts.now }
        requires in_bounds { 7154 ≤ length out.old }
        ensures { Wrote out.old 0 (says map.now) out.new result };
}

// Stage 6 and what is said, of elements that stages 1 to 5 let pass.
fn say_parts<S: Says>(parts: &[u32], out: &mut [u8], room: &mut [u8]) -> Result<usize, Refusal>
    requires parts_value { stage_five (elements_of parts.now) ≡ fine }
    requires in_bounds { 7154 ≤ length out.old }
    requires in_bounds_2 { 65536 ≤ length room.old }
    ensures { Does written_of (written S.says (unless (stage_six (elements_of parts.now)) parts.now)) out.old room.old (answered result) out.new room.new }
{
    let mut map = [0u8; 5892];
    let mut facts = [0u32; 20];
    outmap::map_outputs(parts, room, &mut map, &mut facts)?;
    Ok(S::put(&map, &facts, out))
}

// All stages of a text, and what is said of its map.
fn say_text<S: Says>(text: &[u8], out: &mut [u8], room: &mut [u8]) -> Result<usize, Refusal>
    requires in_bounds { 7154 ≤ length out.old }
    requires in_bounds_2 { 65536 ≤ length room.old }
    requires room_value { room.old ≡ replicate (length room.old) 0 }
    ensures { Does written_of (written S.says (whole_of text.now)) out.old room.old (answered result) out.new room.new }
{
    let mut parts = [0u32; 2588];
    lola::front(text, &mut parts)?;
    say_parts::<S>(&parts, out, room)
}

// Writes what is said of a text's map into out and answers its length, or refuses and leaves out as it was. The working room is zeroed.
pub fn say<S: Says>(text: &[u8], out: &mut [u8], room: &mut [u8]) -> Result<usize, Refusal>
    ensures { Does written_of (called S.says text.now (length out.old) (length room.old)) out.old room.old (answered result) out.new room.new }
{
    cover::clear(room);
    if out.len() < 7154 || room.len() < 65536 {
        return Err(Refusal::new(Reason::Memory, 0));
    }
    say_text::<S>(text, out, room)
}
