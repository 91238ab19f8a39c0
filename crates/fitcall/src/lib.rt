// The fit program's call: a text in, the lines of its map out.
#![tactic(auto)]

ghost use Rattle.std.specs.Prelude.{◌≡◌, ℕ, ◌≤◌, length};
ghost use Rattle.fusetext.specs.Put.{Wrote};
ghost use Rattle.fitlines.specs.Lines.{fit_lines};
ghost use Rattle.calls.specs.Saying.{Mapped};
ghost use Rattle.fitcall.specs.Fitting.{Fits};

use basics::refusal::Refusal;
use calls::Says;

// What is said of a map are the lines of its fit, by what stage 6 counted of it.
pub struct FitLines;

impl Says for FitLines {
    ghost says = { fit_lines };

    fn put(map: &[u8], facts: &[u32], out: &mut [u8]) -> usize {
        fitlines::put_lines(map, facts, out)
    }
}

// Writes the fit program's lines of a text into out and answers their length, or refuses and leaves out as it was. The working room is zeroed.
pub fn fit(text: &[u8], out: &mut [u8], room: &mut [u8]) -> Result<usize, Refusal>
    ensures { Fits text.now out.old room.old result out.new room.new }
{
    calls::say::<FitLines>(text, out, room)
}
