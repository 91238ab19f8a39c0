// The compile call: a text in, its fuse file out.
#![tactic(auto)]

ghost use Rattle.std.specs.Prelude.{◌≡◌, ℕ, ◌≤◌, length};
ghost use Rattle.fusetext.specs.File.{file_of};
ghost use Rattle.fusetext.specs.Put.{Wrote};
ghost use Rattle.calls.specs.Saying.{Mapped};
ghost use Rattle.compilecall.specs.Compiling.{Compiles};

use basics::refusal::Refusal;
use calls::Says;

// What is said of a map is its fuse file.
pub struct FuseFile;

impl Says for FuseFile {
    ghost says = { file_of };

    fn put(map: &[u8], _facts: &[u32], out: &mut [u8]) -> usize {
        fusewrite::put_file(map, out)
    }
}

// Writes the fuse file of a text into out and answers its length, or refuses and leaves out as it was. The working room is zeroed.
pub fn compile(text: &[u8], out: &mut [u8], room: &mut [u8]) -> Result<usize, Refusal>
    ensures { Compiles text.now out.old room.old result out.new room.new }
{
    calls::say::<FuseFile>(text, out, room)
}
