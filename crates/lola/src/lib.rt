// Stages 1 to 5 of a text: its length, its grammar, its declarations, its statements, and all its names.
#![tactic(auto)]

ghost use Rattle.std.specs.Prelude.{◌≡◌, ℕ, replicate};
ghost use Rattle.texts.specs.Stages.{fourth, front_of};
ghost use Rattle.lola.specs.Telling.{seen_front};

use basics::refusal::{Reason, Refusal};
use judging::Scope;
use words::Cursor;

// How many bytes a text may have.
const LONGEST: usize = 32768;

// Stages 4 and 5: the statements from a place on, among the names lent, and then all names.
#[tactic(auto, using(std::proofs::lemmas::Grind::common_steps), unfolding(texts::specs::Stages::fourth, texts::specs::Stages::fifth))]
fn carry_out(
    scope: Scope,
    parts: &mut [u32],
    count: &mut usize,
    from: Cursor,
) -> Result<(), Refusal>
    ensures { seen_front result parts.new ≡ fourth scope.entry.text.now from.at scope.entry.names.now (parts.old, count.old) }
{
    unroll::statements(scope, parts, count, from, grammar::level_limit())?;
    circuit::judge_all(parts)
}

// Lets a text pass by stages 1 to 5, or refuses it. Where it is let pass its elements are in parts.
#[tactic(auto, using(std::proofs::lemmas::Grind::common_steps), unfolding(texts::specs::Stages::front_of, texts::specs::Stages::second))]
pub fn front(text: &[u8], parts: &mut [u32]) -> Result<(), Refusal>
    requires { parts.old ≡ replicate 2588 0 }
    ensures { seen_front result parts.new ≡ front_of text.now }
{
    if text.len() > LONGEST {
        return Err(Refusal::new(Reason::Length, 0));
    }
    let checked = checking::check(text)?;
    let mut count = 0;
    let made = declare::declare(text, parts, &mut count, checked.declarations)?;
    let names = made.table.lent();
    carry_out(Scope { text, names }, parts, &mut count, checked.statements)
}
