// The outputs of a module: each OUT fitted to its cell, and the map of all ten.
#![tactic(auto)]

ghost use Rattle.std.specs.Prelude.{◌≡◌, true, ◌<◌, ◌≤◌, length, replicate};
ghost use Rattle.trees.specs.Layout.{elements_of};
ghost use Rattle.circuit.specs.StageFive.{stage_five};
ghost use Rattle.circuit.specs.StageFive.Verdict.{fine};
ghost use Rattle.pins.specs.Variables.{count_of, mask_of};
ghost use Rattle.fit.specs.Fit.{seen as programmed};
ghost use Rattle.outputs.specs.Outputs.{table_of, fitted_out};
ghost use Rattle.outputs.specs.Trial.{seen, tried_of};

use basics::refusal::Reason;
use fit::Fitted;

// OUT o in the cell of its pin, from its truth table.
fn fit_table(
    parts: &[u32],
    o: usize,
    f: &[u8],
    n: usize,
    mask: u32,
    room: &mut [u8],
) -> Option<Fitted>
    requires o_bound { o < 64 }
    requires bound { 14 ≤ (elements_of parts.now).pin o }
    requires o_bound_2 { (elements_of parts.now).pin o < 24 }
    requires n_value { n ≡ count_of (elements_of parts.now) true o }
    requires n_bound { n < 11 }
    requires mask_value { mask ≡ mask_of (elements_of parts.now) true o }
    requires f_value { f.now ≡ table_of (elements_of parts.now) o }
    requires in_bounds { 59049 ≤ length room.old }
    ensures value { programmed result ≡ fitted_out (elements_of parts.now) o }
    ensures room_after { room.new ≡ replicate (length room.old) 0 }
{
    let k = 23 - trees::at(parts, trees::PIN_AT + o);
    let held = reach::registered(parts, o);
    let inverted = reach::inverse(parts, o);
    fit::fit_cell(k, held, !inverted, f, room, n, mask)
}

// OUT o: its truth table, and then its cell's S0 and products; or why it has none.
pub fn try_out(parts: &[u32], o: usize, room: &mut [u8]) -> Result<Fitted, Reason>
    requires parts_value { stage_five (elements_of parts.now) ≡ fine }
    requires o_bound { o < 64 }
    requires o_value { (elements_of parts.now).class o ≡ 2 }
    requires in_bounds { 59049 ≤ length room.old }
    requires room_value { room.old ≡ replicate (length room.old) 0 }
    ensures value { seen result ≡ tried_of (elements_of parts.now) o }
    ensures room_unchanged { room.new ≡ room.old }
{
    let mut t = [0u8; 1024];
    match tables::rows_table(parts, o, &mut t) {
        Ok(chosen) => {
            let size = tables::power(chosen.count);
            fit_table(parts, o, &t[..size], chosen.count, chosen.mask, room).ok_or(Reason::Products)
        }
        Err(refusal) => Err(refusal.reason),
    }
}
