// Stage 6 over all elements, and the map of a module whose outputs all fit.
#![tactic(auto)]

ghost use Rattle.std.specs.Prelude.{◌≡◌, ◌<◌, ◌≤◌, eqb, length, replicate, IfOk};
ghost use Rattle.basics.specs.Below.{listed};
ghost use Rattle.basics.specs.Refusal.{fault_of};
ghost use Rattle.trees.specs.Layout.{elements_of};
ghost use Rattle.circuit.specs.StageFive.{stage_five};
ghost use Rattle.circuit.specs.StageFive.Verdict.{fine};
ghost use Rattle.meaning.specs.Circuit.{out_at};
ghost use Rattle.cells.specs.Kind.{kind_number, numbers};
ghost use Rattle.behave.specs.Cells.{code};
ghost use Rattle.outputs.specs.Outputs.{kind_of, stage_six, map_for, kinds_of};
ghost use Rattle.outmap.specs.Sixth.{seen, after, facts_of, number_of, Placed, Fitting, Few, fact_at};

use basics::refusal::{Reason, Refusal};
use cells::{Cells, Kind};
use std::array;
use trees::Class;

#[tactic(auto, using(trees::proofs::Classes::numbers))]
fn is_out(parts: &[u32], i: usize) -> bool
    requires { i < 64 }
    ensures { result ≡ eqb ((elements_of parts.now).class i) 2 }
{
    matches!(reach::class_of(parts, i), Some(Class::Out))
}

// Element i is the OUT of its pin.
fn is_first(parts: &[u32], i: usize) -> bool
    requires { i < 64 }
    ensures { result ≡ eqb (out_at (elements_of parts.now) ((elements_of parts.now).pin i)) i }
{
    tables::out_at(parts, trees::at(parts, trees::PIN_AT + i)) == Some(i)
}

// The turn of element i: an OUT is fitted into its cell, or refused.
fn take_out(parts: &[u32], i: usize, room: &mut [u8], cells: &mut Cells) -> Result<(), Reason>
    requires parts_value { stage_five (elements_of parts.now) ≡ fine }
    requires i_bound { i < 64 }
    requires in_bounds { 59049 ≤ length room.old }
    requires room_value { room.old ≡ replicate (length room.old) 0 }
    ensures value { fault_of result ≡ number_of (elements_of parts.now) i }
    ensures room_unchanged { room.new ≡ room.old }
    ensures cells_after { Placed (elements_of parts.now) i cells.old cells.new }
{
    if !is_out(parts, i) {
        return Ok(());
    }
    let fitted = outputs::try_out(parts, i, room)?;
    if is_first(parts, i) {
        let k = 23 - trees::at(parts, trees::PIN_AT + i);
        let masks = fitted.masks;
        cells.masks[k] = masks;
        cells.counts[k] = fitted.n as u8;
        cells.s0s[k] = basics::byte_of(fitted.s0);
    }
    Ok(())
}

// The kind of cell k.
fn kind_of(parts: &[u32], k: usize) -> Kind
    requires { k < 10 }
    ensures { kind_number result ≡ code (kind_of (elements_of parts.now) k) }
{
    match tables::out_at(parts, 23 - k) {
        None => Kind::Unused,
        Some(o) if reach::registered(parts, o) => Kind::Registered,
        Some(_) => Kind::Combinational,
    }
}

fn kinds_of(parts: &[u32]) -> [Kind; 10]
    ensures { numbers result ≡ kinds_of (elements_of parts.now) }
{
    array::from_fn(|k| kind_of(parts, k))
}

// All elements in declaration order, each OUT into its cell.
fn fit_all(parts: &[u32], room: &mut [u8]) -> Result<Cells, Refusal>
    requires parts_value { stage_five (elements_of parts.now) ≡ fine }
    requires in_bounds { 59049 ≤ length room.old }
    requires room_value { room.old ≡ replicate (length room.old) 0 }
    ensures result_value { seen result ≡ stage_six (elements_of parts.now) }
    ensures room_unchanged { room.new ≡ room.old }
    ensures cells { IfOk result (Fitting (elements_of parts.now)) }
{
    let mut cells = Cells {
        masks: [[0; 16]; 10],
        counts: [0; 10],
        kinds: kinds_of(parts),
        s0s: [0; 10],
    };
    for i in 0..64 {
        if let Err(reason) = take_out(parts, i, room, &mut cells) {
            return Err(Refusal::new(reason, trees::at(parts, trees::PLACE_AT + i)));
        }
    }
    Ok(cells)
}

// Entry j of what fit lines count: ten counts of products, ten of factors.
fn fact(cells: &Cells, j: usize) -> u32
    requires j_bound { j < 20 }
    requires few { Few cells.now.counts }
    ensures { result ≡ fact_at cells.now.masks cells.now.counts j }
{
    if j < 10 {
        cells.counts[j] as u32
    } else {
        cells::factors(cells.masks[j - 10], cells.counts[j - 10] as usize)
    }
}

#[tactic(auto, using(basics::proofs::Folds::listing_end))]
fn write_facts(cells: &Cells, facts: &mut [u32])
    requires facts_len { length facts.old ≡ 20 }
    requires few { Few cells.now.counts }
    ensures { facts.new ≡ listed (fact_at cells.now.masks cells.now.counts) 20 }
{
    for j in 0..20 {
        facts[j] = fact(cells, j);
    }
}

// Stage 6, and where it lets pass the whole map of the module, and what fit lines count.
pub fn map_outputs(
    parts: &[u32],
    room: &mut [u8],
    map: &mut [u8],
    facts: &mut [u32],
) -> Result<(), Refusal>
    requires parts_value { stage_five (elements_of parts.now) ≡ fine }
    requires in_bounds { 59049 ≤ length room.old }
    requires map_len { length map.old ≡ 5892 }
    requires facts_len { length facts.old ≡ 20 }
    ensures result_value { seen result ≡ stage_six (elements_of parts.now) }
    ensures room_after { room.new ≡ replicate (length room.old) 0 }
    ensures map_after { map.new ≡ after (stage_six (elements_of parts.now)) (map_for (elements_of parts.now)) map.old }
    ensures facts_after { facts.new ≡ after (stage_six (elements_of parts.now)) (facts_of (elements_of parts.now)) facts.old }
{
    cover::clear(room);
    let cells = fit_all(parts, room)?;
    cells.write_map(map);
    write_facts(&cells, facts);
    Ok(())
}
