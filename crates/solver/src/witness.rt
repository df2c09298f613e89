//! The witness of a row of the state table, written into the 49 bytes of a row of the strip.
ghost use Rattle.std.specs.Prelude.{◌≡◌, ◌+◌, ◌*◌, ◌≤◌, ◌++◌, length, take, drop, replicate};
ghost use Rattle.pricing.specs.Measures.{meaning};
ghost use Rattle.solver.specs.Strips.{row_bytes};
ghost use Rattle.solver.specs.Trail.{path_to, Safe, TrailLawful, ChainLinked};

use frontier::State;
use measures::DelayMeasure;

// Writes the widths and spaces on the way back from a row of a stage into a part of 49 noughts.
// Kept: a state names the state that it extends by its place, since both stand in one lent table.
fn trace<M: DelayMeasure>(table: &[State<M::Value>], stage: usize, slot: usize, part: &mut [u8])
    requires safe { Safe M.DelayMeasure.EMPTY table.now stage slot }
    requires few { stage ≤ 24 }
    requires noughts { part.old ≡ replicate 49 0 }
    ensures { part.new ≡ row_bytes (path_to M.DelayMeasure.EMPTY table.now stage slot) }
{
    let last = table[slot].last;
    if stage == 0 {
        part[24] = last;
    } else {
        let width = table[slot].width;
        let from = table[slot].from;
        trace::<M>(table, stage - 1, from, part);
        part[stage - 1] = width;
        part[24 + stage] = last;
    }
}

// Row `row` of the strip becomes the witness of the slot, a row of the stage `wires`; no other byte changes.
pub(crate) fn write_witness<M: DelayMeasure>(
    table: &[State<M::Value>],
    wires: usize,
    slot: usize,
    strip: &mut [u8],
    row: usize,
)
    requires safe { Safe M.DelayMeasure.EMPTY table.now wires slot }
    requires few { wires ≤ 24 }
    requires room { 49 * row + 49 ≤ length strip.old }
    ensures { strip.new ≡ take (49 * row) strip.old ++ (row_bytes (path_to M.DelayMeasure.EMPTY table.now wires slot) ++ drop (49 * row + 49) strip.old) }
{
    let from = 49 * row;
    let part = &mut strip[from..from + 49];
    part.fill(0);
    trace::<M>(table, wires, slot, part);
}

// The way back from a row of the last stage is a lawful allocation with the row's power and delay.
pub(crate) fn trail_is_lawful<M: DelayMeasure>()
    ensures { (m : M) → TrailLawful (meaning M.DelayMeasure m) M.DelayMeasure.EMPTY }
{}

// Every row of a chained table is linked, and its way back stays in the table.
pub(crate) fn chain_is_linked<M: DelayMeasure>()
    ensures { (m : M) → ChainLinked (meaning M.DelayMeasure m) M.DelayMeasure.EMPTY }
{}
