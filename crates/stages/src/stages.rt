//! All the stages of a drawing, one behind the other in a lent table.
// Kept: the table is lent as a slice, so where its states end is a number beside it.
ghost use Rattle.std.specs.Prelude.{◌≡◌, ◌+◌};
ghost use Rattle.drawing.specs.Plans.{Sound};
ghost use Rattle.drawing.specs.Shown.{plan_of};
ghost use Rattle.frontier.specs.Stages.{start};
ghost use Rattle.pricing.specs.Measures.{meaning};
ghost use Rattle.stages.specs.Table.{stated};
ghost use Rattle.stages.specs.Openings.{Opening, Begun};
ghost use Rattle.stages.specs.Chain.{drawn, Ended};

use crate::merge::Merge;
use drawing::{Drawing, Grid, Wire};
use frontier::State;
use measures::DelayMeasure;
use pricing::in_grid;
use rules::RuleBook;

// The state of no wire with a first space.
// Kept: width and forerunner are noughts, since the record of a state is fixed; of stage 0 no one reads them.
fn first_state<M: DelayMeasure>(measure: &M, space: u8) -> State<M::Value>
    ensures { result ≡ stated (start (meaning M.DelayMeasure measure.now) space) 0 0 }
{
    State {
        last: space,
        used: space as u32,
        power: 0,
        delay: M::EMPTY,
        width: 0,
        from: 0,
    }
}

// What all stages of a solve share.
#[derive(Drop)]
pub(crate) struct Frame<'a, B, M> {
    pub book: &'a B,
    pub measure: &'a M,
    pub grid: Grid,
    pub channel: u32,
}

impl<'a, B: RuleBook, M: DelayMeasure> Frame<'a, B, M> {
    // Writes the state of a first space at the end, if the grid has it and it is at most the channel. Says the new end of the table, or
    // None where there is no room.
    fn first_space(&self, table: &mut [State<M::Value>], end: usize, space: u8) -> Option<usize>
        requires { Opening (meaning M.DelayMeasure self.now.measure.now) self.now.grid self.now.channel space table.old end }
        ensures { Begun (meaning M.DelayMeasure self.now.measure.now) self.now.grid self.now.channel (space + 1) table.new result }
    {
        if !in_grid(self.grid.spaces, space) {
            return Some(end);
        }
        if space as u32 > self.channel {
            return Some(end);
        }
        if end >= table.len() {
            return None;
        }
        table[end] = first_state(self.measure, space);
        Some(end + 1)
    }

    // Writes stage 0, one state for each first space of the grid that is at most the channel, in order: says where it ends, or None
    // where it outnumbers the table.
    fn first_row(&self, table: &mut [State<M::Value>]) -> Option<usize>
        ensures { Begun (meaning M.DelayMeasure self.now.measure.now) self.now.grid self.now.channel 7 table.new result }
    {
        let mut end = 0;
        for space in 1..=6 {
            end = self.first_space(table, end, space)?;
        }
        Some(end)
    }

    // From stage 0, at the places before `first`, makes all the stages: says where the last one stands, or None where the kept states
    // outnumber the table.
    fn stages_after(
        &self,
        wires: &[Wire],
        table: &mut [State<M::Value>],
        first: usize,
    ) -> Option<(usize, usize)>
        requires sound { Sound (drawn self.now.grid self.now.channel wires.now) }
        requires begun { Opening (meaning M.DelayMeasure self.now.measure.now) self.now.grid self.now.channel 7 table.old first }
        ensures { Ended (meaning M.DelayMeasure self.now.measure.now) (B.RuleBook.admits self.now.book.now) (drawn self.now.grid self.now.channel wires.now) (M.DelayMeasure.reach self.now.measure.now) table.new result }
    {
        let mut begin = 0;
        let mut stop = first;
        for wire in wires {
            let merge = Merge {
                frame: &*self,
                wire: *wire,
                begin,
                stop,
            };
            let end = merge.next_row(table)?;
            begin = stop;
            stop = end;
        }
        Some((begin, stop))
    }
}

// Makes all the stages of a drawing, one behind the other from the start of the table: says where the last one stands, or None where
// the kept states of all stages outnumber the table.
// Inner: solve joins the stages with the other parts
pub fn all_stages<B: RuleBook, M: DelayMeasure>(
    drawing: &Drawing,
    book: &B,
    measure: &M,
    table: &mut [State<M::Value>],
) -> Option<(usize, usize)>
    ensures { Ended (meaning M.DelayMeasure measure.now) (B.RuleBook.admits book.now) (plan_of drawing.now) (M.DelayMeasure.reach measure.now) table.new result }
{
    let grid = drawing.grid();
    let channel = drawing.channel();
    let frame = Frame {
        book,
        measure,
        grid,
        channel,
    };
    let first = frame.first_row(table)?;
    frame.stages_after(drawing.wires(), table, first)
}
