//! The next stage from the one before: for each new last space, its streams are merged in order, and what is beaten is dropped.
ghost use Rattle.std.specs.Prelude.{◌≡◌, ◌+◌, true, take, Some};
ghost use Rattle.pricing.specs.Allocations.{is_step_of};
ghost use Rattle.pricing.specs.Measures.{meaning};
ghost use Rattle.stages.specs.Table.{Step, Least, Leasts, LeastsIf, Task, Turn, Turned, Moved, Between, Filled};
ghost use Rattle.stages.specs.Stage.{Course, AheadOf, Onward};

use crate::delays::{is_behind, note_delay};
use crate::stages::Frame;
use crate::streams::Streams;
use drawing::Wire;
use frontier::State;
use measures::DelayMeasure;
use pricing::in_grid;
use rules::RuleBook;

// The making of a stage from the one before: in which frame, which wire is laid, and where the states of the stage before stand in the
// table, from `begin` on and before `stop`.
#[derive(Drop)]
pub(crate) struct Merge<'a, B, M> {
    pub frame: &'a Frame<'a, B, M>,
    pub wire: Wire,
    pub begin: usize,
    pub stop: usize,
}

impl<'a, B: RuleBook, M: DelayMeasure> Merge<'a, B, M> {
    // Takes the head of stream k: its offer is kept, unless it is too wide or a kept state is at or below it. Says the new end of the
    // table, or None where there is no room.
    fn take_head(
        &self,
        table: &mut [State<M::Value>],
        heads: &mut [usize; 36],
        least: &mut [Option<usize>; 301],
        space: u8,
        end: usize,
        k: usize,
    ) -> Option<usize>
        requires task { Task (meaning M.DelayMeasure self.now.frame.now.measure.now) (M.DelayMeasure.reach self.now.frame.now.measure.now) self.now.frame.now.channel self.now.wire table.old self.now.begin self.now.stop }
        requires space { (Step space) × (is_step_of self.now.frame.now.grid.spaces space ≡ true) }
        requires turn { Turn (meaning M.DelayMeasure self.now.frame.now.measure.now) (B.RuleBook.admits self.now.frame.now.book.now) self.now.frame.now.grid self.now.frame.now.channel self.now.wire (take self.now.stop table.old) self.now.begin self.now.stop space heads.old table.old end }
        requires first { Least (meaning M.DelayMeasure self.now.frame.now.measure.now) self.now.wire (take self.now.stop table.old) self.now.stop heads.old space 36 (Some k) }
        requires leasts { Leasts (meaning M.DelayMeasure self.now.frame.now.measure.now) table.old self.now.stop end space least.old }
        ensures leasts { LeastsIf (meaning M.DelayMeasure self.now.frame.now.measure.now) table.new self.now.stop space least.new result }
        ensures turned { Turned (meaning M.DelayMeasure self.now.frame.now.measure.now) (B.RuleBook.admits self.now.frame.now.book.now) self.now.frame.now.grid self.now.frame.now.channel self.now.wire (take self.now.stop table.old) self.now.begin self.now.stop space heads.new table.new result }
        ensures moved { Moved heads.old heads.new k self.now.stop }
    {
        let streams = Streams {
            merge: &*self,
            table: &*table,
            heads: &*heads,
            space,
        };
        let x = streams.offer(k);
        let next = streams.next(k);
        heads[k] = next;
        if x.used > self.frame.channel {
            return Some(end);
        }
        if is_behind(self.frame.measure, table, least[x.used as usize], &x) {
            return Some(end);
        }
        if end >= table.len() {
            return None;
        }
        note_delay(self.frame.measure, table, end, least, &x);
        table[end] = x;
        Some(end + 1)
    }

    // All that a new last space brings: its streams are merged until each is at its end. The states of the spaces before it end at
    // `filled`.
    fn fill_space(&self, table: &mut [State<M::Value>], filled: usize, space: u8) -> Option<usize>
        requires task { Task (meaning M.DelayMeasure self.now.frame.now.measure.now) (M.DelayMeasure.reach self.now.frame.now.measure.now) self.now.frame.now.channel self.now.wire table.old self.now.begin self.now.stop }
        requires space { Step space }
        requires between { Between (meaning M.DelayMeasure self.now.frame.now.measure.now) (B.RuleBook.admits self.now.frame.now.book.now) self.now.frame.now.grid self.now.frame.now.channel self.now.wire (take self.now.stop table.old) self.now.begin self.now.stop space table.old filled }
        ensures { Filled (meaning M.DelayMeasure self.now.frame.now.measure.now) (B.RuleBook.admits self.now.frame.now.book.now) self.now.frame.now.grid self.now.frame.now.channel self.now.wire (take self.now.stop table.old) self.now.begin self.now.stop (space + 1) table.new result }
    {
        if !in_grid(self.frame.grid.spaces, space) {
            return Some(filled);
        }
        let mut heads = self.open_heads(table, space);
        let mut least = [None; 301];
        let mut end = filled;
        while let Some(k) = (Streams {
            merge: &*self,
            table: &*table,
            heads: &heads,
            space,
        })
        .first()
        {
            end = self.take_head(table, &mut heads, &mut least, space, end, k)?;
        }
        Some(end)
    }

    // The states of the stage before are the kept states of a plan's stage: writes those of the next stage behind them, and says where
    // they end, or None where they outnumber the room.
    pub(crate) fn next_row(&self, table: &mut [State<M::Value>]) -> Option<usize>
        requires { (w : Course) × AheadOf (meaning M.DelayMeasure self.now.frame.now.measure.now) (M.DelayMeasure.reach self.now.frame.now.measure.now) (B.RuleBook.admits self.now.frame.now.book.now) w self.now.frame.now.grid self.now.frame.now.channel self.now.wire table.old self.now.begin self.now.stop }
        ensures { (w : Course) → AheadOf (meaning M.DelayMeasure self.now.frame.now.measure.now) (M.DelayMeasure.reach self.now.frame.now.measure.now) (B.RuleBook.admits self.now.frame.now.book.now) w self.now.frame.now.grid self.now.frame.now.channel self.now.wire table.old self.now.begin self.now.stop → Onward (meaning M.DelayMeasure self.now.frame.now.measure.now) (M.DelayMeasure.reach self.now.frame.now.measure.now) (B.RuleBook.admits self.now.frame.now.book.now) w self.now.frame.now.grid self.now.frame.now.channel self.now.wire table.old table.new self.now.begin self.now.stop result }
    {
        let mut end = self.stop;
        for space in 1..=6 {
            end = self.fill_space(table, end, space)?;
        }
        Some(end)
    }
}
