//! The streams of a new last space. Stream k has the states of last space k / 6 + 1, each with the wire of width k % 6 + 1 behind it;
//! its head is the place of the first of them that is not taken yet.
// Kept: one number stands for a last space and a width, so that one loop over one array finds the least; of pairs there would be two, one in the other.
// Kept: a head is a place of the range up to `stop`, and at `stop` the range is used up; as an `Option` each would be opened before its place is compared.
ghost use Rattle.std.specs.Prelude.{◌≡◌, ℕ, ◌+◌, ◌/◌, ◌%◌, ◌<◌, ◌≤◌, length, take, slice_index, Some, ◌==◌};
ghost use Rattle.std.specs.List.{position_or_len};
ghost use Rattle.pricing.specs.Measures.{meaning};
ghost use Rattle.stages.specs.Table.{stated, Skipped, Opened, head_offer, Live, Least, Ready};

use crate::merge::Merge;
use crate::offers::extend;
use frontier::{Record, State};
use measures::DelayMeasure;
use pricing::in_grid;
use rules::RuleBook;
use std::array;

// The first place whose last space is the one asked for, or the number of places.
// Kept: that number is the end of the range, where the head of a stream that is used up then stands.
fn skip<V: Copy>(states: &[State<V>], last: u8) -> usize
    ensures first { result ≡ position_or_len (λ s. s.last == last) states.now }
    ensures within { result ≤ length states.now }
{
    states
        .iter()
        .position(|x| x.last == last)
        .unwrap_or(states.len())
}

impl<'a, B: RuleBook, M: DelayMeasure> Merge<'a, B, M> {
    // Where the stream k of a new last space begins: at the first state of its last space, or at the end if no offer of it is lawful.
    fn open_head(&self, table: &[State<M::Value>], space: u8, k: usize) -> usize
        requires low { self.now.begin ≤ self.now.stop }
        requires high { self.now.stop ≤ length table.now }
        requires stream { k < 36 }
        ensures { Opened (B.RuleBook.admits self.now.frame.now.book.now) self.now.frame.now.grid table.now self.now.begin self.now.stop space k result }
    {
        let last = (k / 6) as u8 + 1;
        let width = (k % 6) as u8 + 1;
        if in_grid(self.frame.grid.widths, width) && self.frame.book.allows(last, width, space) {
            self.begin + skip(&table[self.begin..self.stop], last)
        } else {
            self.stop
        }
    }

    // Where the streams of a new last space begin.
    pub(crate) fn open_heads(&self, table: &[State<M::Value>], space: u8) -> [usize; 36]
        requires low { self.now.begin ≤ self.now.stop }
        requires high { self.now.stop ≤ length table.now }
        ensures { (k : ℕ) → k < 36 → Opened (B.RuleBook.admits self.now.frame.now.book.now) self.now.frame.now.grid table.now self.now.begin self.now.stop space k (slice_index result k) }
    {
        array::from_fn(|k| self.open_head(table, space, k))
    }
}

// The streams of a new last space, and where their heads stand.
#[derive(Drop)]
pub(crate) struct Streams<'a, B, M: DelayMeasure> {
    pub merge: &'a Merge<'a, B, M>,
    pub table: &'a [State<M::Value>],
    pub heads: &'a [usize; 36],
    pub space: u8,
    ghost high: { merge.now.stop ≤ length table.now },
    ghost ready: { ∥ Ready (meaning M.DelayMeasure merge.now.frame.now.measure.now) (M.DelayMeasure.reach merge.now.frame.now.measure.now) merge.now.wire table.now merge.now.stop heads.now space ∥₁ },
}

impl<'a, B, M: DelayMeasure> Streams<'a, B, M> {
    // What the head of stream k offers.
    pub(crate) fn offer(&self, k: usize) -> State<M::Value>
        requires { Live self.now.heads.now self.now.merge.now.stop k }
        ensures { result ≡ stated (head_offer (meaning M.DelayMeasure self.now.merge.now.frame.now.measure.now) self.now.merge.now.wire (take self.now.merge.now.stop self.now.table.now) self.now.heads.now self.now.space k) (k % 6 + 1) (slice_index self.now.heads.now k) }
    {
        let from = self.heads[k];
        extend(
            self.merge.frame.measure,
            self.merge.wire,
            self.table[from],
            from,
            (k % 6) as u8 + 1,
            self.space,
        )
    }

    // Where the stream k goes on behind its head: at the next state of its last space, or at the end.
    pub(crate) fn next(&self, k: usize) -> usize
        requires { Live self.now.heads.now self.now.merge.now.stop k }
        ensures { Skipped self.now.table.now (slice_index self.now.heads.now k + 1) self.now.merge.now.stop (k / 6 + 1) result }
    {
        let i = self.heads[k] + 1;
        i + skip(&self.table[i..self.merge.stop], (k / 6) as u8 + 1)
    }

    // The better of the best head so far and the head of stream k, which is not at its end.
    fn better(&self, best: Option<usize>, k: usize) -> usize
        requires live { Live self.now.heads.now self.now.merge.now.stop k }
        requires least { Least (meaning M.DelayMeasure self.now.merge.now.frame.now.measure.now) self.now.merge.now.wire (take self.now.merge.now.stop self.now.table.now) self.now.merge.now.stop self.now.heads.now self.now.space k best }
        ensures { Least (meaning M.DelayMeasure self.now.merge.now.frame.now.measure.now) self.now.merge.now.wire (take self.now.merge.now.stop self.now.table.now) self.now.merge.now.stop self.now.heads.now self.now.space (k + 1) (Some result) }
    {
        match best {
            None => k,
            Some(o) => {
                let x = self.offer(o);
                let y = self.offer(k);
                if x.is_upto(self.merge.frame.measure, &y) {
                    o
                } else {
                    k
                }
            }
        }
    }

    // The stream whose head comes first, or None where every stream is at its end.
    pub(crate) fn first(&self) -> Option<usize>
        ensures { Least (meaning M.DelayMeasure self.now.merge.now.frame.now.measure.now) self.now.merge.now.wire (take self.now.merge.now.stop self.now.table.now) self.now.merge.now.stop self.now.heads.now self.now.space 36 result }
    {
        let mut best = None;
        for (k, head) in self.heads.iter().enumerate() {
            if *head < self.merge.stop {
                best = Some(self.better(best, k));
            }
        }
        best
    }
}
