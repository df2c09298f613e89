//! The least delays of the states of a new last space, by used width: for each used width, the place of the state of the least delay
//! that uses no more.
ghost use Rattle.std.specs.Prelude.{◌≡◌, ℕ, ◌<◌, ◌≤◌, length, None, slice_index_or};
ghost use Rattle.pricing.specs.Measures.{meaning};
ghost use Rattle.stages.specs.Table.{Inside, noted, behind};

use frontier::State;
use measures::DelayMeasure;

// Whether the state at a place, if there is one, has a delay that is not above that of another state.
pub(crate) fn is_behind<M: DelayMeasure>(
    measure: &M,
    table: &[State<M::Value>],
    place: Option<usize>,
    x: &State<M::Value>,
) -> bool
    requires { Inside place (length table.now) }
    ensures { result ≡ behind (meaning M.DelayMeasure measure.now) table.now place x.now.delay }
{
    place.is_some_and(|k| measure.not_above(table[k].delay, x.delay))
}

// Notes the delay of a state that comes to stand at `end`, at its used width and all above.
pub(crate) fn note_delay<M: DelayMeasure>(
    measure: &M,
    table: &[State<M::Value>],
    end: usize,
    least: &mut [Option<usize>; 301],
    x: &State<M::Value>,
)
    requires small { x.now.used ≤ 300 }
    requires inside { (u : ℕ) → u < 301 → Inside (slice_index_or least.old u None) (length table.now) }
    ensures { (u : ℕ) → u < 301 → slice_index_or least.new u None ≡ noted (meaning M.DelayMeasure measure.now) table.now end (slice_index_or least.old u None) u x.now.used x.now.delay }
{
    for place in &mut least[x.used as usize..] {
        if !is_behind(measure, table, *place, x) {
            *place = Some(end);
        }
    }
}
