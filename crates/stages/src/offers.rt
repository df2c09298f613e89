//! What a state of a stage offers to the next stage.
ghost use Rattle.std.specs.Prelude.{◌≡◌, ◌≤◌};
ghost use Rattle.frontier.specs.States.{kept_of};
ghost use Rattle.frontier.specs.Stages.{extended};
ghost use Rattle.pricing.specs.Measures.{meaning};
ghost use Rattle.stages.specs.Table.{Laying, stated};

use drawing::Wire;
use frontier::State;
use measures::DelayMeasure;
use pricing::LaidWire;

// The state at the place `from` with a wire of a width behind it and a space after that.
// Kept: a state names the one before by its place, since the record of a state and the lent table of them are fixed by the project.
pub(crate) fn extend<M: DelayMeasure>(
    measure: &M,
    wire: Wire,
    state: State<M::Value>,
    from: usize,
    width: u8,
    space: u8,
) -> State<M::Value>
    requires laying { Laying wire state.last width space }
    requires used { state.used ≤ 300 }
    requires power { state.power ≤ 11520000 }
    ensures { result ≡ stated (extended (meaning M.DelayMeasure measure.now) wire (kept_of state) width space) width from }
{
    let laid = LaidWire::new(wire, state.last, width, space);
    State {
        last: space,
        used: state.used + width as u32 + space as u32,
        power: state.power + laid.power(),
        delay: measure.join(state.delay, laid.value(measure)),
        width,
        from,
    }
}
