//! The stages lose nothing.
ghost use Rattle.frontier.specs.Always.{Always};
ghost use Rattle.frontier.specs.Bare.{BareNone};
ghost use Rattle.frontier.specs.Stages.{RowFirst, RowNext, RowLast, RowNone, KeptIs, KeptCounted};

use measures::DelayMeasure;

// The first spaces are the kept states of stage 0.
pub fn row_first_holds<M: DelayMeasure>()
    ensures { Always M.DelayMeasure RowFirst }
{}

// To extend the kept states of a stage by one wire and drop what is beaten gives exactly the kept states of the next stage.
pub fn row_next_holds<M: DelayMeasure>()
    ensures { Always M.DelayMeasure RowNext }
{}

// The last stage gives exactly the curve.
pub fn row_last_holds<M: DelayMeasure>()
    ensures { Always M.DelayMeasure RowLast }
{}

// The last stage is empty exactly where no allocation is lawful.
pub fn row_none_holds<M: DelayMeasure>()
    ensures { Always M.DelayMeasure RowNone }
{}

// The computed kept states of a stage are exactly its kept states.
pub fn kept_is_holds<M: DelayMeasure>()
    ensures { Always M.DelayMeasure KeptIs }
{}

// A list of exactly the kept states of a stage is as long as the computed one.
pub fn kept_counted_holds<M: DelayMeasure>()
    ensures { Always M.DelayMeasure KeptCounted }
{}

// Whether any allocation is lawful does not hang on the wires' numbers.
pub fn bare_none_holds<M: DelayMeasure>()
    ensures { Always M.DelayMeasure BareNone }
{}
