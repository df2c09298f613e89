//! Curves that are worked out.
ghost use Rattle.frontier.specs.Cases.{CasesHold};

// The worked bundles have the curves, the kept states and the refusals that the definitions give.
pub fn cases_hold()
    ensures { CasesHold }
{}
