// Laws of the plain history over whole runs. Each function has a law for its contract, and does nothing.
ghost use Rattle.bundle.specs.Laws.{AlwaysSound, UndoTakesBack, UndosThenRedos, RefusedLeavesNothing, ReachCounts};

// Whatever changes follow the opening, every drawing is sound, and at most 64 edits can be taken back or brought back.
pub fn always_sound_holds()
    ensures { AlwaysSound }
{}

// An undo right after an accepted edit is accepted and takes back that edit and no other.
pub fn undo_takes_back_holds()
    ensures { UndoTakesBack }
{}

// As many redos as undos lead back to where the undos began.
pub fn undos_then_redos_holds()
    ensures { UndosThenRedos }
{}

// What follows a refused change is what follows without it.
pub fn refused_leaves_nothing_holds()
    ensures { RefusedLeavesNothing }
{}

// As many undos in a row are accepted as the reach says, and as many redos as edits are undone; the next one is not.
pub fn reach_counts_holds()
    ensures { ReachCounts }
{}
