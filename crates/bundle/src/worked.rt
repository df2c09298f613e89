// Histories that are worked out.
ghost use Rattle.bundle.specs.Worked.{WorkedHistory};

// A redo after a refused edit is accepted; after 70 edits 64 undos are accepted and the 65th is not.
pub fn worked_history_holds()
    ensures { WorkedHistory }
{}
