// What can be asked of a bundle.
use drawing::Edit;

// A change of a bundle: an edit of its drawing, or a step back or forth in its history.
#[derive(Debug, Clone, Copy, PartialEq, Eq, Hash)]
pub enum Change {
    Make(Edit),
    Undo,
    Redo,
}
