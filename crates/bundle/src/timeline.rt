// The timeline of a bundle.
ghost use Rattle.std.specs.Prelude.{◌≡◌, ◌+◌, ◌-◌, ◌≤◌, min, [], ◌∷◌, ◌++◌, length, take, drop};

use drawing::Drawing;

// How many edits undo reaches at the most.
pub(crate) const MOST_UNDOS: usize = 64;

// Puts a drawing after the first `reach` of a timeline; where all places are taken the first drawing makes room. Gives the new reach.
pub(crate) fn keep(timeline: &mut [Drawing], reach: usize, before: Drawing) -> usize
    requires whole { length timeline.old ≡ 64 }
    requires within { reach ≤ 64 }
    ensures count { result ≡ min (reach + 1) 64 }
    ensures past { take result timeline.new ≡ drop (reach + 1 - 64) (take reach timeline.old ++ before ∷ []) }
{
    if reach == MOST_UNDOS {
        timeline.rotate_left(1);
        timeline[MOST_UNDOS - 1] = before;
        MOST_UNDOS
    } else {
        timeline[reach] = before;
        reach + 1
    }
}
