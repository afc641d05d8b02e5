//! Replay, by memoization of suffixes: codes that were listed behind one beginning are copied behind another.
ghost use Rattle.std.specs.Prelude.{◌≡◌, ℕ, ◌≤◌, ◌<◌, [], ◌∷◌, ◌++◌, drop, length, slice_index_or, List, IfOk, OnOk};
ghost use Rattle.cls_walk.specs.Stretches.{Copies, Holds};
ghost use Rattle.cls_walk.specs.Walks.{IsBack};

use crate::plan::Plan;
use crate::stretch::Stretch;
use crate::walk::Walk;
use cls_base::OutOfMemory;

/// Lists what the code at this place has from this number on, behind the code so far.
fn copy(walk: &mut Walk, place: usize, from: usize) -> Result<(), OutOfMemory>
    requires within { place < length walk.old.codes }
    requires long { from ≤ length (slice_index_or walk.old.codes place []) }
    ensures codes { OnOk result (walk.new.codes
        ≡ walk.old.codes ++ (walk.old.code.items ++ drop from (slice_index_or walk.old.codes place [])) ∷ []) }
    ensures awaited { OnOk result (walk.new.awaited.items ≡ walk.old.awaited.items) }
    ensures code { OnOk result (walk.new.code.items ≡ walk.old.code.items) }
    ensures known { OnOk result (walk.new.known ≡ walk.old.known) }
{
    let length = walk.code.len();
    walk.code.extend_from_slice(&walk.codes.get(place)[from..])?;
    walk.codes.push(walk.code.as_slice())?;
    walk.code.truncate(length);
    Ok(())
}

/// Lists the codes of the stretch again, behind the code so far, and says whether to go on.
pub(crate) fn replay(plan: &Plan, walk: &mut Walk, stretch: Stretch) -> Result<bool, OutOfMemory>
    requires few { length walk.old.codes ≤ plan.now.take }
    requires holds { (ws : List (List ℕ)) × Holds stretch walk.old.codes ws }
    ensures back { IfOk result (IsBack plan.now walk.old walk.new) }
    ensures copies { (ws : List (List ℕ)) → Holds stretch walk.old.codes ws
        → IfOk result (Copies ws walk.old walk.new) }
{
    for place in stretch.start..stretch.end {
        copy(walk, place, stretch.from)?;
        if walk.codes.len() > plan.take as usize {
            return Ok(false);
        }
    }
    Ok(true)
}
