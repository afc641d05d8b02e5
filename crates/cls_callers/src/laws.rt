//! What holds of goals that are asked together, as calls that do nothing and promise the law. The answers are those
//! that any tag of an expander means.
ghost use Rattle.cls_callers.specs.Laws.{CanonicalRowsAreFromScratch, RootReachesAllClosures};
ghost use Rattle.cls_callers.specs.Unions.{RootAddsItself};

use cls_core::Expand;

/// The closure of the root is the root with the closures of the asked goals, and nothing else.
pub fn root_reaches_all_closures<E: Expand>()
    ensures { RootReachesAllClosures E.answers }
{}

/// The closure of the root has one goal more than the union of the closures of the asked goals, and a rule more for
/// each asked goal: it passes limits that are so much greater if and only if the union passes the limits.
pub fn root_adds_itself<E: Expand>()
    ensures { RootAddsItself E.answers }
{}

/// The rows that a caller gets for a goal are those that a table for this goal alone comes to, whatever its history,
/// once they are renumbered breadth first.
pub fn canonical_rows_are_from_scratch<E: Expand>()
    ensures { (tag : E.Tag) → CanonicalRowsAreFromScratch E.Goal.eq (E.answers tag) }
{}
