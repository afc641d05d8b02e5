//! What holds of every history, as calls that do nothing and promise the law. The answers are those that any tag of an
//! expander means.
ghost use Rattle.cls_core.specs.Laws.{HistoriesStayInTheClosure, CompleteHistoriesAreTheClosure, CompleteHistoriesAgree, TheCanonicalRowsAreOne, RenumberedRowsAreCanonical, RenumberedClosuresAreCanonical, RenumberedRowsAgree, CanonicalRowsAreTheClosure, CompleteHistoriesMakeGrammars};

use crate::expand::Expand;

/// In a legal history the rows' goals are distinct and lie in the closure of the start goal. Each row is claimed at
/// most once and filed at most once.
pub fn histories_stay_in_the_closure<E: Expand>()
    ensures { (tag : E.Tag) → HistoriesStayInTheClosure E.Goal.eq (E.answers tag) }
{}

/// The rows of a legal complete history are the closure of the start goal, each with an answer of its goal. Each row is
/// claimed once and filed once.
pub fn complete_histories_are_the_closure<E: Expand>()
    ensures { (tag : E.Tag) → CompleteHistoriesAreTheClosure E.Goal.eq (E.answers tag) }
{}

/// Two legal complete histories of one goal have rows for the same goals.
pub fn complete_histories_agree<E: Expand>()
    ensures { (tag : E.Tag) → CompleteHistoriesAgree E.Goal.eq (E.answers tag) }
{}

/// A closure has at most one list of rows in the canonical numbering: breadth first from the start goal, in the order
/// of rules and of arguments within a rule.
pub fn the_canonical_rows_are_one<E: Expand>()
    ensures { (tag : E.Tag) → TheCanonicalRowsAreOne E.Goal.eq (E.answers tag) }
{}

/// The rows of a legal complete history, renumbered breadth first from the first one, are the closure of the start goal
/// in its canonical numbering.
pub fn renumbered_rows_are_canonical<E: Expand>()
    ensures { (tag : E.Tag) → RenumberedRowsAreCanonical E.Goal.eq (E.answers tag) }
{}

/// The rows of a closure that are found from any of them, renumbered breadth first, are the closure of its goal in its canonical
/// numbering.
pub fn renumbered_closures_are_canonical<E: Expand>()
    ensures { (tag : E.Tag) → RenumberedClosuresAreCanonical E.Goal.eq (E.answers tag) }
{}

/// Renumbered, the rows of two legal complete histories of one goal are the same.
pub fn renumbered_rows_agree<E: Expand>()
    ensures { (tag : E.Tag) → RenumberedRowsAgree E.Goal.eq (E.answers tag) }
{}

/// Rows in the canonical numbering are the closure of the start goal.
pub fn canonical_rows_are_the_closure<E: Expand>()
    ensures { (tag : E.Tag) → CanonicalRowsAreTheClosure E.Goal.eq (E.answers tag) }
{}

/// The rows of a legal complete history make a tree grammar, as they stand and renumbered. The first row is the start
/// goal's, the goals are distinct, each argument is the number of a row, and each row is reached from the first one by
/// arguments.
pub fn complete_histories_make_grammars<E: Expand>()
    ensures { (tag : E.Tag) → CompleteHistoriesMakeGrammars E.Goal.eq (E.answers tag) }
{}
