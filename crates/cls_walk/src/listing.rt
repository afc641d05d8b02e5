//! The codes of one size.
ghost use Rattle.std.specs.Prelude.{◌≡◌, ℕ, true, false, ◌≤◌, [], ◌∷◌, List, length, IfOk};
ghost use Rattle.cls_base.specs.Limits.{max_term_length};
ghost use Rattle.cls_base.specs.declared.rule.Rule.{Rule};
ghost use Rattle.cls_term.specs.Costs.{cost_of};
ghost use Rattle.cls_walk.specs.FrameGuides.{IsGuide};
ghost use Rattle.cls_walk.specs.FrameWalks.{IsDueOn};
ghost use Rattle.cls_walk.specs.Filled.{EachRise};
ghost use Rattle.cls_walk.specs.Stretches.{Remembers};
ghost use Rattle.cls_walk.specs.Walks.{IsBack, IsWanted, Lists};

use crate::cursor::Cursor;
use crate::least::number_of;
use crate::plan::Plan;
use crate::stroll::stroll;
use crate::walk::{Walk, each_form, recall};
use cls_base::OutOfMemory;
use std::alloc::Global;

/// Lists the codes of terms of node 0 that have this size, and says whether to go on. Where forms of a node may begin
/// alike, it goes by frames, and lists those of the guide's start.
pub(crate) fn list_size(
    alloc: Global,
    plan: &Plan,
    walk: &mut Walk,
    size: u32,
    cursor: Cursor,
) -> Result<bool, OutOfMemory>
    requires none { walk.old.awaited.items ≡ [] }
    requires rising { plan.now.is_rising ≡ true → EachRise plan.now.forms.now }
    requires few { length walk.old.codes ≤ plan.now.take }
    requires known { Remembers plan.now walk.old }
    ensures back { IfOk result (IsBack plan.now walk.old walk.new) }
    ensures by_forms { plan.now.is_rising ≡ true
        → IfOk result (Lists (IsWanted plan.now (0 ∷ []) size cursor.entry) walk.old walk.new) }
    ensures by_frames { plan.now.is_rising ≡ false → (book : List (List (Rule ℕ)))
        → let cost = cost_of plan.now.costs.now in IsGuide book cost plan.now.guide
        → let IsListed = IsDueOn book cost plan.now.guide.start [] size max_term_length cursor.entry in
        IfOk result (Lists IsListed walk.old walk.new) }
{
    if !plan.is_rising {
        return stroll(alloc, plan, walk, size, cursor);
    }
    let least = number_of(plan.least, 0);
    if size < least {
        return Ok(true);
    }
    if size > least && cursor.passed {
        return recall(plan, walk, 0, size - least, cursor);
    }
    each_form(plan, walk, 0, size - least, cursor)
}
