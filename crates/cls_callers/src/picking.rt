//! Takes the closure of a goal out of rows that hold it: works it off once more, in a core of its own.
ghost use Rattle.std.specs.Prelude.{◌≡◌, ◌<◌, ◌≤◌, Some, IfOk, OnOk, length, slice_get};
ghost use Rattle.cls_core.specs.Canonical.{IsCanonical};
ghost use Rattle.cls_core.specs.Closure.{HasMoreGoals};
ghost use Rattle.cls_core.specs.declared.state.RowState.TheVariants.{Free};
ghost use Rattle.cls_callers.specs.Known.{IsKnownAnswer, IsWorkedOff, known_answer};

use crate::known::Known;
use cls_base::{Key, OutOfMemory};
use cls_core::{Core, Filing, Rows};
use std::alloc::Global;

/// Claims the row, and files it with the answer that its goal has among the known rows. It does nothing if there is no
/// such row.
fn work_off<G: Key + Drop>(
    alloc: Global,
    known: &Known<G>,
    core: &mut Core<G>,
    row: u32,
) -> Result<(), OutOfMemory>
    requires { row < length core.old.rows.goals → slice_get core.old.rows.states row ≡ Some Free }
    ensures done { OnOk result ((g : G) → slice_get core.old.rows.goals row ≡ Some g
        → IsWorkedOff G.eq core.old row (known_answer G.eq known.now g) core.new) }
    ensures past { OnOk result (length core.old.rows.goals ≤ row → core.new ≡ core.old) }
{
    if row >= core.count() {
        return Ok(());
    }
    core.claim(0, row)?;
    let answer = known.answer(alloc, core.goal(row))?;
    // More rules than can be counted don't fit into memory.
    if answer.rule_count() as u64 > u64::MAX - core.rules() {
        return Err(OutOfMemory);
    }
    match core.file(alloc, 0, row, answer, u32::MAX) {
        Ok(Filing::Kept(_)) => Ok(()),
        _ => Err(OutOfMemory),
    }
}

/// The closure of the start goal in its canonical numbering, by the answers of the known rows, of which there are as
/// many as it has goals, or more. The only error is out of memory.
pub(crate) fn pick<G: Key + Drop>(
    alloc: Global,
    known: &Known<G>,
    start: &G,
) -> Result<Rows<G>, OutOfMemory>
    requires { HasMoreGoals (IsKnownAnswer G.eq known.now) start.now (length known.now) → ⊥ }
    ensures { IfOk result (IsCanonical G.eq (IsKnownAnswer G.eq known.now) start.now) }
{
    let mut core = Core::enter(alloc, start.copy(alloc)?)?;
    for row in 0..known.count() {
        work_off(alloc, known, &mut core, row)?;
    }
    match core.finish() {
        Ok(finished) => Ok(finished.rows),
        Err(_) => unreachable!(),
    }
}
