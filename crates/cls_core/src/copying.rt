//! Copies of the rows.
ghost use Rattle.std.specs.Prelude.{◌≡◌, IfOk};

use crate::state::RowState;
use cls_base::{Key, OutOfMemory};
use indexmap::IndexSet;
use std::alloc::Global;

fn copy_state(alloc: Global, state: &RowState) -> Result<RowState, OutOfMemory>
    ensures { IfOk result (λ s. s ≡ state.now) }
{
    match state {
        RowState::Free => Ok(RowState::Free),
        RowState::Held(worker) => Ok(RowState::Held(*worker)),
        RowState::Filed(answer) => Ok(RowState::Filed(answer.copy(alloc)?)),
    }
}

/// The states of rows, copied. The only error is out of memory.
pub(crate) fn copy_states(alloc: Global, states: &[RowState]) -> Result<Vec<RowState>, OutOfMemory>
    ensures { IfOk result (λ s. s.items ≡ states.now) }
{
    let mut copies = Vec::with_capacity(alloc, states.len())?;
    for state in states {
        copies.push(copy_state(alloc, state)?)?;
    }
    Ok(copies)
}

/// The goals of rows, copied in their order. The only error is out of memory.
pub(crate) fn copy_goals<G: Key + Drop>(
    alloc: Global,
    goals: &IndexSet<G>,
) -> Result<IndexSet<G>, OutOfMemory>
    ensures { IfOk result (λ s. s.keys ≡ goals.now.keys) }
{
    let mut copies: IndexSet<G> = IndexSet::with_capacity(alloc, goals.len())?;
    for goal in goals.as_slice() {
        copies.insert(goal.copy(alloc)?)?;
    }
    Ok(copies)
}
