//! A copy of what is told of the sizes of terms.
ghost use Rattle.std.specs.Prelude.{◌≡◌, IfOk};

use cls_base::OutOfMemory;
use cls_finite::{FiniteAnswer, Walk};
use std::alloc::Global;

/// A copy of the walk. The only error is out of memory.
fn copy_of_walk(alloc: Global, walk: &Walk) -> Result<Walk, OutOfMemory>
    ensures { IfOk result (λ copy. copy ≡ walk.now) }
{
    Ok(Walk::new(Vec::from_slice(alloc, walk.as_slice())?))
}

/// A copy of the answer. The only error is out of memory.
pub(crate) fn copy_of(alloc: Global, answer: &FiniteAnswer) -> Result<FiniteAnswer, OutOfMemory>
    ensures { IfOk result (λ copy. copy ≡ answer.now) }
{
    match answer {
        FiniteAnswer::Finite(size) => Ok(FiniteAnswer::Finite(*size)),
        FiniteAnswer::Over => Ok(FiniteAnswer::Over),
        FiniteAnswer::Infinite(walk) => Ok(FiniteAnswer::Infinite(copy_of_walk(alloc, walk)?)),
    }
}
