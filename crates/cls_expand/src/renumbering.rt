//! Other numbers in place of the numbers of an answer.
ghost use Rattle.std.specs.Prelude.{◌≡◌, IfOk, map, slice_index_or};
ghost use Rattle.cls_core.specs.Arguments.{map_answer};

use cls_base::OutOfMemory;
use cls_core::NodeAnswer;
use std::alloc::Global;

/// The number at this place, or 0 if there is none.
fn at(numbers: &[u32], place: u32) -> u32
    ensures { result ≡ slice_index_or numbers.now place 0 }
{
    numbers.get(place as usize).copied().unwrap_or(0)
}

/// The numbers at these places, and 0 for one that there is none at.
fn all_at(alloc: Global, numbers: &[u32], places: &[u32]) -> Result<Vec<u32>, OutOfMemory>
    ensures { IfOk result (λ found. found.items ≡ map (λ i. slice_index_or numbers.now i 0) places.now) }
{
    let mut found = Vec::with_capacity(alloc, places.len())?;
    for place in places {
        found.push(at(numbers, *place))?;
    }
    Ok(found)
}

/// The answer with the number at its place for each of its numbers, and with 0 for one beyond them. The only error is
/// out of memory.
pub(crate) fn renumber_answer(
    alloc: Global,
    numbers: &[u32],
    answer: &NodeAnswer,
) -> Result<NodeAnswer, OutOfMemory>
    ensures { IfOk result (λ found. found ≡ map_answer (λ i. slice_index_or numbers.now i 0) answer.now) }
{
    let Some(rules) = answer.rules() else {
        return Ok(NodeAnswer::wide());
    };
    let found = all_at(alloc, numbers, rules.arguments())?;
    Ok(NodeAnswer::new(rules.with_arguments(alloc, found)?))
}
