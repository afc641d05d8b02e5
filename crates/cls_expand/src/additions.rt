//! What a store lacks of rows: the goals that it doesn't hold, each once, with their answers in numbers of the store.
ghost use Rattle.std.specs.Prelude.{◌≡◌, ℕ, ◌+◌, ◌<◌, ◌≤◌, ◌^◌, ◌++◌, [], IfOk, length, map, slice_index_or};
ghost use Rattle.std.specs.List.{position_or_len};
ghost use Rattle.indexmap.specs.IndexSet.{insert_key, insert_all};
ghost use Rattle.cls_core.specs.declared.answer.Answer.{Answer as AnswerOf};
ghost use Rattle.cls_core.specs.Arguments.{map_answer};
ghost use Rattle.cls_core.specs.Closure.{goals_of};
ghost use Rattle.cls_core.specs.Numbers.{numbers_from};
ghost use Rattle.cls_expand.specs.Memos.{placed, newcomers, rules_together};

use crate::renumbering::renumber_answer;
use cls_base::{Key, OutOfMemory};
use cls_core::{NodeAnswer, Rows};
use indexmap::IndexSet;
use std::alloc::Global;

/// Goals with their answers.
#[derive(Drop)]
pub(crate) struct Additions<G: Key + Drop> {
    pub(crate) goals: IndexSet<G>,
    pub(crate) answers: Vec<NodeAnswer>,
}

/// The number of a goal. It is added unless it is among the goals or those that were added before.
fn number_goal<G: Key + Drop>(
    alloc: Global,
    goals: &IndexSet<G>,
    added: &mut IndexSet<G>,
    goal: &G,
) -> Result<u32, OutOfMemory>
    requires room { length (insert_key G.eq (goals.now.keys ++ added.old.keys) goal.now) < 2 ^ 32 }
    ensures added { IfOk result (λ _. goals.now.keys ++ added.new.keys
        ≡ insert_key G.eq (goals.now.keys ++ added.old.keys) goal.now) }
    ensures number { IfOk result (λ n. n ≡ position_or_len (G.eq goal.now) (goals.now.keys ++ added.old.keys)) }
{
    if let Some(number) = goals.get_index_of(goal) {
        return Ok(number as u32);
    }
    let (place, _) = added.insert_full(goal.copy(alloc)?)?;
    Ok((goals.len() + place) as u32)
}

/// The numbers that the goals of the rows get, if those that aren't among the goals are put behind them, and these. The only
/// error is out of memory.
pub fn number_rows<G: Key + Drop>(
    alloc: Global,
    goals: &IndexSet<G>,
    rows: &Rows<G>,
) -> Result<(Vec<u32>, IndexSet<G>), OutOfMemory>
    requires room { length (insert_all G.eq goals.now.keys (goals_of rows.now)) < 2 ^ 32 }
    ensures numbers { IfOk result (λ r. r.0.items ≡ numbers_from G.eq goals.now.keys (goals_of rows.now)) }
    ensures added { IfOk result (λ r. goals.now.keys ++ r.1.keys ≡ insert_all G.eq goals.now.keys (goals_of rows.now)) }
{
    let mut added = IndexSet::new(alloc);
    let mut numbers = Vec::new(alloc);
    for row in 0..rows.count() {
        numbers.push(number_goal(alloc, goals, &mut added, rows.goal(row))?)?;
    }
    Ok((numbers, added))
}

/// The answers of the rows whose goals aren't among the goals, in the rows' new numbers.
fn new_answers<G: Key + Drop>(
    alloc: Global,
    goals: &IndexSet<G>,
    rows: &Rows<G>,
    numbers: &[u32],
) -> Result<Vec<NodeAnswer>, OutOfMemory>
    requires numbers { numbers.now ≡ numbers_from G.eq goals.now.keys (goals_of rows.now) }
    requires room { length (insert_all G.eq goals.now.keys (goals_of rows.now)) < 2 ^ 32 }
    ensures { IfOk result (λ answers. answers.items
        ≡ newcomers G.eq (λ a. map_answer (λ i. slice_index_or numbers.now i 0) a) goals.now.keys rows.now) }
{
    let mut answers = Vec::new(alloc);
    for row in 0..rows.count() {
        // A goal that isn't there yet has the next number.
        if numbers[row as usize] as usize == goals.len() + answers.len() {
            answers.push(renumber_answer(alloc, numbers, rows.answer(row))?)?;
        }
    }
    Ok(answers)
}

impl<G: Key + Drop> Additions<G> {
    /// What the goals lack of the rows. The only error is out of memory.
    pub(crate) fn of(
        alloc: Global,
        goals: &IndexSet<G>,
        rows: &Rows<G>,
    ) -> Result<Additions<G>, OutOfMemory>
        requires room { length (insert_all G.eq goals.now.keys (goals_of rows.now)) < 2 ^ 32 }
        ensures goals { IfOk result (λ more.
            goals.now.keys ++ more.goals.keys ≡ insert_all G.eq goals.now.keys (goals_of rows.now)) }
        ensures answers { IfOk result (λ more. more.answers.items ≡ newcomers G.eq
            (placed G.eq (insert_all G.eq goals.now.keys (goals_of rows.now)) rows.now) goals.now.keys rows.now) }
    {
        let (numbers, added) = number_rows(alloc, goals, rows)?;
        let answers = new_answers(alloc, goals, rows, numbers.as_slice())?;
        Ok(Additions {
            goals: added,
            answers,
        })
    }
}
