ghost use Rattle.std.specs.Prelude.{◌≡◌, ◌<◌, Some, length, map, slice_get, option_map, IfOk};
ghost use Rattle.cls_core.specs.Closure.{goals_of};
ghost use Rattle.cls_core.specs.Machine.{EachFiled};
ghost use Rattle.cls_core.specs.Rows.{answers_in};

use crate::entry::History;
use crate::node_answer::NodeAnswer;
use crate::state::RowState;
use cls_base::{Key, OutOfMemory};
use indexmap::IndexSet;
use std::alloc::Global;
use std::marker::Model;

/// Rows that are all filed, seen as the list of their goals with their answers. The goals of the answers are numbers of
/// rows.
#[derive(Drop)]
pub struct Rows<G: Key + Drop> {
    goals: IndexSet<G>,
    states: Vec<RowState>,
}

impl<G: Key + Drop> Model for Rows<G> {
    ghost use Rattle.std.specs.Prelude.{List};
    ghost use Rattle.cls_core.specs.Consistency.{AreFinished};
    ghost use Rattle.cls_core.specs.Rows.{Row, machine, filed_rows};

    ghost Value = { List (Row G) };

    ghost view = { λ r. filed_rows r.goals.keys r.states.items };

    ghost invariant = { λ r. AreFinished (machine r.goals.keys r.states.items) };
}

impl<G: Key + Drop> Rows<G> {
    ghost use Rattle.std.specs.Prelude.{◌^◌};
    ghost use Rattle.cls_core.specs.Rows.{Row, filed_rows};

    // Rows that are filed already.
    pub(crate) fn of(goals: IndexSet<G>, states: Vec<RowState>) -> Rows<G>
        requires paired { length states.items ≡ length goals.keys }
        requires small { length goals.keys < 2 ^ 32 }
        requires filed { EachFiled states.items }
        ensures { result ≡ filed_rows goals.keys states.items }
    {
        Rows { goals, states }
    }

    /// The number of rows.
    pub fn count(&self) -> u32
        ensures { result ≡ length self.now }
    {
        self.states.len() as u32
    }

    /// The row's goal.
    pub fn goal(&self, row: u32) -> &G
        requires { row < length self.now }
        ensures { option_map (λ (r : Row G). r.goal) (slice_get self.now row) ≡ Some result.now }
    {
        self.goals.get_index(row as usize).unwrap()
    }

    /// The row's answer, whose goals are numbers of rows.
    pub fn answer(&self, row: u32) -> &NodeAnswer
        requires { row < length self.now }
        ensures { option_map (λ (r : Row G). r.answer) (slice_get self.now row) ≡ Some result.now }
    {
        match &self.states[row as usize] {
            RowState::Filed(answer) => answer,
            _ => unreachable!(),
        }
    }

    /// The goals of the rows, and their answers beside them. The only error is out of memory.
    pub fn into_parts(self, alloc: Global) -> Result<(IndexSet<G>, Vec<NodeAnswer>), OutOfMemory>
        ensures goals { IfOk result (λ parts. parts.0.keys ≡ goals_of self) }
        ensures answers { IfOk result (λ parts. parts.1.items ≡ map (λ (r : Row G). r.answer) self) }
    {
        let Rows { goals, states } = self;
        let answers = answers_of(alloc, states)?;
        Ok((goals, answers))
    }
}

/// The answers of the states that are filed.
fn answers_of(alloc: Global, states: Vec<RowState>) -> Result<Vec<NodeAnswer>, OutOfMemory>
    ensures { IfOk result (λ answers. answers.items ≡ answers_in states.items) }
{
    let mut answers = Vec::with_capacity(alloc, states.len())?;
    for state in states {
        if let RowState::Filed(answer) = state {
            answers.push(answer)?;
        }
    }
    Ok(answers)
}

/// What is left of a core whose rows are all filed.
#[derive(Drop)]
pub struct Finished<G: Key + Drop> {
    /// The rows, each with its goal and its answer.
    pub rows: Rows<G>,
    /// The events that led to them.
    pub history: History,
}
