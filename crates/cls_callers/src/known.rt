//! The rows of a finished table, found by their goals.
ghost use Rattle.std.specs.Prelude.{◌≡◌, IfOk, length};

use crate::goal::AskGoal;
use crate::naming::{Names, name_answer};
use cls_base::{Key, OutOfMemory};
use cls_core::{Answer, NodeAnswer, Rows};
use indexmap::IndexSet;
use std::alloc::Global;
use std::marker::Model;

/// The goals of rows.
#[derive(Drop)]
struct RowGoals<'a, G> {
    goals: &'a [AskGoal<G>],
    // It stands for the root, and for a number that no row has.
    other: &'a G,
}

impl<G> RowGoals<'_, G> {
    ghost use Rattle.cls_callers.specs.Known.{goal_at};

    // The goal of the row, or the other one.
    fn goal(&self, row: u32) -> &G
        ensures { result.now ≡ goal_at self.now.goals.now self.now.other.now row }
    {
        match self.goals.get(row as usize) {
            Some(goal) => match goal {
                AskGoal::Root => self.other,
                AskGoal::Of(goal) => goal,
            },
            None => self.other,
        }
    }
}

impl<G: Key + Drop> Names for RowGoals<'_, G> {
    ghost use Rattle.cls_callers.specs.Known.{goal_at};

    type Goal = G;

    ghost named = { λ r. goal_at r.goals.now r.other.now };

    fn name(&self, alloc: Global, number: u32) -> Result<G, OutOfMemory> {
        self.goal(number).copy(alloc)
    }
}

/// Rows that are all filed, seen as the list of their goals with their answers. A row is found by its goal.
#[derive(Drop)]
pub(crate) struct Known<G: Key + Drop> {
    goals: IndexSet<AskGoal<G>>,
    // The answer of each goal.
    answers: Vec<NodeAnswer>,
    count: u32,
}

impl<G: Key + Drop> Model for Known<G> {
    ghost use Rattle.std.specs.Prelude.{List};
    ghost use Rattle.cls_core.specs.Rows.{Row};
    ghost use Rattle.cls_callers.specs.declared.goal.AskGoal.{AskGoal};
    ghost use Rattle.cls_callers.specs.Known.{AreKnown, answered_rows};

    ghost Value = { List (Row (AskGoal G)) };

    ghost view = { λ k. answered_rows k.goals.keys k.answers.items };

    ghost invariant = { λ k. AreKnown k.goals.keys k.answers.items k.count };
}

impl<G: Key + Drop> Known<G> {
    ghost use Rattle.cls_callers.specs.Known.{IsKnownAnswer};

    /// These rows. The only error is out of memory.
    pub fn new(alloc: Global, rows: Rows<AskGoal<G>>) -> Result<Known<G>, OutOfMemory>
        ensures { IfOk result (λ known. known ≡ rows) }
    {
        let count = rows.count();
        let (goals, answers) = rows.into_parts(alloc)?;
        Ok(Known {
            goals,
            answers,
            count,
        })
    }

    /// The number of rows.
    pub fn count(&self) -> u32
        ensures { result ≡ length self.now }
    {
        self.count
    }

    /// The answer that the goal's row holds, with goals in place of numbers. A goal that has no row is taken for a wide
    /// one. The only error is out of memory.
    pub fn answer(&self, alloc: Global, goal: &G) -> Result<Answer<G>, OutOfMemory>
        ensures { IfOk result (IsKnownAnswer G.eq self.now goal.now) }
    {
        let asked = AskGoal::Of(goal.copy(alloc)?);
        let Some(row) = self.goals.get_index_of(&asked) else {
            return Ok(Answer::Wide);
        };
        let names = RowGoals {
            goals: self.goals.as_slice(),
            other: goal,
        };
        name_answer(alloc, &names, &self.answers[row])
    }
}
