ghost use Rattle.std.specs.Prelude.{IfOk};

use crate::answer::Answer;
use cls_base::{Key, OutOfMemory};
use std::alloc::Global;

/// Works on goals: finds the answer of each.
///
/// What it means is its tag, plain data that exists in contracts alone. `answers` says which answer a tag means for a
/// goal, if any, and `ready` says which goals can be worked on by it.
pub trait Expand {
    ghost use Rattle.cls_core.specs.declared.answer.Answer.{Answer};
    ghost use Rattle.cls_core.specs.Arguments.{HasUniqueAnswers, ArgumentsAreReady};

    /// What is worked on.
    type Goal: Key + Drop;

    /// What the tag is a value of. No value of it is made.
    type Tag;

    ghost tag: { Self → Self.Tag };

    ghost answers: { Self.Tag → Self.Goal → Answer Self.Goal → Type 0 };

    ghost ready: { Self.Tag → Self.Goal → Type 0 };

    /// The answer that the tag means for the goal. The only error is out of memory.
    fn expand(&self, alloc: Global, goal: &Self::Goal) -> Result<Answer<Self::Goal>, OutOfMemory>
        requires { ready (tag self.now) goal.now }
        ensures { IfOk result (λ a. answers (tag self.now) goal.now a) };

    // A goal has at most one answer.
    ghost one_answer: { (t : Self.Tag) → HasUniqueAnswers (answers t) };

    // The goals of an answer can be worked on again.
    ghost arguments_ready: { (t : Self.Tag) → ArgumentsAreReady (ready t) (answers t) };
}
