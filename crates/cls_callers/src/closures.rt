ghost use Rattle.std.specs.Prelude.{◌≡◌, ◌≤◌, IfOk, length};

use crate::asked::Asked;
use crate::goal::AskGoal;
use crate::known::Known;
use crate::picking::pick;
use cls_base::OutOfMemory;
use cls_core::{Expand, Rows};
use std::alloc::Global;
use std::marker::Model;

/// The closures of asked goals, in the rows of the closure of their root. It is seen as what the asked goals mean.
#[derive(Drop)]
pub struct AskedClosures<'a, 'e, E: Expand> {
    by: &'a Asked<'e, E>,
    known: Known<E::Goal>,
}

impl<'a, 'e, E: Expand> Model for AskedClosures<'a, 'e, E> {
    ghost use Rattle.cls_core.specs.Closure.{IsClosure};
    ghost use Rattle.cls_callers.specs.declared.goal.AskGoal.TheVariants.{Root};
    ghost use Rattle.cls_callers.specs.declared.tag.AskTag.{AskTag};
    ghost use Rattle.cls_callers.specs.AskGoals.{ask_eq};
    ghost use Rattle.cls_callers.specs.Asking.{IsAskAnswer};

    ghost Value = { AskTag E.Tag E.Goal };

    ghost view = { λ c. c.by.now };

    ghost invariant = { λ c. IsClosure (ask_eq E.Goal.eq) (IsAskAnswer E.answers c.by.now) Root c.known };
}

impl<'a, 'e, E: Expand> AskedClosures<'a, 'e, E> {
    ghost use Rattle.cls_core.specs.Closure.{IsClosure};
    ghost use Rattle.cls_callers.specs.declared.goal.AskGoal.TheVariants.{Root};
    ghost use Rattle.cls_callers.specs.AskGoals.{ask_eq};
    ghost use Rattle.cls_callers.specs.Asking.{IsAskAnswer, IsAskedClosure};

    /// Those in the rows, which are the closure of the root of the asked goals. The only error is out of memory.
    pub fn new(
        alloc: Global,
        by: &'a Asked<'e, E>,
        rows: Rows<AskGoal<E::Goal>>,
    ) -> Result<AskedClosures<'a, 'e, E>, OutOfMemory>
        requires { IsClosure (ask_eq E.Goal.eq) (IsAskAnswer E.answers by.now) Root rows }
        ensures { IfOk result (λ closures. closures ≡ by.now) }
    {
        let known = Known::new(alloc, rows)?;
        Ok(AskedClosures { by, known })
    }

    /// The closure of the asked goal with this number, the first being 1, in its canonical numbering, each goal with
    /// its answer. The only error is out of memory.
    pub fn get(&self, alloc: Global, k: u32) -> Result<Rows<E::Goal>, OutOfMemory>
        requires { (1 ≤ k) × (k ≤ length self.now.goals) }
        ensures { IfOk result (IsAskedClosure E.Goal.eq E.answers self.now k) }
    {
        pick(alloc, &self.known, self.by.goal(k))
    }
}
