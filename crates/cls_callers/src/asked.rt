ghost use Rattle.std.specs.Prelude.{◌≡◌, ◌<◌, ◌≤◌, ◌-◌, Some, length, slice_get};

use crate::goal::AskGoal;
use crate::tag::AskTag;
use crate::wrapping::{asked_answer, root_rules};
use cls_base::{Goals, OutOfMemory};
use cls_core::{Answer, Expand};
use std::alloc::Global;
use std::marker::Model;

/// An expander with goals that are asked, at least one and at most 64 (`max_asked`). It works on the root, whose rules
/// lead to these goals, and on the goals of its expander.
#[derive(Drop)]
pub struct Asked<'e, E: Expand> {
    by: &'e E,
    goals: Goals<E::Goal>,
}

impl<'e, E: Expand> Model for Asked<'e, E> {
    ghost use Rattle.cls_callers.specs.declared.tag.AskTag.{AskTag};
    ghost use Rattle.cls_callers.specs.Asking.{AreAsked};

    ghost Value = { AskTag E.Tag E.Goal };

    ghost view = { λ a. record { by = E.tag a.by.now; goals = a.goals } };

    ghost invariant = { λ a. AreAsked E.ready (record { by = E.tag a.by.now; goals = a.goals }) };
}

impl<'e, E: Expand> Asked<'e, E> {
    ghost use Rattle.cls_callers.specs.Asking.{AreAsked};

    /// The expander with these goals. It takes no memory.
    pub fn new(by: &'e E, goals: Goals<E::Goal>) -> Asked<'e, E>
        requires { AreAsked E.ready (record { by = E.tag by.now; goals = goals }) }
        ensures { result ≡ record { by = E.tag by.now; goals = goals } }
    {
        Asked { by, goals }
    }

    /// Does nothing, and says what holds of the goals: there are some, not too many, and all can be worked on.
    pub fn facts(&self)
        ensures { AreAsked E.ready self.now }
    {
        // For the prover: opens the model.
        let _ = &self.goals;
    }

    // The asked goal with this number, the first being 1.
    pub(crate) fn goal(&self, k: u32) -> &E::Goal
        requires { (1 ≤ k) × (k ≤ length self.now.goals) }
        ensures { slice_get self.now.goals (k - 1) ≡ Some result.now }
    {
        &self.goals.as_slice()[k as usize - 1]
    }
}

impl<E: Expand> Expand for Asked<'_, E> {
    ghost use Rattle.cls_callers.specs.Asking.{IsAskAnswer, IsAskReady};
    ghost use Rattle.cls_callers.specs.AskLaws.{one_ask_answer, ask_arguments_ready};

    type Goal = AskGoal<E::Goal>;

    type Tag = AskTag<E::Tag, E::Goal>;

    ghost tag = { λ t. t };

    ghost answers = { IsAskAnswer E.answers };

    ghost ready = { IsAskReady E.ready };

    fn expand(
        &self,
        alloc: Global,
        goal: &AskGoal<E::Goal>,
    ) -> Result<Answer<AskGoal<E::Goal>>, OutOfMemory> {
        match goal {
            AskGoal::Root => Ok(Answer::Rules(root_rules(alloc, self.goals.as_slice())?)),
            AskGoal::Of(goal) => asked_answer(alloc, goal, self.by.expand(alloc, goal)?),
        }
    }

    ghost one_answer = { one_ask_answer E.answers E.one_answer };

    ghost arguments_ready = { ask_arguments_ready E.answers E.ready E.arguments_ready };
}
