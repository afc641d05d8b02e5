ghost use Rattle.std.specs.Prelude.{◌≡◌, IfOk, IfSome, IfNone};

use cls_base::OutOfMemory;
use cls_core::{Answer, Expand};
use std::alloc::Global;

/// Holds answers of goals that were worked on before, all by expanders of one meaning.
pub trait Memo<E: Expand> {
    ghost tag: { Self → E.Tag };

    /// Whether the goal's answer is held.
    ghost holds: { Self → E.Goal → Type 0 };

    /// The answer that the expander means for the goal, None if and only if the goal isn't held. The only error is out of
    /// memory.
    fn answer(
        &self,
        alloc: Global,
        by: &E,
        goal: &E::Goal,
    ) -> Result<Option<Answer<E::Goal>>, OutOfMemory>
        requires tag { E.tag by.now ≡ tag self.now }
        requires ready { E.ready (E.tag by.now) goal.now }
        ensures held { IfOk result (λ answer. IfSome answer (λ _. holds self.now goal.now)) }
        ensures meant { IfOk result (λ answer. IfSome answer (λ a. E.answers (E.tag by.now) goal.now a)) }
        ensures none { IfOk result (λ answer. IfNone answer (holds self.now goal.now → ⊥)) };
}
