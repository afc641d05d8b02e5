ghost use Rattle.std.specs.Prelude.{◌≡◌};

use crate::memo::Memo;
use cls_base::OutOfMemory;
use cls_core::{Answer, Expand, TypedExpand};
use std::alloc::Global;
use std::marker::Model;

/// An expander that asks a memo first, and works on the goals that aren't held. It means what its expander means, and is
/// seen as that.
#[derive(Drop)]
pub struct Stored<'a, E: Expand, M: Memo<E>> {
    by: &'a E,
    memo: &'a M,
}

impl<'a, E: Expand, M: Memo<E>> Model for Stored<'a, E, M> {
    ghost use Rattle.std.specs.Prelude.{◌≡◌};

    ghost Value = { E.Tag };

    ghost view = { λ s. E.tag s.by.now };

    ghost invariant = { λ s. E.tag s.by.now ≡ M.tag s.memo.now };
}

impl<'a, E: Expand, M: Memo<E>> Stored<'a, E, M> {
    /// The expander with the memo. It takes no memory.
    pub fn new(by: &'a E, memo: &'a M) -> Stored<'a, E, M>
        requires { E.tag by.now ≡ M.tag memo.now }
        ensures { result ≡ E.tag by.now }
    {
        Stored { by, memo }
    }
}

impl<E: Expand, M: Memo<E>> Expand for Stored<'_, E, M> {
    type Goal = E::Goal;

    type Tag = E::Tag;

    ghost tag = { λ t. t };

    ghost answers = { E.answers };

    ghost ready = { E.ready };

    fn expand(&self, alloc: Global, goal: &E::Goal) -> Result<Answer<E::Goal>, OutOfMemory> {
        match self.memo.answer(alloc, self.by, goal)? {
            Some(answer) => Ok(answer),
            None => self.by.expand(alloc, goal),
        }
    }

    ghost one_answer = { E.one_answer };

    ghost arguments_ready = { E.arguments_ready };
}

impl<E: TypedExpand, M: Memo<E>> TypedExpand for Stored<'_, E, M> {
    ghost has = { E.has };

    ghost rules = { E.rules };
}
