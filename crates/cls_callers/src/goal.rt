use cls_base::{Key, OutOfMemory};
use std::alloc::Global;
use std::hash::{Hash, Hasher};

/// What is worked on at a table at which several goals are asked.
#[derive(Drop)]
pub enum AskGoal<G> {
    /// The root. It has one rule for each asked goal.
    Root,
    /// A goal, which has the rules of its own expander.
    Of(G),
}

impl<G: PartialEq> PartialEq for AskGoal<G> {
    ghost use Rattle.cls_callers.specs.AskGoals.{ask_eq, ask_partial};

    ghost eq = { ask_eq G.eq };

    fn eq(&self, other: &Self) -> bool {
        match self {
            AskGoal::Root => match other {
                AskGoal::Root => true,
                AskGoal::Of(_) => false,
            },
            AskGoal::Of(goal) => match other {
                AskGoal::Root => false,
                AskGoal::Of(second) => goal.eq(second),
            },
        }
    }

    ghost laws = { ask_partial G.laws };
}

impl<G: Eq> Eq for AskGoal<G> {
    ghost use Rattle.cls_callers.specs.AskGoals.{ask_equivalence};

    ghost laws = { ask_equivalence G.Eq.laws };
}

impl<G: Hash> Hash for AskGoal<G> {
    ghost use Rattle.cls_callers.specs.AskGoals.{ask_writes, ask_alike};

    ghost hash_input = { ask_writes G.hash_input };

    fn hash<H: Hasher>(&self, state: &mut H) {
        match self {
            AskGoal::Root => state.write_u8(0),
            AskGoal::Of(goal) => {
                state.write_u8(1);
                goal.hash(state);
            }
        }
    }

    ghost respects_eq = { ask_alike G.eq G.hash_input G.respects_eq };
}

impl<G: Key> Key for AskGoal<G> {
    ghost use Rattle.cls_callers.specs.AskGoals.{ask_exact};

    fn copy(&self, alloc: Global) -> Result<AskGoal<G>, OutOfMemory> {
        match self {
            AskGoal::Root => Ok(AskGoal::Root),
            AskGoal::Of(goal) => Ok(AskGoal::Of(goal.copy(alloc)?)),
        }
    }

    ghost exact = { ask_exact G.eq G.exact };
}
