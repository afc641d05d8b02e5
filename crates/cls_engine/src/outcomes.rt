//! What came of the last goals that were worked on: whether terms have them, how large these are, or why their closures
//! aren't made.
ghost use Rattle.std.specs.Prelude.{◌≡◌, ◌↔◌, ◌⊎◌, [], Some, Contains, IfSome, IfErr, IsTrue};
ghost use Rattle.cls_engine.specs.declared.fault.EngineFault.TheVariants.{OutOfMemory};
ghost use Rattle.cls_engine.specs.declared.outcomes.Decided.{Decided as DecidedSeen};
ghost use Rattle.cls_engine.specs.declared.outcomes.Outcome.TheVariants.{Sizes};
ghost use Rattle.cls_finite.specs.declared.answer.FiniteAnswer.TheVariants.{Finite};
ghost use Rattle.cls_engine.specs.Outcomes.{fault_in, sizes_in, TellsVerdict};
ghost use Rattle.cls_engine.specs.Outcomes.{IsDecidedAt, HasVerdict, HasSizes, HasFault};

use crate::copying::copy_of;
use crate::fault::EngineFault;
use cls_base::limits::MAX_KEPT_OUTCOMES;
use cls_finite::FiniteAnswer;
use cls_path::Nf;
use std::alloc::Global;

/// The most steps of a walk that is kept. So 64 walks take at most 6 MiB.
const MAX_KEPT_STEPS: usize = 4_096;

/// What came of a goal. Out of memory is none, since a later query may have more.
#[derive(Drop)]
pub(crate) enum Outcome {
    /// Whether the start of its grammar is productive.
    Inhabited(bool),
    /// How large the terms of the start of its grammar are.
    Sizes(FiniteAnswer),
    /// Its closure has more goals or more rules than the options allow.
    TooLarge,
    /// This goal of its closure is wide, the first one.
    Wide(Nf),
}

/// The number of steps of the walk that is answered.
fn steps_of(answer: &FiniteAnswer) -> usize {
    match answer {
        FiniteAnswer::Finite(_) | FiniteAnswer::Over => 0,
        FiniteAnswer::Infinite(walk) => walk.as_slice().len(),
    }
}

/// Whether there is a term, by how large the terms are.
fn has_terms(answer: &FiniteAnswer) -> bool
    ensures { IsTrue result ↔ (answer.now ≡ Finite 0 → ⊥) }
{
    !matches!(answer, FiniteAnswer::Finite(0))
}

impl Outcome {
    /// What the fault says of a goal. None comes of a fault that isn't the goal's own, and if memory runs out here.
    pub(crate) fn of(alloc: Global, fault: &EngineFault) -> Option<Outcome>
        ensures { IfSome result (λ outcome. fault_in outcome ≡ Some fault.now) }
    {
        match fault {
            EngineFault::TooLarge => Some(Outcome::TooLarge),
            EngineFault::Wide(goal) => match goal.copy(alloc) {
                Ok(copy) => Some(Outcome::Wide(copy)),
                Err(_) => None,
            },
            EngineFault::Size
            | EngineFault::FilterTooLarge
            | EngineFault::TooManyTerms
            | EngineFault::OutOfMemory => None,
        }
    }

    /// How large the terms of a goal are. None comes of a walk of more than 4,096 steps, and if memory runs out here.
    pub(crate) fn of_sizes(alloc: Global, answer: &FiniteAnswer) -> Option<Outcome>
        ensures { IfSome result (λ outcome. outcome ≡ Sizes answer.now) }
    {
        if steps_of(answer) > MAX_KEPT_STEPS {
            return None;
        }
        let Ok(copy) = copy_of(alloc, answer) else {
            return None;
        };
        Some(Outcome::Sizes(copy))
    }

    /// Whether the start is productive, if what came of the goal tells.
    fn verdict(&self) -> Option<bool>
        ensures { IfSome result (TellsVerdict self.now) }
    {
        match self {
            Outcome::Inhabited(yes) => Some(*yes),
            Outcome::Sizes(answer) => Some(has_terms(answer)),
            Outcome::TooLarge | Outcome::Wide(_) => None,
        }
    }

    /// How large the terms are, if that came of the goal. None comes too if memory runs out.
    fn sizes(&self, alloc: Global) -> Option<FiniteAnswer>
        ensures { IfSome result (λ answer. sizes_in self.now ≡ Some answer) }
    {
        let Outcome::Sizes(answer) = self else {
            return None;
        };
        match copy_of(alloc, answer) {
            Ok(copy) => Some(copy),
            Err(_) => None,
        }
    }

    /// Fails with the fault, if one came of the goal.
    fn fail(&self, alloc: Global) -> Result<(), EngineFault>
        ensures { IfErr result (λ fault. (fault ≡ OutOfMemory) ⊎ (fault_in self.now ≡ Some fault)) }
    {
        match self {
            Outcome::Inhabited(_) | Outcome::Sizes(_) => Ok(()),
            Outcome::TooLarge => Err(EngineFault::TooLarge),
            Outcome::Wide(goal) => Err(EngineFault::Wide(goal.copy(alloc)?)),
        }
    }
}

/// A goal with what came of it.
#[derive(Drop)]
pub(crate) struct Decided {
    pub(crate) goal: Nf,
    pub(crate) outcome: Outcome,
}

impl Decided {
    /// Whether it is the goal.
    fn is_of(&self, goal: &Nf) -> bool
        ensures { IsTrue result → self.now.goal ≡ goal.now }
    {
        self.goal == *goal
    }
}

/// What came of the last goals that were worked on, the latest at the end: of at most 64 goals. An outcome is far
/// smaller than a grammar, so it may be kept longer than the goal's grammar.
#[derive(Drop)]
pub(crate) struct Outcomes {
    pub(crate) kept: Vec<Decided>,
}

impl Outcomes {
    /// None at all. It takes no memory.
    pub(crate) fn new(alloc: Global) -> Outcomes
        ensures { result.kept.items ≡ [] }
    {
        Outcomes {
            kept: Vec::new(alloc),
        }
    }

    /// Lets all go. It takes no memory.
    pub(crate) fn forget(&mut self)
        ensures { self.new.kept.items ≡ [] }
    {
        self.kept.clear();
    }

    /// The place of the goal, if it is kept what came of it.
    fn place_of(&self, goal: &Nf) -> Option<usize>
        ensures { IfSome result (λ place. IsDecidedAt self.now.kept.items place goal.now) }
    {
        for place in 0..self.kept.len() {
            if self.kept[place].is_of(goal) {
                return Some(place);
            }
        }
        None
    }

    /// Whether the start of the goal's grammar is productive, if what is kept of the goal tells.
    pub(crate) fn verdict(&self, goal: &Nf) -> Option<bool>
        ensures { IfSome result (HasVerdict self.now.kept.items goal.now) }
    {
        let place = self.place_of(goal)?;
        self.kept[place].outcome.verdict()
    }

    /// How large the terms of the goal are, if that is kept. None comes too if memory runs out.
    pub(crate) fn sizes(&self, alloc: Global, goal: &Nf) -> Option<FiniteAnswer>
        ensures { IfSome result (HasSizes self.now.kept.items goal.now) }
    {
        let place = self.place_of(goal)?;
        self.kept[place].outcome.sizes(alloc)
    }

    /// Fails with the fault of the goal's closure, if that is kept.
    pub(crate) fn recall(&self, alloc: Global, goal: &Nf) -> Result<(), EngineFault>
        ensures { IfErr result (λ fault. (fault ≡ OutOfMemory) ⊎ HasFault self.now.kept.items goal.now fault) }
    {
        let Some(place) = self.place_of(goal) else {
            return Ok(());
        };
        self.kept[place].outcome.fail(alloc)
    }

    /// Drops what came of the goal before.
    fn forget_goal(&mut self, goal: &Nf)
        ensures { (d : DecidedSeen) → Contains self.new.kept.items d → Contains self.old.kept.items d }
    {
        let Some(place) = self.place_of(goal) else {
            return;
        };
        drop(self.kept.remove(place));
    }

    /// Drops the oldest outcome if there are as many as may be kept.
    fn make_room(&mut self)
        ensures { (d : DecidedSeen) → Contains self.new.kept.items d → Contains self.old.kept.items d }
    {
        if self.kept.len() < MAX_KEPT_OUTCOMES {
            return;
        }
        drop(self.kept.remove(0));
    }

    /// Keeps what came of the goal in place of what came of it before, and drops the oldest outcome if there are too
    /// many. If memory runs out it isn't kept.
    pub(crate) fn put(&mut self, alloc: Global, goal: &Nf, outcome: Outcome)
        ensures { (d : DecidedSeen) → Contains self.new.kept.items d
            → Contains self.old.kept.items d ⊎ ((d.goal ≡ goal.now) × (d.outcome ≡ outcome)) }
    {
        let Ok(copy) = goal.copy(alloc) else {
            return;
        };
        self.forget_goal(goal);
        self.make_room();
        let decided = Decided {
            goal: copy,
            outcome,
        };
        drop(self.kept.push(decided));
    }
}
