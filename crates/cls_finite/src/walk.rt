ghost use Rattle.std.specs.Prelude.{◌≡◌};

use std::marker::Model;

/// A step from a goal by one of its rules to one of the rule's arguments. The rule and the argument are given by their
/// positions, from 0.
#[derive(Clone, Copy, Debug, Drop, PartialEq, Eq)]
pub struct Step {
    pub goal: u32,
    pub rule: usize,
    pub argument: usize,
}

/// A list of steps, seen as that list. It is made from a `Vec` and gives it back, neither of which takes memory.
#[derive(Drop)]
pub struct Walk {
    steps: Vec<Step>,
}

impl Model for Walk {
    ghost use Rattle.std.specs.Prelude.{List};
    ghost use Rattle.cls_finite.specs.declared.walk.Step.{Step};

    ghost Value = { List Step };

    ghost view = { λ w. w.steps.items };
}

impl Walk {
    /// The walk of these steps.
    pub fn new(steps: Vec<Step>) -> Walk
        ensures { result ≡ steps.items }
    {
        Walk { steps }
    }

    /// The steps as a slice.
    pub fn as_slice(&self) -> &[Step]
        ensures { result.now ≡ self.now }
    {
        self.steps.as_slice()
    }

    /// The vector of the steps.
    pub fn into_vec(self) -> Vec<Step>
        ensures { result.items ≡ self }
    {
        self.steps
    }
}
