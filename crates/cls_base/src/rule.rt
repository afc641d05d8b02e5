//! The rules of a goal, and the lists of goals that they have.
ghost use Rattle.std.specs.Prelude.{◌≡◌};

use std::marker::Model;

/// One way in which a term meets a goal.
#[derive(Drop)]
pub enum Rule<G> {
    /// The component, applied to as many terms as there are arguments, each of which meets its argument.
    Head { component: u32, args: Goals<G> },
    /// Any term that meets the left goal, applied to any that meets the right one.
    Any { left: G, right: G },
}

/// A list of goals, seen as that list. It is made from a `Vec` and gives it back, neither of which takes memory.
#[derive(Drop)]
pub struct Goals<G> {
    items: Vec<G>,
}

impl<G> Model for Goals<G> {
    ghost use Rattle.std.specs.Prelude.{List};

    ghost Value = { List G };

    ghost view = { λ g. g.items.items };
}

impl<G> Goals<G> {
    /// The list of these goals.
    pub fn new(items: Vec<G>) -> Goals<G>
        ensures { result ≡ items.items }
    {
        Goals { items }
    }

    /// The goals as a slice.
    pub fn as_slice(&self) -> &[G]
        ensures { result.now ≡ self.now }
    {
        self.items.as_slice()
    }

    /// The vector of the goals.
    pub fn into_vec(self) -> Vec<G>
        ensures { result.items ≡ self }
    {
        let Goals { items } = self;
        items
    }
}
