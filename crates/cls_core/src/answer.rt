ghost use Rattle.std.specs.Prelude.{◌≡◌};
ghost use Rattle.cls_core.specs.Arguments.{arguments_of, rule_count};

use crate::goal_rules::GoalRules;

/// What is known of a goal once it was worked on.
#[derive(Drop)]
pub enum Answer<G> {
    /// The rules of the goal.
    Rules(GoalRules<G>),
    /// Looking for rules was given up, since it would take too much. So the goal has none.
    Wide,
}

impl<G> Answer<G> {
    /// The number of rules. A wide goal has none.
    pub fn rule_count(&self) -> usize
        ensures { result ≡ rule_count self.now }
    {
        match self {
            Answer::Rules(rules) => rules.len(),
            Answer::Wide => 0,
        }
    }

    /// The arguments of all rules, one after another. A wide goal has none.
    pub fn goals(&self) -> &[G]
        ensures { result.now ≡ arguments_of self.now }
    {
        match self {
            Answer::Rules(rules) => rules.goals(),
            Answer::Wide => &[],
        }
    }
}
