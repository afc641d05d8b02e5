ghost use Rattle.std.specs.Prelude.{◌≡◌, IfOk, IfSome, IfNone};
ghost use Rattle.cls_core.specs.Arguments.{rule_count};
ghost use Rattle.cls_core.specs.declared.answer.Answer.TheVariants.{Rules, Wide};

use cls_base::{NodeRules, OutOfMemory};
use std::alloc::Global;
use std::marker::Model;

/// The answer of a goal with numbers of rows in place of goals, in flat columns. It is seen as that answer.
#[derive(Drop)]
pub struct NodeAnswer {
    // None if the goal is wide.
    rules: Option<NodeRules>,
}

impl Model for NodeAnswer {
    ghost use Rattle.std.specs.Prelude.{ℕ};
    ghost use Rattle.cls_core.specs.declared.answer.Answer.{Answer};
    ghost use Rattle.cls_core.specs.Columns.{answer_with};

    ghost Value = { Answer ℕ };

    ghost view = { λ a. answer_with a.rules };
}

impl NodeAnswer {
    /// The answer with these rules.
    pub fn new(rules: NodeRules) -> NodeAnswer
        ensures { result ≡ Rules rules }
    {
        NodeAnswer { rules: Some(rules) }
    }

    /// The answer of a wide goal.
    pub fn wide() -> NodeAnswer
        ensures { result ≡ Wide }
    {
        NodeAnswer { rules: None }
    }

    /// The rules, or None if the goal is wide.
    pub fn rules(&self) -> Option<&NodeRules>
        ensures rules { IfSome result (λ rules. self.now ≡ Rules rules.now) }
        ensures wide { IfNone result (self.now ≡ Wide) }
    {
        self.rules.as_ref()
    }

    /// The number of rules. A wide goal has none.
    pub fn rule_count(&self) -> usize
        ensures { result ≡ rule_count self.now }
    {
        self.rules.as_ref().map_or(0, |rules| rules.len())
    }

    /// The same answer once more. The only error is out of memory.
    pub fn copy(&self, alloc: Global) -> Result<NodeAnswer, OutOfMemory>
        ensures { IfOk result (λ a. a ≡ self.now) }
    {
        match &self.rules {
            Some(rules) => Ok(NodeAnswer::new(rules.copy(alloc)?)),
            None => Ok(NodeAnswer::wide()),
        }
    }
}
