ghost use Rattle.std.specs.Prelude.{◌≡◌, ℕ, IfOk, map, ◌++◌, ◌∷◌, []};
ghost use Rattle.cls_base.specs.declared.rule.Rule.{Rule};
ghost use Rattle.cls_base.specs.Books.{omega_book, omega_rules, heads};

use crate::{NodeRules, OutOfMemory, RuleBook, RuleRef};
use std::alloc::Global;
use std::marker::Model;

/// The rule book of the goal omega over numbered components, seen as their number. It has one node, with a rule for each
/// component alone and then one for any term applied to any.
#[derive(Drop)]
pub struct OmegaBook {
    components: u32,
    rules: NodeRules,
}

impl Model for OmegaBook {
    ghost use Rattle.std.specs.Prelude.{◌≡◌, ℕ, map};
    ghost use Rattle.cls_base.specs.Books.{omega_rules};

    ghost Value = { ℕ };

    ghost view = { λ b. b.components };

    ghost invariant = { λ b. b.rules ≡ omega_rules b.components };
}

impl OmegaBook {
    /// The rule book over so many components. The only error is out of memory.
    pub fn new(alloc: Global, components: u32) -> Result<OmegaBook, OutOfMemory>
        ensures { IfOk result (λ book. book ≡ components) }
    {
        let mut rules = head_rules(alloc, components)?;
        rules.push(RuleRef::Any { left: 0, right: 0 })?;
        Ok(OmegaBook { components, rules })
    }
}

impl RuleBook for OmegaBook {
    ghost book = { omega_book };

    fn count(&self) -> u32 {
        1
    }

    fn rules(&self, i: u32) -> &NodeRules {
        &self.rules
    }
}

/// A rule for each component alone.
#[tactic(auto, using(crate::proofs::Books::rule_lists))]
fn head_rules(alloc: Global, components: u32) -> Result<NodeRules, OutOfMemory>
    ensures { IfOk result (λ rules. rules ≡ heads components) }
{
    let mut rules = NodeRules::new(alloc);
    for component in 0..components {
        rules.push(RuleRef::Head {
            component,
            args: &[],
        })?;
    }
    Ok(rules)
}
