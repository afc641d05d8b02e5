ghost use Rattle.std.specs.Prelude.{◌≡◌, ℕ, ◌<◌, Some, [], ◌∷◌, ◌++◌, length, map, slice_get, IfOk, OnOk, OnErr};
ghost use Rattle.cls_base.specs.Arguments.{arguments_in, map_rule};
ghost use Rattle.cls_base.specs.Cuts.{AreEnds, cut};
ghost use Rattle.cls_base.specs.Columns.{AreColumns, HasArguments, rule_of, rule_with, rules_with};

use crate::{NumberLists, OutOfMemory, RuleRef};
use std::alloc::Global;
use std::marker::Model;

/// The rules of one node, whose arguments are nodes, in flat columns. They are seen as the list of the rules.
#[derive(Drop)]
pub struct NodeRules {
    // The component at the head of each rule, or none where any term may stand there.
    heads: Vec<Option<u32>>,
    // The arguments of each rule.
    args: NumberLists,
}

impl Model for NodeRules {
    ghost use Rattle.std.specs.Prelude.{ℕ, List};
    ghost use Rattle.cls_base.specs.declared.rule.Rule.{Rule};
    ghost use Rattle.cls_base.specs.Columns.{AreColumns, rules_with};

    ghost Value = { List (Rule ℕ) };

    ghost view = { λ r. rules_with r.heads.items r.args };

    ghost invariant = { λ r. AreColumns r.heads.items r.args };
}

impl NodeRules {
    /// No rules. They take no memory.
    pub fn new(alloc: Global) -> NodeRules
        ensures { result ≡ [] }
    {
        NodeRules {
            heads: Vec::new(alloc),
            args: NumberLists::new(alloc),
        }
    }

    /// No rules, and room for so many, which have so many arguments together. The only error is out of memory.
    pub fn with_room(
        alloc: Global,
        rules: usize,
        arguments: usize,
    ) -> Result<NodeRules, OutOfMemory>
        ensures { IfOk result (λ r. r ≡ []) }
    {
        Ok(NodeRules {
            heads: Vec::with_capacity(alloc, rules)?,
            args: NumberLists::with_room(alloc, rules, arguments)?,
        })
    }

    /// The rules with these heads, whose arguments are the numbers, one after another, up to these ends. They take no
    /// memory.
    pub fn of_columns(heads: Vec<Option<u32>>, numbers: Vec<u32>, ends: Vec<u32>) -> NodeRules
        requires ends { AreEnds 0 (length numbers.items) ends.items }
        requires columns { AreColumns heads.items (cut numbers.items 0 ends.items) }
        ensures { result ≡ rules_with heads.items (cut numbers.items 0 ends.items) }
    {
        NodeRules {
            heads,
            args: NumberLists::of_columns(numbers, ends),
        }
    }

    /// The same rules once more. The only error is out of memory.
    pub fn copy(&self, alloc: Global) -> Result<NodeRules, OutOfMemory>
        ensures { IfOk result (λ r. r ≡ self.now) }
    {
        Ok(NodeRules {
            heads: Vec::from_slice(alloc, self.heads.as_slice())?,
            args: self.args.copy(alloc)?,
        })
    }

    /// The same rules with these numbers in place of their arguments, one after another. The only error is out of memory.
    #[tactic(auto, using(crate::proofs::Columns::columns))]
    pub fn with_arguments(&self, alloc: Global, numbers: Vec<u32>) -> Result<NodeRules, OutOfMemory>
        requires { length numbers.items ≡ length (arguments_in self.now) }
        ensures { IfOk result (λ rules.
            (f : ℕ → ℕ) → numbers.items ≡ map f (arguments_in self.now) → rules ≡ map (map_rule f) self.now) }
    {
        let heads = Vec::from_slice(alloc, self.heads.as_slice())?;
        let args = self.args.with_numbers(alloc, numbers)?;
        Ok(NodeRules { heads, args })
    }

    /// The arguments of all rules, one after another.
    #[tactic(auto, using(crate::proofs::Columns::columns))]
    pub fn arguments(&self) -> &[u32]
        ensures { result.now ≡ arguments_in self.now }
    {
        self.args.numbers()
    }

    /// The number of rules.
    #[tactic(auto, using(crate::proofs::Columns::columns))]
    pub fn len(&self) -> usize
        ensures { result ≡ length self.now }
    {
        self.heads.len()
    }

    /// The rule at a place.
    #[tactic(auto, using(crate::proofs::Columns::columns))]
    pub fn get(&self, place: usize) -> RuleRef<'_>
        requires { place < length self.now }
        ensures { slice_get self.now place ≡ Some (rule_of result) }
    {
        let args = self.args.get(place);
        match self.heads[place] {
            Some(component) => RuleRef::Head { component, args },
            None => RuleRef::Any {
                left: args[0],
                right: args[1],
            },
        }
    }

    /// Adds a rule at the end. The only error is out of memory, and then the rules are as before.
    pub fn push(&mut self, rule: RuleRef<'_>) -> Result<(), OutOfMemory>
        ensures ok { OnOk result (self.new ≡ self.old ++ rule_of rule.entry ∷ []) }
        ensures err { OnErr result (self.new ≡ self.old) }
    {
        match rule {
            RuleRef::Head { component, args } => self.push_with(Some(component), args),
            RuleRef::Any { left, right } => self.push_with(None, &[left, right]),
        }
    }

    // Adds the rule with this head and these arguments.
    #[tactic(auto, using(crate::proofs::Columns::columns))]
    fn push_with(&mut self, head: Option<u32>, args: &[u32]) -> Result<(), OutOfMemory>
        requires { HasArguments head args.now }
        ensures ok { OnOk result (self.new ≡ self.old ++ rule_with head args.now ∷ []) }
        ensures err { OnErr result (self.new ≡ self.old) }
    {
        self.heads.reserve(1)?;
        self.args.push(args)?;
        self.heads.push(head)?;
        Ok(())
    }
}
