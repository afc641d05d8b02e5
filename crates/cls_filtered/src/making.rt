//! The rules of a node of a filtered book, no more of them than there is room for.
ghost use Rattle.std.specs.Prelude.{◌≡◌, [], ◌∷◌, IfErr, OnOk, cond, map};
ghost use Rattle.cls_base.specs.Columns.{rule_of};
ghost use Rattle.cls_base.specs.declared.rule.Rule.TheVariants.{Head};
ghost use Rattle.cls_filter.specs.Automata.{leaf_state};
ghost use Rattle.cls_filtered.specs.Faults.{IfTooManyRules};
ghost use Rattle.cls_filtered.specs.Filtered.{is_state, pairs_to, rules_to, state_rules};
ghost use Rattle.cls_filtered.specs.Makings.{IsMade, IsTooMuch, applications, applied, applied_to};
ghost use Rattle.cls_filtered.specs.StepBooks.{step_rule};

use crate::fault::FilterFault;
use crate::kept::Kept;
use crate::leads::is_state;
use crate::step::Step;
use cls_base::{NodeRules, RuleRef};
use cls_filter::Filter;
use std::alloc::Global;
use std::marker::Model;

/// The rules of a node that is made, and how many more rules may be made.
#[derive(Drop)]
pub(crate) struct Making {
    rules: NodeRules,
    room: u32,
}

impl Model for Making {
    ghost use Rattle.cls_filtered.specs.Makings.{MadeRules};

    ghost Value = { MadeRules };

    ghost view = { λ m. record { rules = m.rules; room = m.room } };
}

impl Making {
    /// No rules, and room for so many.
    pub(crate) fn new(alloc: Global, room: u32) -> Making
        ensures rules { result.rules ≡ [] }
        ensures room { result.room ≡ room }
    {
        let rules = NodeRules::new(alloc);
        Making { rules, room }
    }

    /// The rules, and the room that is left.
    pub(crate) fn into_parts(self) -> (NodeRules, u32)
        ensures rules { result.0 ≡ self.rules }
        ensures room { result.1 ≡ self.room }
    {
        let Making { rules, room } = self;
        (rules, room)
    }

    fn push(&mut self, rule: RuleRef<'_>) -> Result<(), FilterFault>
        ensures ok { OnOk result (IsMade (rule_of rule.entry ∷ []) self.old self.new) }
        ensures large { IfErr result (λ fault. IfTooManyRules fault (IsTooMuch (rule_of rule.entry ∷ []) self.old)) }
    {
        let room = self.room;
        if room == 0 {
            return Err(FilterFault::TooManyRules);
        }
        self.rules.push(rule)?;
        self.room = room - 1;
        Ok(())
    }

    // The application of a node to the right one at this state, if it has a term of it.
    fn apply_to(
        &mut self,
        kept: &Kept,
        left: u32,
        right: u32,
        state: u32,
    ) -> Result<(), FilterFault>
        ensures ok { OnOk result (IsMade (applied_to kept.now left right state) self.old self.new) }
        ensures large { IfErr result (λ fault.
            IfTooManyRules fault (IsTooMuch (applied_to kept.now left right state) self.old)) }
    {
        match kept.node(right, state) {
            Some(node) => self.push(RuleRef::Any { left, right: node }),
            None => Ok(()),
        }
    }

    // The application of a node to another at these states, if they have terms of them.
    fn apply_at(
        &mut self,
        kept: &Kept,
        parts: (u32, u32),
        states: (u32, u32),
    ) -> Result<(), FilterFault>
        ensures ok { OnOk result (IsMade (applied kept.now parts.0 parts.1 states) self.old self.new) }
        ensures large { IfErr result (λ fault.
            IfTooManyRules fault (IsTooMuch (applied kept.now parts.0 parts.1 states) self.old)) }
    {
        match kept.node(parts.0, states.0) {
            Some(node) => self.apply_to(kept, node, parts.1, states.1),
            None => Ok(()),
        }
    }

    // The applications of a node to another at each of these pairs of states.
    fn apply(
        &mut self,
        kept: &Kept,
        pairs: &[(u32, u32)],
        parts: (u32, u32),
    ) -> Result<(), FilterFault>
        ensures ok { OnOk result (IsMade (applications kept.now parts.0 parts.1 pairs.now) self.old self.new) }
        ensures large { IfErr result (λ fault.
            IfTooManyRules fault (IsTooMuch (applications kept.now parts.0 parts.1 pairs.now) self.old)) }
    {
        for pair in pairs {
            self.apply_at(kept, parts, *pair)?;
        }
        Ok(())
    }

    // The component alone, if it has the state.
    fn follow_leaf(
        &mut self,
        filter: &Filter,
        state: u32,
        component: u32,
    ) -> Result<(), FilterFault>
        ensures ok { OnOk result (IsMade
            (cond (is_state (leaf_state filter.now component) state) (Head component [] ∷ []) []) self.old self.new) }
        ensures large { IfErr result (λ fault. IfTooManyRules fault (IsTooMuch
            (cond (is_state (leaf_state filter.now component) state) (Head component [] ∷ []) []) self.old)) }
    {
        if !is_state(filter.leaf_state(component), state) {
            return Ok(());
        }
        self.push(RuleRef::Head {
            component,
            args: &[],
        })
    }

    // The rules that the step makes of terms that have the state.
    fn follow(
        &mut self,
        kept: &Kept,
        filter: &Filter,
        pairs: &[(u32, u32)],
        state: u32,
        step: Step,
    ) -> Result<(), FilterFault>
        requires { pairs.now ≡ pairs_to filter.now state }
        ensures ok { OnOk result (IsMade (state_rules filter.now kept.now state (step_rule step)) self.old self.new) }
        ensures large { IfErr result (λ fault.
            IfTooManyRules fault (IsTooMuch (state_rules filter.now kept.now state (step_rule step)) self.old)) }
    {
        match step {
            Step::Component(component) => self.follow_leaf(filter, state, component),
            Step::Application { left, right } => self.apply(kept, pairs, (left, right)),
        }
    }

    /// The rules that the steps make of terms that have the state.
    pub(crate) fn follow_all(
        &mut self,
        kept: &Kept,
        filter: &Filter,
        pairs: &[(u32, u32)],
        state: u32,
        steps: &[Step],
    ) -> Result<(), FilterFault>
        requires { pairs.now ≡ pairs_to filter.now state }
        ensures ok { OnOk result
            (IsMade (rules_to filter.now kept.now (map step_rule steps.now) state) self.old self.new) }
        ensures large { IfErr result (λ fault.
            IfTooManyRules fault (IsTooMuch (rules_to filter.now kept.now (map step_rule steps.now) state) self.old)) }
    {
        for step in steps {
            self.follow(kept, filter, pairs, state, *step)?;
        }
        Ok(())
    }
}
