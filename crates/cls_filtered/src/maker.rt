//! The nodes of a filtered book, one after another.
ghost use Rattle.std.specs.Prelude.{◌≡◌, ◌+◌, ◌^◌, ◌<◌, ◌++◌, [], ◌∷◌, IfErr, IfOk, OnOk, cond, length, map};
ghost use Rattle.cls_base.specs.Limits.{max_states};
ghost use Rattle.cls_filter.specs.Automata.{is_accepting};
ghost use Rattle.cls_filtered.specs.Faults.{IfTooManyRules};
ghost use Rattle.cls_filtered.specs.Filtered.{below, count_true, is_kept, pairs_to, rule_total, rules_to, start_rules};
ghost use Rattle.cls_filtered.specs.Makings.{AreMade, IsMade, IsTooMuch, kept_rules};
ghost use Rattle.cls_filtered.specs.StepBooks.{step_rule};

use crate::fault::FilterFault;
use crate::kept::Kept;
use crate::leads::{StatePairs, leads_of, pairs_at};
use crate::making::Making;
use crate::step::Step;
use cls_base::limits::MAX_STATES;
use cls_base::{NodeRules, OutOfMemory};
use cls_filter::Filter;
use std::alloc::Global;

/// The nodes so far, and how many more rules may be made.
#[derive(Drop)]
pub(crate) struct Draft {
    pub(crate) nodes: Vec<NodeRules>,
    pub(crate) room: u32,
}

impl Draft {
    /// No nodes, and room for so many rules.
    pub(crate) fn new(alloc: Global, room: u32) -> Draft
        ensures nodes { result.nodes.items ≡ [] }
        ensures room { result.room ≡ room }
    {
        let nodes = Vec::new(alloc);
        Draft { nodes, room }
    }

    // The rules are those of a node behind the others.
    fn close(&mut self, making: Making) -> Result<(), OutOfMemory>
        ensures nodes { OnOk result (self.new.nodes.items ≡ self.old.nodes.items ++ making.rules ∷ []) }
        ensures room { OnOk result (self.new.room ≡ making.room) }
    {
        let (rules, room) = making.into_parts();
        self.nodes.push(rules)?;
        self.room = room;
        Ok(())
    }
}

/// What the nodes are made by.
#[derive(Drop)]
pub(crate) struct Maker {
    pub(crate) kept: Kept,
    // For each state the pairs of states whose application has it.
    pub(crate) leads: Vec<StatePairs>,
}

impl Maker {
    /// For the pairs of a node and a state whose flag is true. The only error is out of memory, as which more nodes than a
    /// `u32` counts count.
    pub(crate) fn new(
        alloc: Global,
        filter: &Filter,
        flags: Vec<bool>,
    ) -> Result<Maker, OutOfMemory>
        ensures kept { IfOk result (λ maker. maker.kept ≡ flags.items) }
        ensures leads { IfOk result (λ maker. maker.leads.items ≡ map (pairs_to filter.now) (below max_states)) }
        ensures few { OnOk result (count_true flags.items + 1 < 2 ^ 32) }
    {
        let kept = Kept::new(alloc, flags)?;
        let leads = leads_of(alloc, filter)?;
        Ok(Maker { kept, leads })
    }

    // The rules that the steps make of terms that have the state.
    fn put_rules(
        &self,
        filter: &Filter,
        state: u32,
        steps: &[Step],
        making: &mut Making,
    ) -> Result<(), FilterFault>
        requires state { state < max_states }
        requires leads { self.now.leads.items ≡ map (pairs_to filter.now) (below max_states) }
        ensures ok { OnOk result
            (IsMade (rules_to filter.now self.now.kept (map step_rule steps.now) state) making.old making.new) }
        ensures large { IfErr result (λ fault. IfTooManyRules fault
            (IsTooMuch (rules_to filter.now self.now.kept (map step_rule steps.now) state) making.old)) }
    {
        let pairs = pairs_at(self.leads.as_slice(), state);
        making.follow_all(&self.kept, filter, pairs, state, steps)
    }

    // The same if the state is accepting.
    fn put_accepting(
        &self,
        filter: &Filter,
        state: u32,
        steps: &[Step],
        making: &mut Making,
    ) -> Result<(), FilterFault>
        requires state { state < max_states }
        requires leads { self.now.leads.items ≡ map (pairs_to filter.now) (below max_states) }
        ensures ok { OnOk result (IsMade (cond (is_accepting filter.now state)
            (rules_to filter.now self.now.kept (map step_rule steps.now) state) []) making.old making.new) }
        ensures large { IfErr result (λ fault. IfTooManyRules fault (IsTooMuch (cond (is_accepting filter.now state)
            (rules_to filter.now self.now.kept (map step_rule steps.now) state) []) making.old)) }
    {
        if !filter.is_accepting(state) {
            return Ok(());
        }
        self.put_rules(filter, state, steps, making)
    }

    /// The start: what the steps make of terms of each accepting state.
    pub(crate) fn put_start(
        &self,
        alloc: Global,
        filter: &Filter,
        steps: &[Step],
        draft: &mut Draft,
    ) -> Result<(), FilterFault>
        requires { self.now.leads.items ≡ map (pairs_to filter.now) (below max_states) }
        ensures ok { OnOk result (AreMade (start_rules filter.now self.now.kept (map step_rule steps.now) ∷ [])
            draft.old.nodes.items draft.new.nodes.items draft.old.room draft.new.room) }
        ensures large { IfErr result (λ fault. IfTooManyRules fault
            (draft.old.room < length (start_rules filter.now self.now.kept (map step_rule steps.now)))) }
    {
        let mut making = Making::new(alloc, draft.room);
        for state in 0..MAX_STATES {
            self.put_accepting(filter, state, steps, &mut making)?;
        }
        draft.close(making)?;
        Ok(())
    }

    // A node: what the steps make of terms of the state.
    fn put_node(
        &self,
        alloc: Global,
        filter: &Filter,
        state: u32,
        steps: &[Step],
        draft: &mut Draft,
    ) -> Result<(), FilterFault>
        requires state { state < max_states }
        requires leads { self.now.leads.items ≡ map (pairs_to filter.now) (below max_states) }
        ensures ok { OnOk result (AreMade (rules_to filter.now self.now.kept (map step_rule steps.now) state ∷ [])
            draft.old.nodes.items draft.new.nodes.items draft.old.room draft.new.room) }
        ensures large { IfErr result (λ fault. IfTooManyRules fault
            (draft.old.room < length (rules_to filter.now self.now.kept (map step_rule steps.now) state))) }
    {
        let mut making = Making::new(alloc, draft.room);
        self.put_rules(filter, state, steps, &mut making)?;
        draft.close(making)?;
        Ok(())
    }

    // The same if the pair of the node and the state is kept.
    fn put_kept(
        &self,
        alloc: Global,
        filter: &Filter,
        pair: (u32, u32),
        steps: &[Step],
        draft: &mut Draft,
    ) -> Result<(), FilterFault>
        requires state { pair.1 < max_states }
        requires leads { self.now.leads.items ≡ map (pairs_to filter.now) (below max_states) }
        ensures ok { OnOk result (AreMade (cond (is_kept self.now.kept pair.0 pair.1)
            (rules_to filter.now self.now.kept (map step_rule steps.now) pair.1 ∷ []) [])
            draft.old.nodes.items draft.new.nodes.items draft.old.room draft.new.room) }
        ensures large { IfErr result (λ fault. IfTooManyRules fault
            (draft.old.room < rule_total (cond (is_kept self.now.kept pair.0 pair.1)
            (rules_to filter.now self.now.kept (map step_rule steps.now) pair.1 ∷ []) []))) }
    {
        if !self.kept.has(pair.0, pair.1) {
            return Ok(());
        }
        self.put_node(alloc, filter, pair.1, steps, draft)
    }

    /// The nodes of a node of the book, which has these steps: one for each state that its terms have.
    pub(crate) fn put_nodes(
        &self,
        alloc: Global,
        filter: &Filter,
        node: u32,
        steps: &[Step],
        draft: &mut Draft,
    ) -> Result<(), FilterFault>
        requires { self.now.leads.items ≡ map (pairs_to filter.now) (below max_states) }
        ensures ok { OnOk result (AreMade (kept_rules filter.now self.now.kept node (map step_rule steps.now))
            draft.old.nodes.items draft.new.nodes.items draft.old.room draft.new.room) }
        ensures large { IfErr result (λ fault. IfTooManyRules fault
            (draft.old.room < rule_total (kept_rules filter.now self.now.kept node (map step_rule steps.now)))) }
    {
        for state in 0..MAX_STATES {
            self.put_kept(alloc, filter, (node, state), steps, draft)?;
        }
        Ok(())
    }
}
