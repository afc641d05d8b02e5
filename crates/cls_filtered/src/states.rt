//! Which states the terms of each node have, found from those that are known.
//!
//! A node whose states become more has its turn: the steps that use it are followed again. Then each step is followed once
//! more, and if none adds anything, all states are known. So no proof hangs on which steps use which nodes.
ghost use Rattle.std.specs.Prelude.{◌≡◌, ◌+◌, ◌*◌, ◌<◌, ◌≤◌, true, false, [], IfOk, IfSome, OnOk, length, replicate};
ghost use Rattle.cls_base.specs.Limits.{max_states};
ghost use Rattle.cls_base.specs.declared.rule.Rule.TheVariants.{Any, Head};
ghost use Rattle.cls_filter.specs.States.{IsAutomaton};
ghost use Rattle.cls_filtered.specs.Filtered.{AreStatesOf, count_true};
ghost use Rattle.cls_filtered.specs.States.{AppliesAt, Follows, FollowsAll, IsClosed, Joins, JoinsAt, Keeps, Reaches, Turns, is_known};
ghost use Rattle.cls_filtered.specs.StepBooks.{step_rule};
ghost use Rattle.cls_filtered.specs.Stepwise.{AreSteps};

use crate::flags::{is_up, pair_of};
use crate::step::Step;
use crate::step_book::StepBook;
use crate::users::{Use, Uses, uses_at, uses_of};
use cls_base::OutOfMemory;
use cls_base::limits::MAX_STATES;
use cls_filter::Filter;
use std::alloc::Global;
use std::marker::Model;

/// What is known of the states of terms.
#[derive(Drop)]
struct States {
    // Whether each pair of a node and a state is known to have a term.
    flags: Vec<bool>,
    // How many are.
    count: usize,
    // Nodes that got a state since they had their turn.
    changed: Vec<u32>,
}

impl Model for States {
    ghost use Rattle.std.specs.Prelude.{◌≡◌};
    ghost use Rattle.cls_filtered.specs.Filtered.{count_true};
    ghost use Rattle.cls_filtered.specs.States.{Known};

    ghost Value = { Known };

    ghost view = { λ s. record { flags = s.flags.items; changed = s.changed.items } };

    ghost invariant = { λ s. s.count ≡ count_true s.flags.items };
}

/// Whether each pair of a node and a state has a term. The only error is out of memory.
pub(crate) fn states_of(
    alloc: Global,
    book: &StepBook,
    filter: &Filter,
) -> Result<Vec<bool>, OutOfMemory>
    requires steps { AreSteps book.now }
    requires automaton { IsAutomaton filter.now }
    ensures { IfOk result (λ flags. AreStatesOf book.now filter.now flags.items) }
{
    let uses = uses_of(alloc, book)?;
    let mut states = States::none(alloc, book.count())?;
    let mut more = true;
    while more {
        more = states.pass(book, filter, uses.as_slice())?;
    }
    Ok(states.into_flags())
}

impl States {
    // Nothing is known.
    fn none(alloc: Global, nodes: u32) -> Result<States, OutOfMemory>
        ensures { IfOk result (λ s. s ≡ record { flags = replicate (nodes * max_states) false; changed = [] }) }
    {
        let flags = Vec::from_elem(alloc, false, nodes as usize * MAX_STATES as usize)?;
        let changed = Vec::new(alloc);
        Ok(States {
            flags,
            count: 0,
            changed,
        })
    }

    // Whether it is known that some term of the node has the state.
    fn has(&self, node: u32, state: u32) -> bool
        ensures { result ≡ is_known self.now.flags node state }
    {
        is_up(self.flags.as_slice(), pair_of(node, state))
    }

    // How many pairs are known to have a term.
    fn known(&self) -> usize
        ensures { result ≡ count_true self.now.flags }
    {
        self.count
    }

    // Some term of the node has the state.
    fn reach(&mut self, node: u32, state: u32) -> Result<(), OutOfMemory>
        requires node { node * max_states + max_states ≤ length self.old.flags }
        requires state { state < max_states }
        ensures { OnOk result (Reaches node state self.old self.new) }
    {
        if self.has(node, state) {
            return Ok(());
        }
        let pair = pair_of(node, state);
        self.changed.push(node)?;
        self.flags[pair] = true;
        self.count += 1;
        Ok(())
    }

    // The left node, which has a term of its state, is applied to the right one at this state, if it has a term of it.
    fn join_at(
        &mut self,
        filter: &Filter,
        node: u32,
        left: (u32, u32),
        right: (u32, u32),
    ) -> Result<(), OutOfMemory>
        requires node { node * max_states + max_states ≤ length self.old.flags }
        requires left { left.1 < max_states }
        requires right { right.1 < max_states }
        ensures { OnOk result (JoinsAt filter.now node left.0 left.1 right.0 right.1 self.old self.new) }
    {
        if !self.has(right.0, right.1) {
            return Ok(());
        }
        match filter.joined_state(left.1, right.1) {
            Some(state) => self.reach(node, state),
            None => Ok(()),
        }
    }

    // The same at each of its states.
    fn join(
        &mut self,
        filter: &Filter,
        node: u32,
        left: (u32, u32),
        right: u32,
    ) -> Result<(), OutOfMemory>
        requires node { node * max_states + max_states ≤ length self.old.flags }
        requires left { left.1 < max_states }
        ensures { OnOk result (Joins filter.now node left.0 left.1 right max_states self.old self.new) }
    {
        for state in 0..MAX_STATES {
            self.join_at(filter, node, left, (right, state))?;
        }
        Ok(())
    }

    // The left node is applied to the right one at this state of the left one, if it has a term of it.
    fn apply_at(
        &mut self,
        filter: &Filter,
        node: u32,
        left: (u32, u32),
        right: u32,
    ) -> Result<(), OutOfMemory>
        requires node { node * max_states + max_states ≤ length self.old.flags }
        requires left { left.1 < max_states }
        ensures { OnOk result (AppliesAt filter.now node left.0 left.1 right self.old self.new) }
    {
        if !self.has(left.0, left.1) {
            return Ok(());
        }
        self.join(filter, node, left, right)
    }

    // The application of a node to another adds what follows by it.
    fn apply(
        &mut self,
        filter: &Filter,
        node: u32,
        left: u32,
        right: u32,
    ) -> Result<(), OutOfMemory>
        requires { node * max_states + max_states ≤ length self.old.flags }
        ensures { OnOk result (Follows filter.now node (Any left right) self.old self.new) }
    {
        for state in 0..MAX_STATES {
            self.apply_at(filter, node, (left, state), right)?;
        }
        Ok(())
    }

    // The component alone adds its state.
    fn follow_leaf(&mut self, filter: &Filter, node: u32, component: u32) -> Result<(), OutOfMemory>
        requires { node * max_states + max_states ≤ length self.old.flags }
        ensures { OnOk result (Follows filter.now node (Head component []) self.old self.new) }
    {
        match filter.leaf_state(component) {
            Some(state) => self.reach(node, state),
            None => Ok(()),
        }
    }

    // The step of the node adds what follows by it.
    fn follow(&mut self, filter: &Filter, node: u32, step: Step) -> Result<(), OutOfMemory>
        requires { node * max_states + max_states ≤ length self.old.flags }
        ensures { OnOk result (Follows filter.now node (step_rule step) self.old self.new) }
    {
        match step {
            Step::Component(component) => self.follow_leaf(filter, node, component),
            Step::Application { left, right } => self.apply(filter, node, left, right),
        }
    }

    // Each step of the node adds what follows by it.
    fn follow_node(
        &mut self,
        book: &StepBook,
        filter: &Filter,
        node: u32,
    ) -> Result<(), OutOfMemory>
        requires node { node < length book.now }
        requires sized { length self.old.flags ≡ length book.now * max_states }
        ensures { OnOk result (FollowsAll filter.now book.now node self.old self.new) }
    {
        let steps = book.steps(node);
        for step in steps {
            self.follow(filter, node, *step)?;
        }
        Ok(())
    }

    // The step at the place is followed, if the node has so many.
    fn follow_step(
        &mut self,
        book: &StepBook,
        filter: &Filter,
        node: u32,
        place: usize,
    ) -> Result<(), OutOfMemory>
        requires node { node < length book.now }
        requires sized { length self.old.flags ≡ length book.now * max_states }
        ensures { OnOk result (Turns filter.now book.now self.old self.new) }
    {
        let steps = book.steps(node);
        match steps.get(place) {
            Some(step) => self.follow(filter, node, *step),
            None => Ok(()),
        }
    }

    // The step is followed, if there is one of this number.
    fn follow_use(&mut self, book: &StepBook, filter: &Filter, step: Use) -> Result<(), OutOfMemory>
        requires { length self.old.flags ≡ length book.now * max_states }
        ensures { OnOk result (Turns filter.now book.now self.old self.new) }
    {
        let count = book.count();
        if step.node >= count {
            return Ok(());
        }
        self.follow_step(book, filter, step.node, step.place)
    }

    // These steps are followed.
    fn follow_uses(
        &mut self,
        book: &StepBook,
        filter: &Filter,
        uses: &[Use],
    ) -> Result<(), OutOfMemory>
        requires { length self.old.flags ≡ length book.now * max_states }
        ensures { OnOk result (Turns filter.now book.now self.old self.new) }
    {
        for step in uses {
            self.follow_use(book, filter, *step)?;
        }
        Ok(())
    }

    // Takes off a node that changed, if there is one.
    fn take_changed(&mut self) -> Option<u32>
        ensures flags { self.new.flags ≡ self.old.flags }
        ensures less { IfSome result (λ _. length self.new.changed < length self.old.changed) }
    {
        self.changed.pop()
    }

    // The steps that use a node that changed are followed, until none is left.
    fn drain(&mut self, book: &StepBook, filter: &Filter, uses: &[Uses]) -> Result<(), OutOfMemory>
        requires { length self.old.flags ≡ length book.now * max_states }
        ensures { OnOk result (Keeps filter.now book.now self.old self.new) }
    {
        while let Some(node) = self.take_changed() {
            self.follow_uses(book, filter, uses_at(uses, node))?;
        }
        Ok(())
    }

    // Each step of each node is followed once, and then those by which there is more. Whether there is more.
    fn pass(&mut self, book: &StepBook, filter: &Filter, uses: &[Uses]) -> Result<bool, OutOfMemory>
        requires { length self.old.flags ≡ length book.now * max_states }
        ensures keeps { OnOk result (Keeps filter.now book.now self.old self.new) }
        ensures closed { IfOk result (λ more. more ≡ false → IsClosed filter.now book.now self.new.flags) }
        ensures more { IfOk result (λ more. more ≡ true → count_true self.old.flags < count_true self.new.flags) }
    {
        let before = self.known();
        for node in 0..book.count() {
            self.follow_node(book, filter, node)?;
        }
        let after = self.known();
        if after <= before {
            return Ok(false);
        }
        self.drain(book, filter, uses)?;
        Ok(true)
    }

    fn into_flags(self) -> Vec<bool>
        ensures { result.items ≡ self.flags }
    {
        let States {
            flags,
            count: _,
            changed: _,
        } = self;
        flags
    }
}
