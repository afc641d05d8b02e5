ghost use Rattle.std.specs.Prelude.{◌≡◌, ◌<◌, ◌↔◌, false, OnOk, OnErr, IsTrue, slice_index_or};
ghost use Rattle.cls_base.specs.Limits.{max_states};
ghost use Rattle.cls_filter.specs.Automata.{leaf_state, joined_state, state_of, is_accepting, settled, Accepts};
ghost use Rattle.cls_filter.specs.States.{IsState, IsAutomaton};
ghost use Rattle.cls_filter.specs.Lines.{no_lines, with_accepting, with_leaf, with_app, with_other, without_leaf, first_other};

use crate::state::state_of;
use crate::table::{Said, kept_state, put_pairs, put_said, said_at, take_out, told_state};
use cls_base::OutOfMemory;
use cls_base::limits::MAX_STATES;
use cls_term::Term;
use std::alloc::Global;
use std::marker::Model;

/// A deterministic bottom-up tree automaton over applicative terms, with at most 16 states, which are numbers. It is made
/// line by line. Of the lines that speak of a thing, the first one counts.
#[derive(Drop)]
pub struct Filter {
    // Whether each state is accepting.
    accepting: [bool; 16],
    // What is said of each component, nothing of those past the last.
    leaves: Vec<Said>,
    // What is said of each pair of states. A pair's number is 16 times the first state, and the second one.
    pairs: [Said; 256],
    // The state of what nothing is said of.
    other: Option<u8>,
}

impl Model for Filter {
    ghost use Rattle.cls_filter.specs.Automata.{Automaton};
    ghost use Rattle.cls_filter.specs.States.{HasStates};

    ghost Value = { Automaton };

    ghost view = { λ f. record { accepting = f.accepting; leaves = f.leaves.items; pairs = f.pairs; other = f.other } };

    ghost invariant = { λ f. HasStates f.leaves.items f.pairs f.other };
}

impl Filter {
    /// The filter without lines, which accepts no term. It takes no memory.
    pub fn new(alloc: Global) -> Filter
        ensures { result ≡ no_lines }
    {
        Filter {
            accepting: [false; 16],
            leaves: Vec::new(alloc),
            pairs: [None; 256],
            other: None,
        }
    }

    /// The line `accepts q`: the state is accepting. It takes no memory.
    pub fn accept(&mut self, state: u32)
        requires { state < max_states }
        ensures { self.new ≡ with_accepting self.old state }
    {
        self.accepting[state as usize] = true;
    }

    /// The line `leaf x -> q`: the component has this state or none, if no line before speaks of it. The only error is out of
    /// memory, and then the filter is as before.
    pub fn leaf(&mut self, component: u32, state: Option<u32>) -> Result<(), OutOfMemory>
        requires { IsState state }
        ensures ok { OnOk result (self.new ≡ with_leaf self.old component state) }
        ensures err { OnErr result (self.new ≡ self.old) }
    {
        let state = kept_state(state);
        put_said(&mut self.leaves, component, state)?;
        Ok(())
    }

    /// The line `app p q -> r`: each pair of states that it names has this state or none, if no line before speaks of the
    /// pair. None for p or q stands for every state. It takes no memory.
    pub fn app(&mut self, left: Option<u32>, right: Option<u32>, state: Option<u32>)
        requires { IsState state }
        ensures { self.new ≡ with_app self.old left right state }
    {
        let state = kept_state(state);
        put_pairs(&mut self.pairs, left, right, state);
    }

    /// The line `other q`: what no line speaks of has this state, if there was no such line before. It takes no memory.
    pub fn other(&mut self, state: u32)
        requires { state < max_states }
        ensures { self.new ≡ with_other self.old state }
    {
        self.other = first_other(self.other, state);
    }

    /// Takes out a component: its lines go, and greater numbers are one less. It takes no memory.
    pub fn remove(&mut self, component: u32)
        ensures { self.new ≡ without_leaf self.old component }
    {
        take_out(&mut self.leaves, component);
    }

    /// Whether the state is accepting.
    pub fn is_accepting(&self, state: u32) -> bool
        ensures accepting { result ≡ is_accepting self.now state }
        ensures automaton { IsAutomaton self.now }
    {
        is_flagged(&self.accepting, state)
    }

    /// The state of a component.
    pub fn leaf_state(&self, component: u32) -> Option<u32>
        ensures state { result ≡ leaf_state self.now component }
        ensures small { IsState result }
    {
        settled(
            said_at(self.leaves.as_slice(), component as usize),
            self.other,
        )
    }

    /// The state of the application of a term to another, by their states.
    pub fn joined_state(&self, left: u32, right: u32) -> Option<u32>
        requires left { left < max_states }
        requires right { right < max_states }
        ensures state { result ≡ joined_state self.now left right }
        ensures small { IsState result }
    {
        let number = left * MAX_STATES + right;
        settled(said_at(&self.pairs, number as usize), self.other)
    }

    /// The state of a term. It goes to each part of the term once and takes no memory. The calls nest as deep as the term.
    pub fn state(&self, term: &Term) -> Option<u32>
        ensures { result ≡ state_of self.now term.now }
    {
        state_of(self, term)
    }

    /// Whether the state of the term is accepting.
    pub fn accepts(&self, term: &Term) -> bool
        ensures { IsTrue result ↔ Accepts self.now term.now }
    {
        match self.state(term) {
            Some(state) => self.is_accepting(state),
            None => false,
        }
    }
}

// The state of what nothing is said of, after a line that says it.
fn first_other(other: Option<u8>, state: u32) -> Option<u8>
    requires { state < max_states }
    ensures { result ≡ first_other other state }
{
    match other {
        None => Some(state as u8),
        Some(earlier) => Some(earlier),
    }
}

// Where a thing leads of which this is said.
fn settled(said: Said, other: Option<u8>) -> Option<u32>
    ensures { result ≡ settled said other }
{
    match said {
        None => told_state(other),
        Some(state) => told_state(state),
    }
}

// Whether the state has its flag.
fn is_flagged(flags: &[bool], state: u32) -> bool
    ensures { result ≡ slice_index_or flags.now state false }
{
    flags.get(state as usize).copied().unwrap_or(false)
}
