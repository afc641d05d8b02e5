//! The rule book of the terms of a rule book that a filter accepts.
//!
//! - [`filtered`] makes it. It is a [`FilteredBook`], whose node 0 is the start, or there is a [`FilterFault`].
//! - [`laws`] says what it generates, and that there is one.
//!
//! Inside, `step_book` applies one argument at a time: each front of the arguments of a rule is a node of its own. `states`
//! finds which states the terms of each node have, from those that are known, until no rule adds one. Only then rules are
//! made: `kept` has the pairs of a node and a state that have a term, which are the nodes, `leads` the pairs of states whose
//! application has a state, `making` makes the rules of a node, and `maker` the nodes. So no more rules are made than the
//! limit allows.
#![tactic(auto)]

mod fault;
mod filtered_book;
mod flags;
mod kept;
pub mod laws;
mod leads;
mod maker;
mod making;
mod states;
mod step;
mod step_book;
mod users;

pub use fault::FilterFault;
pub use filtered_book::{FilteredBook, filtered};
