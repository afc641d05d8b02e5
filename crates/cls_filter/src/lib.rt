//! Filters of terms: deterministic bottom-up tree automata over applicative terms (Comon et al., Tree Automata Techniques and
//! Applications, chapter 1).
//!
//! - [`Filter`] is such an automaton. It is made line by line, and answers the state of a component, of an application
//!   by the states of its parts, and of a term, and whether it accepts a term.
//! - [`Filters`] is a list of filters by number.
//! - [`laws`] says what a filter is by its lines: of the lines that match, the first one counts.
//!
//! A line after the first one that speaks of a thing changes nothing. So no line is kept: `table` has what is said first
//! of each component and of each pair of states, and each answer is one look into it. `state` goes over terms.
#![tactic(auto)]

mod filter;
mod filters;
pub mod laws;
mod state;
mod table;

pub use filter::Filter;
pub use filters::Filters;
