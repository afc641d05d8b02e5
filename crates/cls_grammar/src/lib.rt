//! The tree grammar of a goal: the goals that it leads to, each with its rules, as a rule book.
//!
//! - [`Grammar`] is the grammar, and [`GrammarFault`] says why rows make none. [`Ranks`] and [`Flags`] are what it
//!   answers of each goal. Its text is written from any line on, which [`GrammarPlace`] names.
//! - [`productive`] says of each node of any rule book whether it has a derivation tree.
//! - [`laws`] says what the languages of a grammar's goals are.
//!
//! Inside, `numbering` numbers the rows breadth first, by an array of places. `ranking` finds ranks from the least on:
//! a rule waits for one argument at a time, in linked lists that `waiting` keeps in two columns, and of each node a
//! rule without arguments goes first. This is unit propagation of Horn clauses (Dowling and Gallier 1984). `trimming`
//! and `printing` go over the rows once, and `columns` has what is known of each goal.
#![tactic(auto)]

mod columns;
mod fault;
mod grammar;
pub mod laws;
mod numbering;
mod printing;
mod ranking;
mod trimming;
mod waiting;

pub use columns::{Flags, Ranks};
pub use fault::GrammarFault;
pub use grammar::Grammar;
pub use printing::GrammarPlace;
pub use ranking::productive;
