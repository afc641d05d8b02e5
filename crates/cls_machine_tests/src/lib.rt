//! Tests of the machine: workers and callers over a closure whose goals are numbers. No code of the program's own.
//!
//! [`Heap`] is an expander that can be made to run out of memory at one call, and [`Meeting`] a gate that holds one
//! worker until another makes the next claim.
#![tactic(auto)]

#[cfg(test)]
mod callers_tests;
mod heap;
mod meeting;
#[cfg(test)]
mod memo_tests;
#[cfg(test)]
mod table_tests;
#[cfg(test)]
mod tests;
#[cfg(test)]
mod turn_tests;

pub use heap::{Heap, Node};
pub use meeting::Meeting;
