//! Whether finitely many terms have a goal, and how large the largest is.
//!
//! - [`finite`] answers a [`FiniteAnswer`]: the greatest size of a term, or a walk that shows that there is none.
//! - [`Walk`] is a list of [`Step`]s from goal to argument goal. [`right_walk`] says whether it comes round.
//! - [`laws`] says what a walk that comes round shows.
//!
//! Inside is a depth-first search of the nodes: `steps` finds the next argument whose size isn't known, `sizes` adds up
//! and compares sizes, `descent` has the search, and `right` follows a given walk.
#![tactic(auto)]

mod answer;
mod descent;
pub mod laws;
mod right;
mod sizes;
mod steps;
mod walk;

pub use answer::FiniteAnswer;
pub use descent::finite;
pub use right::right_walk;
pub use walk::{Step, Walk};
