//! Several callers over one table. Each asks for one of several goals, and gets its closure.
//!
//! - [`Asked`] is an expander with the goals that are asked. It works on an [`AskGoal`]: the root, whose rules lead to
//!   the asked goals, or a goal, which has the rules of its own expander. [`AskTag`] is what it means.
//! - [`Callers`] is a table whose start goal is the root. Each caller has a seat. [`Callers::ask`] works at the table
//!   until all its rows are filed, and gives the closure of one asked goal. Callers share the work on what several
//!   closures have in common. [`Callers::close`] gives the rows and the history of the whole table.
//! - [`AskedClosures`] takes the closure of each asked goal out of the rows of the root's closure, whoever worked them
//!   out.
//! - [`laws`] says what the root's closure is, and that what `ask` gives is what a table for its goal alone gives.
//!
//! Inside, `goal`, `tag` and `asked` have the types of their names, `wrapping` makes the answers of `Asked`, and
//! `naming` puts goals in place of the numbers of an answer. `rounds` is what a caller does at the table, `known` finds
//! the rows of the finished table by their goals, and `picking` takes the closure of a goal out of them.
#![tactic(auto)]

mod asked;
mod callers;
mod closures;
mod goal;
mod known;
pub mod laws;
mod naming;
mod picking;
mod rounds;
mod tag;
mod wrapping;

pub use asked::Asked;
pub use callers::Callers;
pub use closures::AskedClosures;
pub use goal::AskGoal;
pub use tag::AskTag;
