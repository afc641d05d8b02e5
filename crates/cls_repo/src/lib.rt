//! Repositories: the lines that declare constructors, variables, components and filters, and what they make.
//!
//! - [`RepoReader`] takes the lines of a repository one at a time, and at their end gives the [`Repository`].
//!   [`Repository::read`] reads all lines at once.
//! - [`RepoFault`] is the first fault of lines that are no repository, with its line; [`FaultKind`] says what is wrong.
//! - [`laws`] holds what is true of all lines.
//! - `specs/` defines the lines (`Directives`), what each declares (`Declarations`), and the faults in their order
//!   (`LineFaults`, `EndFaults`, `Readings`).
//!
//! Inside, `spelling` reads the tokens of a line by the table of forms in `directive`, `declaration` tests what a line
//! says and declares it in a `draft`, where `numbering` numbers its names. `draft_filter` takes the lines of a filter, by
//! what `states` makes of one of them. `reader` counts lines and goes from one to the next, and `repository` makes a
//! library of a draft. In `specs/`, a `Draft` is what the code keeps; `LineFaults` and `EndFaults` are lists of causes, of
//! which the first that applies is the fault.
#![tactic(auto)]

mod declaration;
mod directive;
mod draft;
mod draft_filter;
mod fault;
pub mod laws;
mod numbering;
mod reader;
mod refusal;
mod repository;
mod spelling;
mod states;

pub use fault::{FaultKind, RepoFault};
pub use reader::RepoReader;
pub use refusal::refusal_words;
pub use repository::Repository;
