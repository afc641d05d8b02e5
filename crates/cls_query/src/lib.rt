//! Reads the line of a query: its word, and what follows it with types, terms and numbers in place of texts, or the first
//! of its errors.
//!
//! - [`read_query`] gives the query or the [`LineFault`]. The names of constructors are numbered exactly if there is no
//!   fault.
//! - [`Query`] is a query, spelled or built: a [`BuiltQuery`] is what [`read_query`] gives.
//! - [`read_change`] gives what the line of a change changes, or its [`LineFault`]. A [`Change`] is `add` or `drop`,
//!   spelled or built.
//! - [`LineFault::write_to`] writes the words of a fault.
//! - [`laws`] holds what is true of every line.
//!
//! The words and the forms of what follows them stand in `specs/QueryForms`, and the errors in their order in
//! `specs/QueryErrors`; those of changes in `specs/Changes` and `specs/ChangeErrors`.
//!
//! Inside, `comparison` reads a line with `sub` in one pass, where both its types can be built. For any other line
//! `word` finds the word and `form` reads what follows it; `checks` has the errors that come after the form, in their
//! order, `greatest` finds the greatest number of a component in a term, `type_count` counts the types of a batch,
//! `build` makes the query and numbers its names, and `reader` puts these together.
//! `change_form` and `change_reader` are the same for changes.
#![tactic(auto)]

mod build;
mod change;
mod change_form;
mod change_reader;
mod checks;
mod comparison;
mod fault;
mod form;
mod greatest;
pub mod laws;
mod line;
mod query;
mod reader;
mod type_count;
mod word;

pub use change::{BuiltChange, Change};
pub use change_reader::read_change;
pub use fault::LineFault;
pub use query::{BuiltListing, BuiltQuery, Listing, MAX_BATCH_TYPES, Query};
pub use reader::read_query;
pub use word::{GoalWord, ListingWord, QueryWord};
