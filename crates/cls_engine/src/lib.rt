//! What a session asks of a library.
//!
//! - [`Engine`] owns a library and answers queries about types: subtyping, typing, certificates, whether a type has
//!   terms, or each of several types has, how large they are, its grammar, its history, and its terms page by page, all
//!   of them or those that a filter accepts. It keeps answers from query to query. [`Engine::add`] and
//!   [`Engine::remove`] change the components.
//! - [`Host`] is what is lent to a call that works out an answer.
//! - [`Options`] bound its work, [`Verdict`] is what it finds of a certificate, and [`EngineFault`] is why a query
//!   isn't answered.
//!
//! Inside, `engine` has the goal of a type, and `closure` the grammar of a goal, which `closing` has the workers find.
//! `recents` has the grammars of the last goals, and `outcomes` has whether terms have them, how large these are, or why
//! their closures aren't made. `changing` adds and takes out components. `compare`, `questions`, `sizes`, `listing`,
//! `filtering`, `batch` and `verify` answer the queries. `copying` copies how large terms are. Several types are asked of
//! one closure, that of a root of their goals: `rows_book` has its rows as a rule book, and `asked_rows` reads off them
//! which goals have terms, or which is wide.
#![tactic(auto)]

mod asked_rows;
mod batch;
mod changing;
mod closing;
mod closure;
mod compare;
mod copying;
mod engine;
mod fault;
mod filtering;
mod host;
pub mod laws;
mod listing;
mod options;
mod outcomes;
mod questions;
mod recents;
mod rows_book;
mod sizes;
mod verdict;
mod verify;

pub use engine::Engine;
pub use fault::EngineFault;
pub use host::Host;
pub use options::Options;
pub use verdict::Verdict;
