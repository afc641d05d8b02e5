//! What is written for the lines after a repository.
//!
//! - [`Responder`] takes one line after another and gives what is written for it. It keeps the names that queries have
//!   numbered, the engine that answers them, and the lines of a certificate that hasn't ended.
//! - [`Printing`] is a reply while it is printed. [`Responder::print`] gives one portion of its lines after another.
//!
//! `specs/Lines` defines how lines are answered one after another, `specs/Answering` how a query is, `specs/Changing`
//! how a change is and what it changes, `specs/Replies` what the reply to a query says, and `specs/Errors` which errors
//! it can have.
//!
//! Inside, `responder` takes the lines and holds those of a certificate until `qed`; `queries` has one function for
//! each query, which calls the engine; `printing` keeps what is left of a reply and prints it in portions; `verifying`
//! reads a certificate and has it judged; `changes` adds and drops components. `certificates` tells which lines open
//! and end a certificate and which change the repository, `faults` and `words` write lines of errors and of one word,
//! `batches` the lines of several types, `items` lists of what has a line, as `events` and the steps in `sizes`, and
//! `paths` and `pages` the other longer replies. In `specs/`, `LineKinds` says which lines stand round a certificate.
#![tactic(auto)]

mod batches;
mod certificates;
mod changes;
mod events;
mod faults;
mod items;
mod pages;
mod paths;
mod printing;
mod queries;
mod responder;
mod sizes;
mod verifying;
mod words;

pub use printing::Printing;
pub use responder::Responder;
