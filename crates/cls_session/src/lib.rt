//! A run of clsynth: a repository and queries in, replies out.
//!
//! - [`run`] is the one call that the program makes, and its contract is the headline theorem: what is written is an
//!   output that the language allows for the words and the bytes that came. The language is defined in `specs/`, with
//!   `Outputs` at its top.
//! - [`Status`] says how a run ended.
//! - [`read_words`] reads the words of the command line: a [`Command`] with its [`Options`].
//! - [`laws`] holds what is true of every input.
//!
//! Inside, a `Session` takes one line after another and answers it; the driver feeds it the lines of the source while
//! they come, and writes the answers before it reads on. The generator's text, if the words ask for it, is a source of
//! its own.
#![tactic(auto)]

mod driver;
mod generator;
pub mod laws;
mod output;
mod program;
mod session;
mod settings;
mod status;
mod words;

pub use cls_engine::Options;
pub use program::run;
pub use status::Status;
pub use words::{Command, UsageFault, read_words};
