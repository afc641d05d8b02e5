//! A run of clsynth as a process: the words of the command line, the standard streams, and the status at the end.
//!
//! - [`run_process`] is all that the program does.
//! - [`run_to_exit`] is its core: a run over any source and sink, and the status of the run as that of the process.
//! - [`StdSource`] and [`StdSink`] give the standard streams as a source and a sink.
#![tactic(auto)]

mod process;
mod std_sink;
mod std_source;

pub use process::{run_process, run_to_exit};
pub use std_sink::StdSink;
pub use std_source::StdSource;
