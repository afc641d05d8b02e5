ghost use Rattle.std.specs.Prelude.{◌≡◌};
ghost use Rattle.std.specs.Process.{exit_status};
ghost use Rattle.cls_process.specs.Exits.{number_of};
ghost use Rattle.cls_process.specs.Runs.{IsRun};
ghost use Rattle.cls_session.specs.Commands.{texts_of};
ghost use Rattle.cls_session.specs.Outputs.{HasRoom};

use crate::std_sink::StdSink;
use crate::std_source::StdSource;
use cls_base::{OpenGate, Sink, Source};
use cls_session::{Status, run};
use std::alloc::Global;
use std::env::{self, Env};
use std::io::{self, ErrorKind, Stdin, Stdout};
use std::process::ExitCode;
use std::sync::Wait;
use std::thread::Threads;

/// Runs clsynth with the words of the command line over the standard streams. If the words aren't text, nothing is
/// read or written.
pub fn run_process<R: Threads + Wait + Sync + Env + AllocGlobal>(
    rt: &R,
    stdin: Stdin,
    stdout: Stdout,
) -> ExitCode
    ensures { (status : Status) × (exit_status result ≡ number_of status) }
{
    match words(rt) {
        Ok(words) => {
            let mut source = StdSource::new(stdin);
            let mut sink = StdSink::new(stdout);
            run_to_exit(rt, rt.alloc(), &words, &mut source, &mut sink)
        }
        Err(error) if error.kind() == ErrorKind::OutOfMemory => exit_code(Status::NoMemory),
        Err(_) => exit_code(Status::Usage),
    }
}

/// The words of the command line, without the program's own name.
fn words<R: Env + AllocGlobal>(rt: &R) -> io::Result<Vec<String>> {
    Ok(env::args(rt)?.skip(1).collect(rt.alloc())?)
}

/// Runs clsynth over the source and the sink, and gives the process the status of the run.
pub fn run_to_exit<R: Threads + Wait + Sync, S: Source, K: Sink>(
    rt: &R,
    alloc: Global,
    words: &[String],
    source: &mut S,
    sink: &mut K,
) -> ExitCode
    requires { HasRoom (texts_of words.now) (S.seen source.old) (K.seen sink.old) }
    ensures { (status : Status) × (exit_status result ≡ number_of status)
        × IsRun (texts_of words.now)
        (S.seen source.old) (S.seen source.new) (K.seen sink.old) (K.seen sink.new) status }
{
    exit_code(run(rt, alloc, words, source, sink, &OpenGate))
}

/// The status of the process at the end of a run.
fn exit_code(status: Status) -> ExitCode
    ensures { exit_status result ≡ number_of status }
{
    ExitCode::from(status as u8)
}
