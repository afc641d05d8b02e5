ghost use Rattle.std.specs.Prelude.{◌≡◌, ◌≢◌, Some, IfSome};
ghost use Rattle.std.specs.Io.KnownBytes.{IsAtEnd, Keeps};
ghost use Rattle.cls_base.specs.Outside.{HasRisen};
ghost use Rattle.cls_engine.specs.Options.{AreInRange};
ghost use Rattle.cls_session.specs.Commands.{texts_of, AsksSession};
ghost use Rattle.cls_session.specs.Generators.{generated_text};
ghost use Rattle.cls_session.specs.Outputs.{IsWhole, IsBrokenOff, IsCutOff, IsEnoughRoom, HasRoom};
ghost use Rattle.cls_session.specs.Outputs.{Answers, BeginsAnswers, AnswersTaken, BeginsTaken, KeepsPace};
ghost use Rattle.cls_session.specs.Outputs.{Gives, GivesFront, SessionOutput, SessionText};
ghost use Rattle.cls_session.specs.Outputs.{SessionAnswers, SessionBegins, SessionTaken, SessionPace, SessionRoom};
ghost use Rattle.cls_session.specs.Stops.{status_of};
ghost use Rattle.cls_session.specs.declared.status.Status.TheVariants.{Done, Usage, ReadFault, WriteFault};

use crate::driver::{Stop, answer_lines, finish};
use crate::generator::generated_text;
use crate::output::write_all;
use crate::session::Session;
use crate::status::Status;
use crate::words::{Command, read_words};
use cls_base::limits::{MAX_INPUT_BYTES, MAX_READ_BYTES};
use cls_base::{Gate, Sink, Source, SureSource};
use cls_engine::{Host, Options};
use cls_lexer::LineReader;
use std::alloc::Global;
use std::sync::Wait;
use std::thread::Threads;

/// What the program writes if its words aren't in the form that this line gives.
const USAGE: &str =
    "usage: clsynth [--workers N] [--max-goals N] [--max-rules N] [--pool N] [generate N]\n";

impl From<Stop> for Status {
    ghost from_gives = { λ stop status. status ≡ status_of stop };

    fn from(stop: Stop) -> Status {
        match stop {
            Stop::Refused => Status::Refused,
            Stop::WriteFault => Status::WriteFault,
            Stop::NoMemory => Status::NoMemory,
        }
    }
}

/// Runs clsynth: reads the source, and answers its lines one after another into the sink. If the words ask for the
/// generator, the lines of its text are answered, and the source isn't read. What the run keeps in memory is left to the end of
/// the process.
pub fn run<R: Threads + Wait + Sync, S: Source, K: Sink, G: Gate + Sync>(
    rt: &R,
    alloc: Global,
    words: &[String],
    source: &mut S,
    sink: &mut K,
    gate: &G,
) -> Status
    requires room { HasRoom (texts_of words.now) (S.seen source.old) (K.seen sink.old) }

    // The output, if nothing failed.
    ensures output { IsWhole result
        → Answers (texts_of words.now) (S.seen source.old) (K.seen sink.old) (K.seen sink.new) result }
    ensures read_whole { result ≡ Done → AsksSession (texts_of words.now) → IsAtEnd (S.seen source.new).left }
    ensures unread { result ≡ Usage → Keeps (S.seen source.old).left (S.seen source.new).left }
    ensures unasked { (AsksSession (texts_of words.now) → ⊥) → S.seen source.new ≡ S.seen source.old }

    // What stands written if a read or a write failed or the run was out of memory.
    ensures none_waits { result ≡ ReadFault → AnswersTaken (texts_of words.now)
        (S.seen source.old) (S.seen source.new) (K.seen sink.old) (K.seen sink.new) }
    ensures begins_taken { result ≡ ReadFault → BeginsTaken (texts_of words.now)
        (S.seen source.old) (S.seen source.new) (K.seen sink.old) (K.seen sink.new) }
    ensures begins { IsCutOff result
        → BeginsAnswers (texts_of words.now) (S.seen source.old) (K.seen sink.old) (K.seen sink.new) }
    ensures keeps_pace { IsBrokenOff result → KeepsPace (texts_of words.now)
        (S.seen source.old) (S.seen source.new) (K.seen sink.old) (K.seen sink.new) }

    // The counts of faults.
    ensures read_fault { result ≡ ReadFault → HasRisen (S.seen source.old).faults (S.seen source.new).faults }
    ensures write_fault { result ≡ WriteFault → HasRisen (K.seen sink.old).faults (K.seen sink.new).faults }
    ensures no_read_fault { IsWhole result → (S.seen source.new).faults ≡ (S.seen source.old).faults }
    ensures no_write_fault { IsWhole result → (K.seen sink.new).faults ≡ (K.seen sink.old).faults }
{
    let host = Host { rt, alloc, gate };
    match read_words(words) {
        Ok(Command::Session(options)) => answer_input(&host, options, source, sink),
        Ok(Command::Generate(options, count)) => answer_generated(&host, options, count, sink),
        Err(_) => match write_all(sink, USAGE.as_bytes()) {
            Ok(()) => Status::Usage,
            Err(_) => Status::WriteFault,
        },
    }
}

/// Answers the lines of the generator's text, and ends the output.
fn answer_generated<R: Threads + Wait + Sync, K: Sink, G: Gate + Sync>(
    host: &Host<R, G>,
    options: Options,
    count: u32,
    sink: &mut K,
) -> Status
    requires in_range { AreInRange options }
    requires room { IfSome (K.seen sink.old).room
        (λ n. IsEnoughRoom (SessionText options) (Some (generated_text count)) n) }

    ensures output { IsWhole result → Gives
        (λ text. SessionOutput options (generated_text count) text result) (K.seen sink.old) (K.seen sink.new) }
    ensures never_usage { result ≢ Usage }

    ensures begins { IsCutOff result
        → GivesFront (SessionText options (generated_text count)) (K.seen sink.old) (K.seen sink.new) }
    ensures never_read_fault { result ≢ ReadFault }

    ensures write_fault { result ≡ WriteFault → HasRisen (K.seen sink.old).faults (K.seen sink.new).faults }
    ensures no_write_fault { IsWhole result → (K.seen sink.new).faults ≡ (K.seen sink.old).faults }
{
    match generated_text(host.alloc, count) {
        Ok(text) => {
            let mut source = SureSource::new(text.into_bytes());
            answer_input(host, options, &mut source, sink)
        }
        Err(_) => Status::NoMemory,
    }
}

/// Answers the lines of the source while they come, and ends the output.
fn answer_input<R: Threads + Wait + Sync, S: Source, K: Sink, G: Gate + Sync>(
    host: &Host<R, G>,
    options: Options,
    source: &mut S,
    sink: &mut K,
) -> Status
    requires in_range { AreInRange options }
    requires room { SessionRoom options (S.seen source.old) (K.seen sink.old) }

    ensures output { IsWhole result
        → SessionAnswers options (S.seen source.old) (K.seen sink.old) (K.seen sink.new) result }
    ensures read_whole { result ≡ Done → IsAtEnd (S.seen source.new).left }
    ensures never_usage { result ≢ Usage }

    ensures none_waits { result ≡ ReadFault
        → SessionTaken options (S.seen source.old) (S.seen source.new) (K.seen sink.old) (K.seen sink.new) }
    ensures begins { IsCutOff result
        → SessionBegins options (S.seen source.old) (K.seen sink.old) (K.seen sink.new) }
    ensures keeps_pace { IsBrokenOff result
        → SessionPace options (S.seen source.old) (S.seen source.new) (K.seen sink.old) (K.seen sink.new) }

    ensures read_fault { result ≡ ReadFault → HasRisen (S.seen source.old).faults (S.seen source.new).faults }
    ensures write_fault { result ≡ WriteFault → HasRisen (K.seen sink.old).faults (K.seen sink.new).faults }
    ensures no_read_fault { IsWhole result → (S.seen source.new).faults ≡ (S.seen source.old).faults }
    ensures no_write_fault { IsWhole result → (K.seen sink.new).faults ≡ (K.seen sink.old).faults }
{
    let mut session = Session::new(host.alloc, options);
    let mut reader = LineReader::new(host.alloc);
    let mut buffer = [0u8; MAX_READ_BYTES];
    let mut taken = 0;
    'pieces: loop {
        let Ok(count) = source.read(&mut buffer) else {
            return Status::ReadFault;
        };
        if count == 0 {
            return match finish(host, session, reader, sink) {
                Ok(status) => status,
                Err(stop) => stop.into(),
            };
        }
        let (piece, over) = buffer[..count].split_at(count.min(MAX_INPUT_BYTES - taken));
        if let Err(stop) = answer_lines(host, &mut session, &mut reader, piece, sink) {
            return stop.into();
        }
        if !over.is_empty() {
            return Status::TooLong;
        }
        taken += count;
    }
}
