ghost use Rattle.std.specs.Prelude.{◌≡◌, ℕ, ◌+◌, ◌^◌, ◌<◌, ◌≤◌, [], ◌++◌, length, OnOk};
ghost use Rattle.cls_lexer.specs.Lines.{HasNoFeed};
ghost use Rattle.cls_base.specs.Outside.{Holds};
ghost use Rattle.cls_session.specs.Sessions.{IsPrintableIn, reply_in};
ghost use Rattle.cls_session.specs.SessionStates.{lines_of_session};
ghost use Rattle.cls_session.specs.declared.driver.Stop.TheVariants.{WriteFault, NoMemory};
ghost use Rattle.cls_session.specs.Driving.{MatchStop, MatchEachStop, CountsFaults};
ghost use Rattle.cls_session.specs.Driving.{Writes, WritesAllBut, WritesFront, WritesFrontBut};
ghost use Rattle.cls_session.specs.Driving.{FitsLine, AnswersLine, RefusesLine, BreaksLine};
ghost use Rattle.cls_session.specs.Driving.{FitsLines, AnswersLines, RefusesLines, BreaksLines};
ghost use Rattle.cls_session.specs.Driving.{AnswersPending, RefusesPending, LeavesPending};
ghost use Rattle.cls_session.specs.Driving.{FitsLast, AnswersLast, RefusesLast, BreaksLast, EndsOutput};

use crate::output::{PendingReplies, write_all};
use crate::session::{Answer, Session};
use crate::status::Status;
use cls_base::{Failed, Gate, OutOfMemory, Sink};
use cls_engine::Host;
use cls_lexer::{Line, LineReader, Piece};
use cls_replies::Printing;
use std::alloc::Global;
use std::mem;
use std::sync::Wait;
use std::thread::Threads;

/// Why the lines of an input aren't answered to the end.
#[derive(Clone, Copy, Debug, PartialEq, Eq)]
pub enum Stop {
    /// The repository has a fault, and the refusal was written.
    Refused,
    /// A write failed.
    WriteFault,
    /// The run is out of memory.
    NoMemory,
}

impl From<OutOfMemory> for Stop {
    ghost from_gives = { λ _ stop. stop ≡ NoMemory };

    fn from(_: OutOfMemory) -> Stop {
        Stop::NoMemory
    }
}

impl From<Failed> for Stop {
    ghost from_gives = { λ _ stop. stop ≡ WriteFault };

    fn from(_: Failed) -> Stop {
        Stop::WriteFault
    }
}

/// Answers one line, and writes the reply.
pub fn answer_line<R: Threads + Wait + Sync, K: Sink, G: Gate + Sync>(
    host: &Host<R, G>,
    session: &mut Session,
    line: Line,
    sink: &mut K,
) -> Result<(), Stop>
    requires few_lines { lines_of_session session.old + 1 < 2 ^ 32 }
    requires room { FitsLine (K.seen sink.old) session.old line }
    ensures answers { MatchStop result
        (λ _. AnswersLine (K.seen sink.old) (K.seen sink.new) session.old session.new line.entry)
        (RefusesLine (K.seen sink.old) (K.seen sink.new) session.old line.entry)
        (BreaksLine (K.seen sink.old) (K.seen sink.new) session.old line.entry) }
    ensures counted { OnOk result (lines_of_session session.new ≤ lines_of_session session.old + 1) }
    ensures faults { CountsFaults result (K.seen sink.old) (K.seen sink.new) }
{
    let answer = session.feed(host, line, &mut Vec::new(host.alloc))?;
    match answer {
        Answer::Reply(printing) => write_reply(host.alloc, session, printing, sink),
        Answer::Refusal(text) => {
            write_all(sink, text.as_bytes())?;
            Err(Stop::Refused)
        }
    }
}

/// Prints a reply and writes it, one portion after another.
fn write_reply<K: Sink>(
    alloc: Global,
    session: &mut Session,
    printing: Printing,
    sink: &mut K,
) -> Result<(), Stop>
    requires printable { IsPrintableIn session.old printing }
    requires room { Holds (K.seen sink.old).room (length (reply_in session.old printing)) }
    ensures written { let reply = reply_in session.old printing in MatchStop result
        (λ _. Writes (K.seen sink.old) (K.seen sink.new) reply) ⊥
        (WritesFront (K.seen sink.old) (K.seen sink.new) reply) }
    ensures same { session.new ≡ session.old }
    ensures faults { CountsFaults result (K.seen sink.old) (K.seen sink.new) }
{
    let mut left = printing;
    'portions: loop {
        let (portion, rest) = session.print(alloc, left)?;
        let bytes = portion.as_bytes();
        if bytes.is_empty() {
            return Ok(());
        }
        write_all(sink, bytes)?;
        session.reuse(portion);
        left = rest;
    }
}

/// Answers the lines that end in the piece one after another, and holds back what comes after the last line feed. The
/// replies are written together, and all of them before the answer is given, also if it is an error.
pub fn answer_lines<R: Threads + Wait + Sync, K: Sink, G: Gate + Sync>(
    host: &Host<R, G>,
    session: &mut Session,
    reader: &mut LineReader,
    piece: &[u8],
    sink: &mut K,
) -> Result<(), Stop>
    requires few_lines { lines_of_session session.old + length (reader.old ++ piece.now) < 2 ^ 32 }
    requires room { FitsLines (K.seen sink.old) session.old (reader.old ++ piece.now) }
    ensures answers { let text = reader.old ++ piece.now in MatchStop result
        (λ _. AnswersLines (K.seen sink.old) (K.seen sink.new) session.old session.new text reader.new)
        (RefusesLines (K.seen sink.old) (K.seen sink.new) session.old text)
        (BreaksLines (K.seen sink.old) (K.seen sink.new) session.old text) }
    ensures no_feed { OnOk result (HasNoFeed reader.new) }
    ensures counted { OnOk result
        (lines_of_session session.new + length reader.new
        ≤ lines_of_session session.old + length (reader.old ++ piece.now)) }
    ensures faults { CountsFaults result (K.seen sink.old) (K.seen sink.new) }
{
    let mut pending = PendingReplies::new(host.alloc);
    let answered = collect_replies(host, session, reader, piece, &mut pending, sink);
    // After a failed write nothing more is written.
    if answered == Err(Stop::WriteFault) {
        return answered;
    }
    pending.write(sink)?;
    answered
}

/// Answers the lines that end in the piece, as `answer_lines` does, but for the last replies, which are left pending.
/// After a failed write these are of no use.
fn collect_replies<R: Threads + Wait + Sync, K: Sink, G: Gate + Sync>(
    host: &Host<R, G>,
    session: &mut Session,
    reader: &mut LineReader,
    piece: &[u8],
    pending: &mut PendingReplies,
    sink: &mut K,
) -> Result<(), Stop>
    requires none_pending { pending.old ≡ [] }
    requires few_lines { lines_of_session session.old + length (reader.old ++ piece.now) < 2 ^ 32 }
    requires room { FitsLines (K.seen sink.old) session.old (reader.old ++ piece.now) }
    ensures answers { let text = reader.old ++ piece.now in MatchEachStop result
        (λ _. AnswersPending (K.seen sink.old) (K.seen sink.new) session.old session.new text reader.new pending.new)
        (RefusesPending (K.seen sink.old) (K.seen sink.new) session.old text pending.new)
        (BreaksLines (K.seen sink.old) (K.seen sink.new) session.old text)
        (LeavesPending (K.seen sink.old) (K.seen sink.new) session.old text pending.new) }
    ensures no_feed { OnOk result (HasNoFeed reader.new) }
    ensures counted { OnOk result
        (lines_of_session session.new + length reader.new
        ≤ lines_of_session session.old + length (reader.old ++ piece.now)) }
    ensures faults { CountsFaults result (K.seen sink.old) (K.seen sink.new) }
{
    let mut rest = Piece::new(piece);
    let mut room = Vec::new(host.alloc);
    'lines: loop {
        let (line, after) = reader.take(host.alloc, rest)?;
        let Some(line) = line else {
            return Ok(());
        };
        let answer = session.feed(host, line, &mut room)?;
        match answer {
            Answer::Reply(printing) => put_reply(host.alloc, session, printing, pending, sink)?,
            Answer::Refusal(text) => {
                pending.put(text.as_str(), sink)?;
                return Err(Stop::Refused);
            }
        }
        rest = after;
    }
}

/// Prints a reply and puts it behind what is pending, one portion after another.
fn put_reply<K: Sink>(
    alloc: Global,
    session: &mut Session,
    printing: Printing,
    pending: &mut PendingReplies,
    sink: &mut K,
) -> Result<(), Stop>
    requires printable { IsPrintableIn session.old printing }
    requires room { Holds (K.seen sink.old).room (length (pending.old ++ reply_in session.old printing)) }
    ensures put { let text = pending.old ++ reply_in session.old printing in MatchEachStop result
        (λ _. WritesAllBut (K.seen sink.old) (K.seen sink.new) text pending.new) ⊥
        (WritesFront (K.seen sink.old) (K.seen sink.new) text)
        (WritesFrontBut (K.seen sink.old) (K.seen sink.new) text pending.new) }
    ensures same { session.new ≡ session.old }
    ensures faults { CountsFaults result (K.seen sink.old) (K.seen sink.new) }
{
    let mut left = printing;
    'portions: loop {
        let (portion, rest) = session.print(alloc, left)?;
        let text = portion.as_str();
        if text.is_empty() {
            return Ok(());
        }
        pending.put(text, sink)?;
        session.reuse(portion);
        left = rest;
    }
}

/// Answers the last line, which has no line feed, if a byte stands in it.
pub fn answer_last<R: Threads + Wait + Sync, K: Sink, G: Gate + Sync>(
    host: &Host<R, G>,
    session: &mut Session,
    reader: LineReader,
    sink: &mut K,
) -> Result<(), Stop>
    requires few_lines { lines_of_session session.old + length reader < 2 ^ 32 }
    requires room { FitsLast (K.seen sink.old) session.old reader }
    ensures answers { MatchStop result
        (λ _. AnswersLast (K.seen sink.old) (K.seen sink.new) session.old session.new reader)
        (RefusesLast (K.seen sink.old) (K.seen sink.new) session.old reader)
        (BreaksLast (K.seen sink.old) (K.seen sink.new) session.old reader) }
    ensures counted { OnOk result (lines_of_session session.new ≤ lines_of_session session.old + length reader) }
    ensures faults { CountsFaults result (K.seen sink.old) (K.seen sink.new) }
{
    match reader.finish() {
        None => Ok(()),
        Some(line) => {
            answer_line(host, session, line, sink)?;
            Ok(())
        }
    }
}

/// Answers what is left at the end of the input, and ends the output. The memory of the session is left to the end of the process.
pub fn finish<R: Threads + Wait + Sync, K: Sink, G: Gate + Sync>(
    host: &Host<R, G>,
    mut session: Session,
    reader: LineReader,
    sink: &mut K,
) -> Result<Status, Stop>
    requires few_lines { lines_of_session session + length reader < 2 ^ 32 }
    requires room { FitsLast (K.seen sink.old) session reader }
    ensures answers { MatchStop result
        (EndsOutput (K.seen sink.old) (K.seen sink.new) session reader)
        (RefusesLast (K.seen sink.old) (K.seen sink.new) session reader)
        (BreaksLast (K.seen sink.old) (K.seen sink.new) session reader) }
    ensures faults { CountsFaults result (K.seen sink.old) (K.seen sink.new) }
{
    answer_last(host, &mut session, reader, sink)?;
    let outcome = session.finish(host.alloc)?;
    // The process ends with the run, and with it all memory goes back at once. To drop it piece by piece takes long.
    mem::forget(session);
    write_all(sink, outcome.text.as_bytes())?;
    Ok(outcome.status)
}
