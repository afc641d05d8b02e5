//! What a run keeps between lines.
ghost use Rattle.std.specs.Prelude.{◌≡◌, ℕ, ◌+◌, ◌^◌, ◌<◌, ◌≤◌, ◌++◌, List, [], None, IfOk, IfErr, OnOk, OnErr, MatchOption, string_bytes};
ghost use Rattle.cls_base.specs.Firsts.{First, IsSilent};
ghost use Rattle.cls_engine.specs.Options.{AreInRange};
ghost use Rattle.cls_repo.specs.FaultWords.{IsSaid};
ghost use Rattle.cls_repo.specs.Readings.{closing_faults, no_reading};
ghost use Rattle.cls_replies.specs.Responder.{Serves};
ghost use Rattle.cls_session.specs.Sessions.{CanPrint, IsAnswerTo, IsPrintableIn, Declares, IsFaultAt, SaysFault, reply_in};
ghost use Rattle.cls_session.specs.SessionStates.{Stands, lines_of_session};
ghost use Rattle.cls_session.specs.Transcripts.{Ending, refusal};

use crate::status::Status;
use cls_base::{Gate, OutOfMemory};
use cls_engine::{Host, Options};
use cls_lexer::{Line, Token};
use cls_replies::{Printing, Responder};
use cls_repo::{FaultKind, RepoFault, RepoReader};
use itoa::Buffer;
use std::alloc::Global;
use std::marker::Model;
use std::mem;
use std::sync::Wait;
use std::thread::Threads;

/// What a session answers to a line.
#[derive(Drop)]
pub enum Answer {
    /// This is printed and written, and the session goes on. A line that asks for nothing has the empty reply.
    Reply(Printing),
    /// This is written, and the session ends: the line is the first fault of the repository.
    Refusal(String),
}

/// What is written at the end of the input, and the status of the run.
#[derive(Drop)]
pub struct Outcome {
    /// The rest of the output.
    pub text: String,
    /// The status, `Done` or `Refused`.
    pub status: Status,
}

/// Reads a repository and answers queries, a line at a time. It is seen as what it keeps.
pub struct Session {
    options: Options,
    reader: RepoReader,
    // What answers the lines after the repository, once it is read.
    responder: Option<Responder>,
}

// Not derived, for the prover: so a caller's proof has one step where a session is dropped, and not one for each of its parts.
impl Drop for Session {
    fn drop(self) {
        let Session {
            options: _,
            reader: _,
            responder: _,
        } = self;
    }
}

impl Model for Session {
    ghost use Rattle.std.specs.Coded.{codes};
    ghost use Rattle.cls_kind.specs.Stored.{coded_type};
    ghost use Rattle.cls_library.specs.Stored.{coded_library};
    ghost use Rattle.cls_repo.specs.Stored.{coded_schema};
    ghost use Rattle.cls_session.specs.SessionStates.{SessionState, IsSession};

    ghost Value = { SessionState };

    ghost coded = { Prim.hlevel (codes, coded_schema, coded_type, coded_library) };

    ghost view = { λ s. record { options = s.options; reader = s.reader; responder = s.responder } };

    ghost invariant = { λ s. IsSession record { options = s.options; reader = s.reader; responder = s.responder } };
}

impl Session {
    /// A session that was fed no line. It takes no memory.
    pub fn new(alloc: Global, options: Options) -> Session
        requires { AreInRange options }
        ensures stands { Stands options [] [] result }
        ensures empty { lines_of_session result ≡ 0 }
    {
        Session {
            options,
            reader: RepoReader::new(alloc),
            responder: None,
        }
    }

    /// Takes the next line and answers it. After a refusal or an error, which is out of memory, no further line is to be fed.
    /// The buffer `room` may be reused for the tokens of the line; its content is ignored.
    pub fn feed<'p, R: Threads + Wait + Sync, G: Gate + Sync>(
        &mut self,
        host: &Host<R, G>,
        line: Line<'p>,
        room: &mut Vec<Token<'p>>,
    ) -> Result<Answer, OutOfMemory>
        requires few_lines { lines_of_session self.old + 1 < 2 ^ 32 }
        ensures answered { IfOk result (λ answer. IsAnswerTo self.old line.entry answer self.new) }
        ensures printable { IfOk result (CanPrint self.new) }
        ensures counted { OnOk result (lines_of_session self.new ≤ lines_of_session self.old + 1) }
    {
        if let Some(responder) = &mut self.responder {
            return Ok(Answer::Reply(responder.feed(host, line, room)?));
        }
        match self.declare(host.alloc, &line, room) {
            Ok(()) => Ok(Answer::Reply(Printing::nothing())),
            Err(fault) => Ok(Answer::Refusal(refusal(host.alloc, &fault)?)),
        }
    }

    /// The next portion of a reply to the last line, and what is left of the reply behind it. The portion is empty if and only if
    /// nothing was left. The only error is out of memory.
    pub fn print(
        &mut self,
        alloc: Global,
        printing: Printing,
    ) -> Result<(String, Printing), OutOfMemory>
        requires { IsPrintableIn self.old printing }
        ensures portion { IfOk result (λ r. reply_in self.old printing ≡ string_bytes r.0 ++ reply_in self.old r.1) }
        ensures ended { IfOk result (λ r. string_bytes r.0 ≡ [] → reply_in self.old r.1 ≡ []) }
        ensures printable { IfOk result (λ r. IsPrintableIn self.old r.1) }
        ensures same { self.new ≡ self.old }
    {
        if let Some(responder) = &mut self.responder {
            return responder.print(alloc, printing);
        }
        Ok((String::new(alloc), printing))
    }

    /// Takes back a text that was written, so that its room serves again. It takes no memory.
    pub fn reuse(&mut self, text: String)
        ensures { self.new ≡ self.old }
    {
        if let Some(responder) = &mut self.responder {
            responder.reuse(text);
        }
    }

    /// Ends the output if no further line comes: a repository without the line `end` is refused. After it no further line is
    /// to be fed.
    pub fn finish(&mut self, alloc: Global) -> Result<Outcome, OutOfMemory>
        requires few_lines { lines_of_session self.old < 2 ^ 32 }
        ensures { IfOk result (λ outcome. (o : Options) (lines : List (List ℕ)) (written : List ℕ)
            → Stands o lines written self.old → Ending o lines (written ++ string_bytes outcome.text) outcome.status) }
    {
        if let Some(responder) = &mut self.responder {
            return Ok(Outcome {
                text: responder.finish(alloc)?,
                status: Status::Done,
            });
        }
        Ok(Outcome {
            text: refused(alloc, self.reader.lines(), "no-end")?,
            status: Status::Refused,
        })
    }

    /// Takes a line of the repository. The line `end` opens it. The fault may be out of memory.
    fn declare<'p>(
        &mut self,
        alloc: Global,
        line: &Line<'p>,
        room: &mut Vec<Token<'p>>,
    ) -> Result<(), RepoFault>
        requires reading { self.old.responder ≡ None }
        requires few_lines { lines_of_session self.old + 1 < 2 ^ 32 }
        ensures declared { OnOk result (Declares self.old line.now self.new) }
        ensures fault { IfErr result (IsSaid (IsFaultAt self.old line.now)) }
        ensures counted { lines_of_session self.new ≤ lines_of_session self.old + 1 }
    {
        if !self.reader.feed(alloc, line, room)? {
            return Ok(());
        }
        open(alloc, self.options, &mut self.reader, &mut self.responder)
    }
}

/// Opens the repository that was read, and leaves a reader that was fed no line. The fault may be out of memory.
// Not inlined: a frame is cleared whenever its function is called, and this one's is large.
#[inline(never)]
fn open(
    alloc: Global,
    options: Options,
    reader: &mut RepoReader,
    responder: &mut Option<Responder>,
) -> Result<(), RepoFault>
    requires { AreInRange options }
    ensures serves { OnOk result (MatchOption responder.new ⊥ (Serves options reader.old.draft)) }
    ensures silent { OnOk result (IsSilent (First (closing_faults reader.old))) }
    ensures fault { IfErr result (IsSaid (First (closing_faults reader.old))) }
    ensures emptied { reader.new ≡ no_reading }
    ensures same { OnErr result (responder.new ≡ responder.old) }
{
    let read = mem::replace(reader, RepoReader::new(alloc));
    let repository = read.finish(alloc)?;
    responder.insert(Responder::new(alloc, repository, options));
    Ok(())
}

/// The line that refuses a repository. The only error is out of memory, which is also the answer where that is the fault.
// Not inlined: a frame is cleared whenever its function is called, and this one's is large.
#[inline(never)]
fn refusal(alloc: Global, fault: &RepoFault) -> Result<String, OutOfMemory>
    ensures { IfOk result (λ text. SaysFault fault.now (string_bytes text)) }
{
    if matches!(fault.kind, FaultKind::OutOfMemory) {
        return Err(OutOfMemory);
    }
    let words = fault.words(alloc)?;
    refused(alloc, fault.line, words.as_str())
}

/// The line that says what is wrong at the line of this number.
fn refused(alloc: Global, line: u32, words: &str) -> Result<String, OutOfMemory>
    ensures { IfOk result (λ text. string_bytes text ≡ refusal (line, words.now)) }
{
    let mut buffer = Buffer::new();
    let mut text = String::from_str(alloc, "refused ")?;
    text.push_str(buffer.format(line))?;
    text.push(' ')?;
    text.push_str(words)?;
    text.push('\n')?;
    Ok(text)
}
