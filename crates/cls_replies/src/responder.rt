//! The lines after a repository, one after another.
ghost use Rattle.std.specs.Prelude.{ℕ, ◌≡◌, ◌+◌, ◌<◌, ◌≤◌, ◌^◌, [], length, IfOk, OnOk, string_bytes};
ghost use Rattle.cls_term.specs.Costs.{cost_of};
ghost use Rattle.cls_engine.specs.Engines.{seen_as};
ghost use Rattle.cls_engine.specs.Options.{AreInRange};
ghost use Rattle.cls_replies.specs.Answering.{Answered};
ghost use Rattle.cls_replies.specs.LineKinds.{IsSingle};
ghost use Rattle.cls_replies.specs.Lines.{Goes, Ends};
ghost use Rattle.cls_replies.specs.Printing.{IsPrintable, left_of};
ghost use Rattle.cls_replies.specs.Responder.{responder_of};
ghost use Rattle.cls_replies.specs.Steps.{Concludes};

use crate::certificates::{LineKind, is_qed, kind_of};
use crate::faults::line_fault;
use crate::printing::{Printing, text_printing};
use cls_assemble::Templates;
use cls_base::{Gate, OutOfMemory};
use cls_engine::{Engine, Host, Options};
use cls_filter::Filters;
use cls_kind::Kinds;
use cls_lexer::{Line, Names, Token};
use cls_proof::HeldLines;
use cls_query::read_query;
use cls_repo::Repository;
use std::alloc::Global;
use std::marker::Model;
use std::mem;
use std::sync::Wait;
use std::thread::Threads;

/// The most bytes of room that are kept, 256 KiB.
const MAX_ROOM_BYTES: usize = 262_144;

/// A query whose certificate hasn't ended: its line, and the lines behind it.
#[derive(Drop)]
struct Held {
    line: Line<'static>,
    inside: HeldLines,
}

/// Answers the lines after a repository. It is seen as what it keeps. That is what the repository is: the names of
/// constructors and of variables so far, the names of components, the kinds of variables, the templates of components,
/// the names of filters, the filters, and the engine. And it is the lines of a query whose certificate hasn't ended.
pub struct Responder {
    pub(crate) names: Names,
    pub(crate) variables: Names,
    pub(crate) components: Names,
    pub(crate) kinds: Kinds,
    pub(crate) templates: Templates,
    pub(crate) filter_names: Names,
    pub(crate) filters: Filters,
    pub(crate) engine: Engine,
    held: Option<Held>,
    // Room for the text of a reply: that of an earlier text.
    room: String,
}

// Not derived, for the prover: so a caller's proof has one step where a value is dropped, and not one for each part of it.
impl Drop for Responder {
    fn drop(self) {
        let Responder {
            names: _,
            variables: _,
            components: _,
            kinds: _,
            templates: _,
            filter_names: _,
            filters: _,
            engine: _,
            held: _,
            room: _,
        } = self;
    }
}

impl Model for Responder {
    ghost use Rattle.std.specs.Coded.{codes};
    ghost use Rattle.cls_kind.specs.Stored.{coded_type};
    ghost use Rattle.cls_library.specs.Stored.{coded_library};
    ghost use Rattle.cls_replies.specs.Responder as responder;
    ghost use Rattle.cls_replies.specs.Responder.{responder_of, IsResponder};
    ghost use Rattle.cls_replies.specs.Steps.{held_lines};

    ghost Value = { responder.Responder };

    ghost coded = { Prim.hlevel (codes, coded_type, coded_library) };

    ghost view = { λ s. responder_of s.names s.variables s.components s.kinds s.templates
        s.filter_names s.filters s.engine (held_lines s.held) };

    ghost invariant = { λ s. IsResponder (responder_of s.names s.variables s.components s.kinds s.templates
        s.filter_names s.filters s.engine (held_lines s.held)) };
}

impl Responder {
    /// Answers by the repository, each of whose components has a name and a template and costs at least 1, and each of
    /// whose filters has a name. It takes no memory.
    pub fn new(alloc: Global, repository: Repository, options: Options) -> Responder
        requires in_range { AreInRange options }
        requires costs { (x : ℕ) → 0 < cost_of repository.costs x }
        requires named { length repository.components ≡ length repository.library.components }
        requires written { length repository.templates ≡ length repository.library.components }
        requires filtered { length repository.filter_names ≡ length repository.filters }
        ensures { result ≡ responder_of repository.names repository.variables repository.components repository.kinds
            repository.templates repository.filter_names repository.filters
            (seen_as repository.library repository.costs options) [] }
    {
        Responder {
            names: repository.names,
            variables: repository.variables,
            components: repository.components,
            kinds: repository.kinds,
            templates: repository.templates,
            filter_names: repository.filter_names,
            filters: repository.filters,
            engine: Engine::new(alloc, repository.library, repository.costs, options),
            held: None,
            room: String::new(alloc),
        }
    }

    /// Takes the next line, and gives what is written for it, which is to be printed before the next line is fed. After
    /// an error, which is out of memory, no further line is to be fed. The buffer `room` may be reused for the tokens of
    /// the line; its content is ignored.
    // Not inlined: a frame is cleared whenever its function is called, and this one's is large.
    #[inline(never)]
    pub fn feed<'p, R: Threads + Wait + Sync, G: Gate + Sync>(
        &mut self,
        host: &Host<R, G>,
        line: Line<'p>,
        room: &mut Vec<Token<'p>>,
    ) -> Result<Printing, OutOfMemory>
        requires { length self.old.held + 1 < 2 ^ 32 }
        ensures goes { IfOk result (λ p. Goes self.old line.entry (left_of self.new p) self.new) }
        ensures printable { IfOk result (IsPrintable self.new) }
        ensures counted { OnOk result (length self.new.held ≤ length self.old.held + 1) }
    {
        match &mut self.held {
            None => self.feed_free(host, line, room),
            Some(held) => {
                let ends = is_qed(host.alloc, &line)?;
                held.inside.push(&line)?;
                if ends {
                    text_printing(self.answer_held(host.alloc))
                } else {
                    Ok(Printing::nothing())
                }
            }
        }
    }

    /// Takes back a text that was written, so that a later one may be written in its room. It takes no memory.
    pub fn reuse(&mut self, text: String)
        ensures { self.new ≡ self.old }
    {
        let capacity = text.capacity();
        if self.room.capacity() < capacity && capacity <= MAX_ROOM_BYTES {
            self.room = text;
        }
    }

    /// An empty text, for which the buffer that is kept is reused.
    pub(crate) fn empty_text(&mut self, alloc: Global) -> String
        ensures empty { string_bytes result ≡ [] }
        ensures same { self.new ≡ self.old }
    {
        let mut text = mem::replace(&mut self.room, String::new(alloc));
        text.clear();
        text
    }

    /// Gives what is written if no line follows. After it no further line is to be fed.
    pub fn finish(&mut self, alloc: Global) -> Result<String, OutOfMemory>
        requires { length self.old.held < 2 ^ 32 }
        ensures { IfOk result (λ text. Ends self.old (string_bytes text)) }
    {
        self.answer_held(alloc)
    }

    /// What is written for the lines that are held, which are held no longer.
    fn answer_held(&mut self, alloc: Global) -> Result<String, OutOfMemory>
        requires few { length self.old.held < 2 ^ 32 }
        ensures concludes { IfOk result (λ text. Concludes self.old self.old.held (string_bytes text) self.new) }
        ensures free { OnOk result (self.new.held ≡ []) }
    {
        match self.held.take() {
            Some(Held { line, inside }) => self.verify(alloc, &line, inside),
            None => Ok(String::new(alloc)),
        }
    }

    /// Takes the next line, outside of a certificate.
    fn feed_free<'p, R: Threads + Wait + Sync, G: Gate + Sync>(
        &mut self,
        host: &Host<R, G>,
        line: Line<'p>,
        room: &mut Vec<Token<'p>>,
    ) -> Result<Printing, OutOfMemory>
        requires { self.old.held ≡ [] }
        ensures goes { IfOk result (λ p. Goes self.old line.entry (left_of self.new p) self.new) }
        ensures printable { IfOk result (IsPrintable self.new) }
        ensures counted { OnOk result (length self.new.held ≤ 1) }
    {
        match kind_of(host.alloc, &line)? {
            LineKind::Skipped => Ok(Printing::nothing()),
            LineKind::Opening => {
                self.held = Some(Held {
                    line: line.into_owned(host.alloc)?,
                    inside: HeldLines::new(host.alloc),
                });
                Ok(Printing::nothing())
            }
            LineKind::Changing => self.change(host.alloc, &line, room),
            LineKind::Single => self.ask(host, &line, room),
        }
    }

    /// Answers a line that is a query by itself.
    fn ask<'p, R: Threads + Wait + Sync, G: Gate + Sync>(
        &mut self,
        host: &Host<R, G>,
        line: &Line<'p>,
        room: &mut Vec<Token<'p>>,
    ) -> Result<Printing, OutOfMemory>
        requires { IsSingle line.now }
        ensures answered { IfOk result (λ p. Answered self.old line.now (left_of self.new p) self.new) }
        ensures printable { IfOk result (IsPrintable self.new) }
        ensures same_held { OnOk result (self.new.held ≡ self.old.held) }
    {
        match read_query(
            host.alloc,
            &mut self.names,
            &mut self.variables,
            &self.components,
            &self.filter_names,
            line,
            room,
        ) {
            Ok(query) => self.answer(host, &query),
            Err(fault) => text_printing(line_fault(host.alloc, &fault)),
        }
    }
}
