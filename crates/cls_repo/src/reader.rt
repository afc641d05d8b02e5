//! The reader of a repository, which takes one line at a time.
ghost use Rattle.std.specs.Prelude.{◌≡◌, ◌+◌, ◌<◌, ◌^◌, false, IfOk, IfErr, OnOk, OnErr};
ghost use Rattle.cls_base.specs.Firsts.{IsSilent, First};
ghost use Rattle.cls_lexer.specs.Skipped.{IsText, IsSkipped};
ghost use Rattle.cls_repo.specs.FaultWords.{IsSaid, OnWords};
ghost use Rattle.cls_repo.specs.Readings.{no_reading, Takes, Refuses, closing_faults};
ghost use Rattle.cls_repo.specs.Repositories.{IsRepositoryOf};
ghost use Rattle.cls_repo.specs.Sound.{IsWhole};
ghost use Rattle.cls_repo.specs.Written.{draft_of, TakesLine, RefusesLine};

use crate::declaration::{CutLine, declare};
use crate::draft::Draft;
use crate::fault::{FaultKind, RepoFault};
use crate::repository::{Repository, build};
use crate::spelling::read_directive;
use cls_lexer::{Line, TextFault, Token};
use std::alloc::Global;
use std::marker::Model;

/// A reader of the lines of a repository, seen as what it has read: what the lines declare, how many they are, and
/// whether `end` was one of them.
#[derive(Drop)]
pub struct RepoReader {
    draft: Draft,
    lines: u32,
    ended: bool,
}

impl Model for RepoReader {
    ghost use Rattle.std.specs.Coded.{codes};
    ghost use Rattle.cls_kind.specs.Stored.{coded_type};
    ghost use Rattle.cls_repo.specs.Readings.{Reading};
    ghost use Rattle.cls_repo.specs.Sound.{IsSound};
    ghost use Rattle.cls_repo.specs.Stored.{coded_schema};
    ghost use Rattle.cls_repo.specs.Written.{draft_of};

    ghost Value = { Reading };

    ghost coded = { Prim.hlevel (codes, coded_schema, coded_type) };

    ghost view = { λ r. record { draft = draft_of r.draft; lines = r.lines; ended = r.ended } };

    ghost invariant = { λ r. IsSound (draft_of r.draft) };
}

impl RepoReader {
    /// A reader that was fed no line. It takes no memory.
    pub fn new(alloc: Global) -> RepoReader
        ensures { result ≡ no_reading }
    {
        RepoReader {
            draft: Draft::new(alloc),
            lines: 0,
            ended: false,
        }
    }

    /// Takes the next line, and says whether it is the line `end`, after which no further line is to be fed.
    ///
    /// The fault is the first one of the line, in the order in which [`FaultKind`] lists them, or out of memory. After
    /// it the reader is as before. The buffer `room` may be reused for the tokens of the line; its content is ignored.
    pub fn feed<'p>(
        &mut self,
        alloc: Global,
        line: &Line<'p>,
        room: &mut Vec<Token<'p>>,
    ) -> Result<bool, RepoFault>
        requires going { self.old.ended ≡ false }
        requires room { self.old.lines + 1 < 2 ^ 32 }
        ensures taken { OnOk result (Takes self.old line.now self.new) }
        ensures ended { IfOk result (λ ended. ended ≡ self.new.ended) }
        ensures refused { IfErr result (IsSaid (Refuses self.old line.now)) }
        ensures unchanged { OnErr result (self.new ≡ self.old) }
    {
        let number = self.lines + 1;
        match take_line(alloc, &mut self.draft, line, number, room) {
            Ok(ended) => {
                self.lines = number;
                self.ended = ended;
                Ok(ended)
            }
            Err(kind) => Err(RepoFault { line: number, kind }),
        }
    }

    /// How many lines were fed.
    pub fn lines(&self) -> u32
        ensures { result ≡ self.now.lines }
    {
        self.lines
    }

    /// The repository of the lines that were fed.
    ///
    /// The fault is `NoEnd` if no line was `end`. Otherwise it is the first one of the repository: `Cycle`,
    /// `VarianceMix`, or that of the first component that is refused, with the line of the component. Otherwise it is out
    /// of memory.
    pub fn finish(self, alloc: Global) -> Result<Repository, RepoFault>
        ensures repository { IfOk result (IsRepositoryOf self.draft) }
        ensures whole { IfOk result IsWhole }
        ensures silent { OnOk result (IsSilent (First (closing_faults self))) }
        ensures fault { IfErr result (IsSaid (First (closing_faults self))) }
    {
        if !self.ended {
            return Err(RepoFault {
                line: self.lines,
                kind: FaultKind::NoEnd,
            });
        }
        build(alloc, self.draft, self.lines)
    }
}

/// Takes the line of this number, and says whether it is the line `end`.
fn take_line<'p>(
    alloc: Global,
    draft: &mut Draft,
    line: &Line<'p>,
    number: u32,
    room: &mut Vec<Token<'p>>,
) -> Result<bool, FaultKind>
    ensures taken { IfOk result (TakesLine (draft_of draft.old) number line.now (draft_of draft.new)) }
    ensures fault { IfErr result (OnWords (RefusesLine (draft_of draft.old) line.now)) }
    ensures unchanged { OnErr result (draft_of draft.new ≡ draft_of draft.old) }
{
    match line.content() {
        Ok(None) => Ok(false),
        Ok(Some(text)) => {
            let tokens = line.tokens(alloc, room)?;
            let line = CutLine {
                number,
                text,
                tokens: tokens.as_slice(),
            };
            take_text(alloc, draft, &line)
        }
        Err(TextFault::TooLong) => Err(FaultKind::LineTooLong),
        Err(TextFault::NotUtf8) => Err(FaultKind::NotUtf8),
    }
}

/// Takes a line, which isn't skipped, and says whether it is the line `end`.
// Not inlined: a frame is cleared whenever its function is called, and this one's is large.
#[inline(never)]
fn take_text(alloc: Global, draft: &mut Draft, line: &CutLine) -> Result<bool, FaultKind>
    requires text { IsText line.now.text.now }
    requires unskipped { IsSkipped line.now.text.now → ⊥ }
    ensures taken { IfOk result
        (TakesLine (draft_of draft.old) line.now.number line.now.text.now (draft_of draft.new)) }
    ensures fault { IfErr result (OnWords (RefusesLine (draft_of draft.old) line.now.text.now)) }
    ensures unchanged { OnErr result (draft_of draft.new ≡ draft_of draft.old) }
{
    let said = read_directive(line.text, line.tokens)?;
    declare(alloc, draft, line, said)?;
    Ok(said.is_end())
}
