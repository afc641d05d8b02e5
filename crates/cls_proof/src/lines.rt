//! The lines of a certificate, kept until it ends.
ghost use Rattle.std.specs.Prelude.{◌≡◌, [], ◌∷◌, ◌++◌, IfOk, OnOk};
ghost use Rattle.cls_proof.specs.Chunks.{lines_in};

use crate::chunk::Chunk;
use cls_base::OutOfMemory;
use cls_lexer::Line;
use std::alloc::Global;
use std::marker::Model;
use std::mem::replace;

/// Lines, kept in chunks, so that a chunk is let go once its lines are read. They are seen as the list of these lines.
#[derive(Drop)]
pub struct HeldLines {
    /// The chunks that take no further line.
    full: Vec<Chunk>,
    last: Chunk,
}

impl Model for HeldLines {
    ghost use Rattle.std.specs.Prelude.{ℕ, List, ◌++◌};
    ghost use Rattle.cls_proof.specs.Chunks.{lines_in};

    ghost Value = { List (List ℕ) };

    ghost view = { λ l. lines_in l.full.items ++ l.last };
}

impl HeldLines {
    /// No lines. They take no memory.
    pub fn new(alloc: Global) -> HeldLines
        ensures { result ≡ [] }
    {
        HeldLines {
            full: Vec::new(alloc),
            last: Chunk::new(alloc),
        }
    }

    /// Puts a line last. The only error is out of memory, and after it lines may be lost.
    pub fn push(&mut self, line: &Line) -> Result<(), OutOfMemory>
        ensures { OnOk result (self.new ≡ self.old ++ line.now ∷ []) }
    {
        if self.last.is_full_for(line) {
            let next = Chunk::new(*self.full.allocator());
            self.full.push(replace(&mut self.last, next))?;
        }
        self.last.push(line)
    }

    /// The chunks that the lines stand in.
    pub(crate) fn into_chunks(self) -> Result<Vec<Chunk>, OutOfMemory>
        ensures { IfOk result (λ chunks. lines_in chunks.items ≡ self) }
    {
        let mut chunks = self.full;
        chunks.push(self.last)?;
        Ok(chunks)
    }
}
