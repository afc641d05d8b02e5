//! A chunk of the lines of a certificate.
ghost use Rattle.std.specs.Prelude.{◌≡◌, ◌<◌, [], ◌∷◌, ◌++◌, length, slice_index_or, OnOk};

use crate::line_columns::{ByteLines, TextLines};
use cls_base::OutOfMemory;
use cls_lexer::Line;
use std::alloc::Global;
use std::marker::Model;

/// The most bytes of a chunk with several lines, 64 KiB.
const MAX_CHUNK_BYTES: usize = 65_536;

/// Lines, kept one after another in columns, with the place where each ends. They are seen as the list of these lines.
#[derive(Drop)]
pub(crate) struct Chunk {
    /// The lines before the first that isn't a text. Their bytes needn't be tested again.
    texts: TextLines,
    /// The lines from that one on.
    others: ByteLines,
}

impl Model for Chunk {
    ghost use Rattle.std.specs.Prelude.{ℕ, List, ◌++◌};

    ghost Value = { List (List ℕ) };

    ghost view = { λ p. p.texts ++ p.others };
}

impl Chunk {
    /// No lines. They take no memory.
    pub(crate) fn new(alloc: Global) -> Chunk
        ensures { result ≡ [] }
    {
        Chunk {
            texts: TextLines::new(alloc),
            others: ByteLines::new(alloc),
        }
    }

    /// The number of lines.
    pub(crate) fn len(&self) -> usize
        ensures { result ≡ length self.now }
    {
        self.texts.len() + self.others.len()
    }

    /// Whether the line has more bytes than there is room for, so that it is to stand in a further chunk.
    pub(crate) fn is_full_for(&self, line: &Line) -> bool {
        let room = MAX_CHUNK_BYTES.saturating_sub(self.texts.bytes() + self.others.bytes());
        line.as_bytes().len() > room
    }

    /// Puts a line last. The only error is out of memory. Where the lines would have more bytes than a `u32` counts, that is
    /// out of memory too.
    pub(crate) fn push(&mut self, line: &Line) -> Result<(), OutOfMemory>
        ensures { OnOk result (self.new ≡ self.old ++ line.now ∷ []) }
    {
        match line.text() {
            Ok(text) if self.others.len() == 0 => self.texts.push(text),
            _ => self.others.push(line.as_bytes()),
        }
    }

    /// The line at a place.
    pub(crate) fn get(&self, i: usize) -> Line<'_>
        requires { i < length self.now }
        ensures { result ≡ slice_index_or self.now i [] }
    {
        let count = self.texts.len();
        if i < count {
            Line::from_text(self.texts.get(i))
        } else {
            Line::new(self.others.get(i - count))
        }
    }
}
