//! Lines that are kept one after another in one column.
ghost use Rattle.std.specs.Prelude.{◌≡◌, ◌<◌, ◌^◌, [], ◌∷◌, ◌++◌, length, slice_index_or, OnOk};

use cls_base::{OutOfMemory, start_of};
use std::alloc::Global;
use std::marker::Model;

/// Lines that are texts, with the place where each ends. They are seen as the list of these lines.
#[derive(Drop)]
pub(crate) struct TextLines {
    column: String,
    ends: Vec<u32>,
}

impl Model for TextLines {
    ghost use Rattle.std.specs.Prelude.{ℕ, List, string_bytes};
    ghost use Rattle.cls_base.specs.Cuts.{cut};
    ghost use Rattle.cls_proof.specs.TextEnds.{AreTextEnds};

    ghost Value = { List (List ℕ) };

    ghost view = { λ t. cut (string_bytes t.column) 0 t.ends.items };

    ghost invariant = { λ t. AreTextEnds (string_bytes t.column) t.ends.items };
}

impl TextLines {
    /// No lines. They take no memory.
    pub(crate) fn new(alloc: Global) -> TextLines
        ensures { result ≡ [] }
    {
        TextLines {
            column: String::new(alloc),
            ends: Vec::new(alloc),
        }
    }

    /// The number of lines.
    #[tactic(auto, using(cls_base::proofs::Cutting::cuts))]
    pub(crate) fn len(&self) -> usize
        ensures count { result ≡ length self.now }
        ensures few { result < 2 ^ 62 }
    {
        // For the prover: a slice has few elements, so the numbers of lines of two columns may be added.
        self.ends.as_slice().len()
    }

    /// The number of bytes that the lines have together.
    pub(crate) fn bytes(&self) -> usize
        ensures { result < 2 ^ 63 }
    {
        self.column.len()
    }

    /// Puts a line last. The only error is out of memory. Where the lines would have more bytes than a `u32` counts, that is
    /// out of memory too.
    pub(crate) fn push(&mut self, line: &str) -> Result<(), OutOfMemory>
        ensures { OnOk result (self.new ≡ self.old ++ line.now ∷ []) }
    {
        let Ok(end) = u32::try_from(self.column.len() + line.len()) else {
            return Err(OutOfMemory);
        };
        self.ends.reserve(1)?;
        self.column.push_str(line)?;
        self.ends.push(end)?;
        Ok(())
    }

    /// The line at a place.
    pub(crate) fn get(&self, i: usize) -> &str
        requires { i < length self.now }
        ensures { result.now ≡ slice_index_or self.now i [] }
    {
        let start = start_of(self.ends.as_slice(), i);
        &self.column[start..self.ends[i] as usize]
    }
}

/// Lines, whatever their bytes, with the place where each ends. They are seen as the list of these lines.
#[derive(Drop)]
pub(crate) struct ByteLines {
    column: Vec<u8>,
    ends: Vec<u32>,
}

impl Model for ByteLines {
    ghost use Rattle.std.specs.Prelude.{ℕ, List, length};
    ghost use Rattle.cls_base.specs.Cuts.{cut, AreEnds};

    ghost Value = { List (List ℕ) };

    ghost view = { λ l. cut l.column.items 0 l.ends.items };

    ghost invariant = { λ l. AreEnds 0 (length l.column.items) l.ends.items };
}

impl ByteLines {
    /// No lines. They take no memory.
    pub(crate) fn new(alloc: Global) -> ByteLines
        ensures { result ≡ [] }
    {
        ByteLines {
            column: Vec::new(alloc),
            ends: Vec::new(alloc),
        }
    }

    /// The number of lines.
    #[tactic(auto, using(cls_base::proofs::Cutting::cuts))]
    pub(crate) fn len(&self) -> usize
        ensures count { result ≡ length self.now }
        ensures few { result < 2 ^ 62 }
    {
        // For the prover: a slice has few elements, so the numbers of lines of two columns may be added.
        self.ends.as_slice().len()
    }

    /// The number of bytes that the lines have together.
    pub(crate) fn bytes(&self) -> usize
        ensures { result < 2 ^ 63 }
    {
        self.column.len()
    }

    /// Puts a line last. The only error is out of memory. Where the lines would have more bytes than a `u32` counts, that is
    /// out of memory too.
    #[tactic(auto, using(cls_base::proofs::Cutting::cuts))]
    pub(crate) fn push(&mut self, line: &[u8]) -> Result<(), OutOfMemory>
        ensures { OnOk result (self.new ≡ self.old ++ line.now ∷ []) }
    {
        let Ok(end) = u32::try_from(self.column.len() + line.len()) else {
            return Err(OutOfMemory);
        };
        self.ends.reserve(1)?;
        self.column.extend_from_slice(line)?;
        self.ends.push(end)?;
        Ok(())
    }

    /// The line at a place.
    #[tactic(auto, using(cls_base::proofs::Cutting::cuts))]
    pub(crate) fn get(&self, i: usize) -> &[u8]
        requires { i < length self.now }
        ensures { result.now ≡ slice_index_or self.now i [] }
    {
        let start = start_of(self.ends.as_slice(), i);
        &self.column[start..self.ends[i] as usize]
    }
}
