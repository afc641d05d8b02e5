//! Texts that are kept one after another.
ghost use Rattle.std.specs.List.{remove};
ghost use Rattle.std.specs.Prelude.{◌≡◌, ◌<◌, [], ◌∷◌, ◌++◌, length, take, slice_index_or, OnOk, OnErr};

use cls_base::OutOfMemory;
use std::alloc::Global;
use std::marker::Model;

/// Where a text stands in the column.
#[derive(Clone, Copy)]
struct Place {
    start: u32,
    end: u32,
}

/// Texts, kept one after another in one column, with the place of each. They are seen as the list of these texts.
#[derive(Drop)]
pub(crate) struct Texts {
    column: String,
    places: Vec<Place>,
}

impl Model for Texts {
    ghost use Rattle.std.specs.Prelude.{ℕ, List, string_bytes};
    ghost use Rattle.cls_lexer.specs.Columns.{texts_at, ArePlaces};

    ghost Value = { List (List ℕ) };

    ghost view = { λ t. texts_at (string_bytes t.column) t.places.items };

    ghost invariant = { λ t. ArePlaces (string_bytes t.column) 0 t.places.items };
}

impl Texts {
    /// No texts. They take no memory.
    pub(crate) fn new(alloc: Global) -> Texts
        ensures { result ≡ [] }
    {
        Texts {
            column: String::new(alloc),
            places: Vec::new(alloc),
        }
    }

    /// The number of texts.
    pub(crate) fn len(&self) -> usize
        ensures { result ≡ length self.now }
    {
        self.places.len()
    }

    /// Adds a text at the end. The only error is out of memory, and then the texts are as before. Where they would hold more
    /// bytes than a `u32` counts, that is out of memory too.
    pub(crate) fn push(&mut self, text: &str) -> Result<(), OutOfMemory>
        ensures ok { OnOk result (self.new ≡ self.old ++ text.now ∷ []) }
        ensures err { OnErr result (self.new ≡ self.old) }
    {
        let Ok(end) = u32::try_from(self.column.len() + text.len()) else {
            return Err(OutOfMemory);
        };
        let start = self.column.len() as u32;
        self.places.reserve(1)?;
        self.column.push_str(text)?;
        self.places.push(Place { start, end })?;
        Ok(())
    }

    /// The text at a place, or the empty text if there is none.
    #[tactic(auto, using(crate::proofs::Columns::place_within, crate::proofs::Columns::text_within))]
    pub(crate) fn get(&self, place: usize) -> &str
        ensures { result.now ≡ slice_index_or self.now place [] }
    {
        if place >= self.places.len() {
            return "";
        }
        let Place { start, end } = self.places[place];
        &self.column[start as usize..end as usize]
    }

    /// Keeps the first texts, no more than so many. It takes no memory.
    #[tactic(auto, using(crate::proofs::Columns::place_within, crate::proofs::Columns::places_take, crate::proofs::Columns::texts_take))]
    pub(crate) fn truncate(&mut self, count: usize)
        ensures { self.new ≡ take count self.old }
    {
        if count < self.places.len() {
            let start = self.places[count].start;
            self.column.truncate(start as usize);
            self.places.truncate(count);
        }
    }

    /// Takes the text at a place out, if there is one. It takes no memory. Its bytes stay in the column until the texts before
    /// it are the last ones.
    #[tactic(auto, using(crate::proofs::Columns::places_remove, crate::proofs::Columns::texts_remove))]
    pub(crate) fn remove(&mut self, place: usize)
        ensures { self.new ≡ remove self.old place }
    {
        if place < self.places.len() {
            self.places.remove(place);
        }
    }
}
