ghost use Rattle.std.specs.Prelude.{◌≡◌, ◌<◌, [], ◌∷◌, ◌++◌, Some, length, slice_get, OnOk};
ghost use Rattle.cls_proof.specs.Rows.{row_of, row_seen};

use crate::positions::Positions;
use cls_base::{NumberLists, OutOfMemory, Ty};
use std::alloc::Global;
use std::marker::Model;

/// A goal, with the positions of arrows of a component by which some term has it.
#[derive(Drop)]
pub struct ProofRow {
    /// The type that some term has.
    pub goal: Ty,
    /// The number of the component at the head of the term.
    pub component: u32,
    /// How many arguments the arrows take.
    pub n: u32,
    /// The positions among the arrows that take n arguments.
    pub cover: Positions,
}

/// A row of [`ProofRows`], which keep its goal and its positions.
#[derive(Clone, Copy)]
pub struct RowRef<'a> {
    /// The type that some term has.
    pub goal: &'a Ty,
    /// The number of the component at the head of the term.
    pub component: u32,
    /// How many arguments the arrows take.
    pub n: u32,
    /// The positions among the arrows that take n arguments.
    pub cover: &'a [u32],
}

/// Whose arrows a row is about.
#[derive(Clone, Copy)]
pub(crate) struct RowPlace {
    component: u32,
    n: u32,
}

/// A list of rows, seen as that list. It is kept in columns, so that a short row takes little memory.
pub struct ProofRows {
    goals: Vec<Ty>,
    places: Vec<RowPlace>,
    covers: NumberLists,
}

// Not derived, for the prover: so a caller's proof has one step where a value is dropped, and not one for each part of it.
impl Drop for ProofRows {
    fn drop(self) {
        let ProofRows {
            goals: _,
            places: _,
            covers: _,
        } = self;
    }
}

impl Model for ProofRows {
    ghost use Rattle.std.specs.Prelude.{List, length};
    ghost use Rattle.std.specs.Coded.{coded_list};
    ghost use Rattle.cls_proof.specs.Certificates as certificates;
    ghost use Rattle.cls_proof.specs.Columns.{rows_of, HaveOneLength};
    ghost use Rattle.cls_proof.specs.Stored.{coded_row};

    ghost Value = { List certificates.ProofRow };

    ghost coded = { coded_list coded_row };

    ghost view = { λ r. rows_of r.goals.items r.places.items r.covers };

    ghost invariant = { λ r. HaveOneLength r.goals.items r.places.items r.covers };
}

impl ProofRows {
    /// No row. It takes no memory.
    pub fn new(alloc: Global) -> ProofRows
        ensures { result ≡ [] }
    {
        ProofRows {
            goals: Vec::new(alloc),
            places: Vec::new(alloc),
            covers: NumberLists::new(alloc),
        }
    }

    /// The number of rows.
    pub fn len(&self) -> usize
        ensures { result ≡ length self.now }
    {
        self.goals.len()
    }

    /// The row at a place.
    pub fn get(&self, i: usize) -> RowRef<'_>
        requires { i < length self.now }
        ensures { slice_get self.now i ≡ Some (row_seen result) }
    {
        let place = self.places[i];
        RowRef {
            goal: &self.goals[i],
            component: place.component,
            n: place.n,
            cover: self.covers.get(i),
        }
    }

    /// Puts a row last. The only error is out of memory.
    pub fn push(&mut self, row: ProofRow) -> Result<(), OutOfMemory>
        ensures { OnOk result (self.new ≡ self.old ++ row_of row ∷ []) }
    {
        self.goals.reserve(1)?;
        self.places.reserve(1)?;
        self.covers.push(row.cover.as_slice())?;
        self.goals.push(row.goal)?;
        self.places.push(RowPlace {
            component: row.component,
            n: row.n,
        })?;
        Ok(())
    }
}
