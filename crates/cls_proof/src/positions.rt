ghost use Rattle.std.specs.Prelude.{◌≡◌, ◌≤◌, [], ◌∷◌, ◌++◌, IfOk, OnOk, insert, length};

use cls_base::OutOfMemory;
use smallvec::SmallVec;
use std::alloc::Global;
use std::marker::Model;

/// Positions of arrows, seen as the list of them. As few as most sets have take no memory of their own.
#[derive(Drop)]
pub struct Positions {
    items: SmallVec<u32, 4>,
}

impl Model for Positions {
    ghost use Rattle.std.specs.Prelude.{ℕ, List};

    ghost Value = { List ℕ };

    ghost view = { λ p. p.items.items };
}

impl Positions {
    /// No position. It takes no memory.
    pub fn new(alloc: Global) -> Positions
        ensures { result ≡ [] }
    {
        Positions {
            items: SmallVec::new(alloc),
        }
    }

    /// These positions. The only error is out of memory.
    pub fn from_slice(alloc: Global, positions: &[u32]) -> Result<Positions, OutOfMemory>
        ensures { IfOk result (λ p. p ≡ positions.now) }
    {
        Ok(Positions {
            items: SmallVec::from_slice(alloc, positions)?,
        })
    }

    /// Puts a position last.
    pub fn push(&mut self, position: u32) -> Result<(), OutOfMemory>
        ensures { OnOk result (self.new ≡ self.old ++ position ∷ []) }
    {
        self.items.push(position)?;
        Ok(())
    }

    /// Puts a position at a place, before those from there on.
    pub fn insert(&mut self, place: usize, position: u32) -> Result<(), OutOfMemory>
        requires { place ≤ length self.old }
        ensures { OnOk result (self.new ≡ insert self.old place position) }
    {
        self.items.insert(place, position)?;
        Ok(())
    }

    /// The positions as a slice.
    pub fn as_slice(&self) -> &[u32]
        ensures { result.now ≡ self.now }
    {
        self.items.as_slice()
    }
}
