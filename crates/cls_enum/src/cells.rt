ghost use Rattle.std.specs.Prelude.{◌≡◌, [], ◌∷◌, ◌++◌, OnOk};
ghost use Rattle.cls_enum.specs.CellTables.{cell_at};

use cls_base::OutOfMemory;
use std::alloc::Global;
use std::marker::Model;

/// The numbers of the terms of each node, size after size.
#[derive(Drop)]
pub(crate) struct Cells {
    width: u32,
    lists: Vec<Vec<u32>>,
}

impl Model for Cells {
    ghost use Rattle.std.specs.Prelude.{ℕ, List, map};

    ghost Value = { ℕ × List (List ℕ) };

    ghost view = { λ a. (a.width, map (λ v. v.items) a.lists.items) };
}

impl Cells {
    pub(crate) fn new(alloc: Global, width: u32) -> Cells
        ensures { result ≡ (width, []) }
    {
        Cells {
            width,
            lists: Vec::new(alloc),
        }
    }

    /// The numbers of a node's terms of this size, none where they aren't made yet.
    pub(crate) fn get(&self, size: u32, node: u32) -> &[u32]
        ensures { result.now ≡ cell_at self.now size node }
    {
        if node >= self.width {
            return &[];
        }
        let place = size as u64 * self.width as u64 + node as u64;
        match self.lists.get(place as usize) {
            Some(list) => list.as_slice(),
            None => &[],
        }
    }

    /// Adds the numbers of the next node's terms.
    pub(crate) fn push(&mut self, numbers: Vec<u32>) -> Result<(), OutOfMemory>
        ensures ok { OnOk result (self.new ≡ (self.old.0, self.old.1 ++ numbers.items ∷ [])) }
    {
        self.lists.push(numbers)?;
        Ok(())
    }
}
