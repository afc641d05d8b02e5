//! Where the codes of the terms of a node stand in the list of a page, once they were listed whole.
ghost use Rattle.std.specs.Prelude.{◌≡◌, ◌≢◌, ℕ, [], None, Some, OnOk, slice_index_or};
ghost use Rattle.cls_walk.specs.Stretches.{stretch_at};

use cls_base::OutOfMemory;
use std::alloc::Global;
use std::marker::Model;

/// The places from `start` to below `end`, and how many numbers of each code there stand before those of the node.
#[derive(Clone, Copy)]
pub(crate) struct Stretch {
    pub(crate) start: usize,
    pub(crate) end: usize,
    pub(crate) from: usize,
}

/// The stretches that are known, in a column for each node, with a place for each slack.
#[derive(Drop)]
pub(crate) struct Stretches {
    alloc: Global,
    columns: Vec<Vec<Option<Stretch>>>,
}

impl Model for Stretches {
    ghost use Rattle.std.specs.Prelude.{List, Option, map};
    ghost use Rattle.cls_walk.specs.declared.stretch.Stretch.{Stretch};

    ghost Value = { List (List (Option Stretch)) };

    ghost view = { λ a. map (λ v. v.items) a.columns.items };
}

impl Stretches {
    /// None. They take no memory.
    pub(crate) fn new(alloc: Global) -> Stretches
        ensures { result ≡ [] }
    {
        Stretches {
            alloc,
            columns: Vec::new(alloc),
        }
    }

    /// The stretch of a node and slack, if it is known.
    pub(crate) fn find(&self, node: u32, slack: u32) -> Option<Stretch>
        ensures { result ≡ stretch_at self.now node slack }
    {
        match self.columns.get(node as usize) {
            Some(column) => column.get(slack as usize).copied().unwrap_or(None),
            None => None,
        }
    }

    /// Keeps the stretch of a node and slack.
    pub(crate) fn keep(
        &mut self,
        node: u32,
        slack: u32,
        stretch: Stretch,
    ) -> Result<(), OutOfMemory>
        ensures kept { OnOk result (stretch_at self.new node slack ≡ Some stretch) }
        ensures others { OnOk result ((n s : ℕ) → ((n ≡ node) × (s ≡ slack) → ⊥)
            → stretch_at self.new n s ≡ stretch_at self.old n s) }
    {
        while self.columns.len() <= node as usize {
            self.columns.push(Vec::new(self.alloc))?;
        }
        keep_in(&mut self.columns[node as usize], slack, stretch)
    }
}

/// Keeps the stretch of a slack in the column of its node.
fn keep_in(
    column: &mut Vec<Option<Stretch>>,
    slack: u32,
    stretch: Stretch,
) -> Result<(), OutOfMemory>
    ensures kept { OnOk result (slice_index_or column.new.items slack None ≡ Some stretch) }
    ensures others { OnOk result ((s : ℕ) → s ≢ slack
        → slice_index_or column.new.items s None ≡ slice_index_or column.old.items s None) }
{
    while column.len() <= slack as usize {
        column.push(None)?;
    }
    column[slack as usize] = Some(stretch);
    Ok(())
}
