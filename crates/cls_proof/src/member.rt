//! The members of a certificate, kept in columns.
ghost use Rattle.std.specs.Prelude.{◌≡◌, ◌↔◌, ◌+◌, ◌<◌, [], ◌∷◌, ◌++◌, Some, length, slice_get, drop, OnOk, IsTrue};
ghost use Rattle.cls_base.specs.Ty.{type_of};
ghost use Rattle.cls_proof.specs.Growing.{HasBlock, HasLayer, in_last_member, in_last_block, with_set, new_block, new_member};
ghost use Rattle.cls_proof.specs.MemberColumns.{blocks_start};
ghost use Rattle.cls_proof.specs.Members.{member_seen};
ghost use Rattle.cls_proof.specs.Parts.{next_start};

use crate::block::{Blocks, BlocksRef};
use cls_base::{OutOfMemory, Ty};
use std::alloc::Global;
use std::marker::Model;

/// The goal of a member, and where its blocks begin.
#[derive(Drop)]
pub(crate) struct MemberStart {
    goal: Ty,
    blocks: u32,
}

/// A list of members, seen as that list. It is kept in columns, so that many small blocks take little memory. The last
/// member takes further blocks, its last block further layers, and the last layer of that further sets.
pub struct Members {
    starts: Vec<MemberStart>,
    /// The blocks of the members, member after member.
    blocks: Blocks,
}

// Not derived, for the prover: so a caller's proof has one step where a value is dropped, and not one for each part of it.
impl Drop for Members {
    fn drop(self) {
        let Members {
            starts: _,
            blocks: _,
        } = self;
    }
}

impl Model for Members {
    ghost use Rattle.std.specs.Prelude.{List, length};
    ghost use Rattle.std.specs.Coded.{coded_list};
    ghost use Rattle.cls_proof.specs.Certificates as certificates;
    ghost use Rattle.cls_proof.specs.Stored.{coded_member};

    ghost Value = { List certificates.Member };

    ghost coded = { coded_list coded_member };

    ghost use Rattle.cls_proof.specs.Parts.{AreStarts};
    ghost use Rattle.cls_proof.specs.MemberColumns.{members_of, blocks_start};

    ghost view = { λ m. members_of m.starts.items m.blocks };

    ghost invariant = { λ m. AreStarts blocks_start m.starts.items (length m.blocks) };
}

/// A goal that no term has, and blocks that show it.
#[derive(Drop)]
pub struct MemberRef<'a> {
    /// The type that no term has.
    pub goal: &'a Ty,
    /// At most one block for a component and a number of arguments.
    pub blocks: BlocksRef<'a>,
}

impl Members {
    /// No member. It takes no memory.
    pub fn new(alloc: Global) -> Members
        ensures { result ≡ [] }
    {
        Members {
            starts: Vec::new(alloc),
            blocks: Blocks::new(alloc),
        }
    }

    /// The number of members.
    pub fn len(&self) -> usize
        ensures { result ≡ length self.now }
    {
        self.starts.len()
    }

    /// Puts a member without a block last. The only error is out of memory. More blocks, layers or sets than a `u32`
    /// counts are out of memory too, here and below.
    pub fn push_member(&mut self, goal: Ty) -> Result<(), OutOfMemory>
        ensures { OnOk result (self.new ≡ self.old ++ new_member (type_of goal) ∷ []) }
    {
        let Ok(blocks) = u32::try_from(self.blocks.len()) else {
            return Err(OutOfMemory);
        };
        self.starts.push(MemberStart { goal, blocks })?;
        Ok(())
    }

    /// Puts a block without a layer last in the last member. The only error is out of memory.
    pub fn push_block(&mut self, component: u32, n: u32) -> Result<(), OutOfMemory>
        ensures { OnOk result
            (self.new ≡ in_last_member (λ blocks. blocks ++ new_block component n ∷ []) self.old) }
    {
        self.blocks.push_block(component, n)
    }

    /// Puts a layer without a set last in the last block of the last member. The only error is out of memory.
    pub(crate) fn push_layer(&mut self) -> Result<(), OutOfMemory>
        requires { HasBlock self.old }
        ensures { OnOk result
            (self.new ≡ in_last_member (in_last_block (λ layers. layers ++ [] ∷ [])) self.old) }
    {
        self.blocks.push_layer()
    }

    /// Puts a set last in the last layer of the last block of the last member. The only error is out of memory.
    pub(crate) fn push_set(&mut self, set: &[u32]) -> Result<(), OutOfMemory>
        requires { HasLayer self.old }
        ensures { OnOk result (self.new ≡ in_last_member (in_last_block (with_set set.now)) self.old) }
    {
        self.blocks.push_set(set)
    }

    /// Whether the last member has a block.
    pub fn has_block(&self) -> bool
        ensures { IsTrue result ↔ HasBlock self.now }
    {
        let count = self.starts.len();
        count > 0 && (self.starts[count - 1].blocks as usize) < self.blocks.len()
    }

    /// Whether the last block of the last member has a layer.
    pub fn has_layer(&self) -> bool
        ensures { IsTrue result ↔ HasLayer self.now }
    {
        self.has_block() && self.blocks.has_layer()
    }

    /// The member at a place.
    pub fn get(&self, i: usize) -> MemberRef<'_>
        requires { i < length self.now }
        ensures { slice_get self.now i ≡ Some (member_seen result) }
    {
        let member = &self.starts[i];
        let end = end_of(self.starts.as_slice(), i, self.blocks.len());
        MemberRef {
            goal: &member.goal,
            blocks: self.blocks.part(member.blocks as usize, end),
        }
    }
}

/// Where the blocks of the member at a place end: where those of the next one begin, or else at the end of the column.
fn end_of(starts: &[MemberStart], i: usize, total: usize) -> usize
    requires { i < length starts.now }
    ensures { result ≡ next_start blocks_start (drop (i + 1) starts.now) total }
{
    if i + 1 < starts.len() {
        starts[i + 1].blocks as usize
    } else {
        total
    }
}
