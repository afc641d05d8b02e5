//! What is left of a certificate without rows while it is written: members, one for each unproductive goal of a grammar.
ghost use Rattle.std.specs.Prelude.{◌≡◌, ◌+◌, ◌<◌, ◌≤◌, ◌++◌, [], IfOk, IfSome, OnOk, None, length, string_bytes};
ghost use Rattle.cls_library.specs.Libraries as libraries;
ghost use Rattle.cls_cert.specs.Computed.{start_place};
ghost use Rattle.cls_cert.specs.Conditions.{forms_of};
ghost use Rattle.cls_cert.specs.Left.{AreMembersLeft, IsWrittenOn, block_left, members_left, named_members_left};

use crate::blocks::write_blocks;
use crate::layers::BlockLeft;
use crate::named::NamedGrammar;
use cls_base::OutOfMemory;
use cls_grammar::{Grammar, Ranks};
use cls_lexer::Names;
use cls_library::{Library, Place};
use cls_norm::type_of;
use cls_proof::write_member;
use std::alloc::Global;

/// Members that are left, of a grammar with its ranks: what is left of a block, the blocks from a place on of a goal whose line is
/// written, and the members of the goals from a number on.
pub struct MembersLeft {
    pub(crate) ranks: Ranks,
    pub(crate) block: BlockLeft,
    pub(crate) goal: u32,
    pub(crate) from: Option<Place>,
    pub(crate) next: u32,
}

// Not derived, for the prover: so a caller's proof has one step where a value is dropped, and not one for each part of it.
impl Drop for MembersLeft {
    fn drop(self) {
        let MembersLeft {
            ranks: _,
            block: _,
            goal: _,
            from: _,
            next: _,
        } = self;
    }
}

impl MembersLeft {
    /// Writes lines at the end until they are enough, and says whether more are left. The last line is `qed`. The only error is out
    /// of memory, after which no further lines are to be written.
    pub fn write_lines(
        &mut self,
        alloc: Global,
        lib: &Library,
        grammar: &Grammar,
        names: &Names,
        components: &Names,
        enough: usize,
        text: &mut String,
    ) -> Result<bool, OutOfMemory>
        requires { AreMembersLeft lib.now grammar.now self.old }
        ensures left { OnOk result (AreMembersLeft lib.now grammar.now self.new) }
        ensures lines { let left = members_left names.now components.now lib.now (forms_of grammar.now) in IfOk result
            (IsWrittenOn enough (left self.old) (left self.new) (string_bytes text.old) (string_bytes text.new)) }
    {
        let named = NamedGrammar {
            grammar,
            names,
            components,
        };
        self.block.write_lines(alloc, enough, text)?;
        self.write_goal(alloc, lib, &named, enough, text)?;
        self.write_members(alloc, lib, &named, enough, text)?;
        let written = text.len();
        if written >= enough {
            return Ok(true);
        }
        text.push_str("qed\n")?;
        Ok(false)
    }

    /// Writes the blocks that are left of a goal whose line is written, until the text has enough bytes. Before it nothing is left of
    /// a block.
    fn write_goal(
        &mut self,
        alloc: Global,
        lib: &Library,
        named: &NamedGrammar,
        enough: usize,
        text: &mut String,
    ) -> Result<(), OutOfMemory>
        requires left { AreMembersLeft lib.now named.now.grammar.now self.old }
        requires full { length (string_bytes text.old) < enough → block_left self.old.block ≡ [] }
        ensures left { OnOk result (AreMembersLeft lib.now named.now.grammar.now self.new) }
        ensures lines { let left = named_members_left named.now lib.now in
            OnOk result (string_bytes text.new ++ left self.new ≡ string_bytes text.old ++ left self.old) }
        ensures full { OnOk result (length (string_bytes text.new) < enough
            → (block_left self.new.block ≡ []) × (self.new.from ≡ None)) }
        ensures next { OnOk result (self.new.next ≡ self.old.next) }
    {
        let Some(from) = self.from else {
            return Ok(());
        };
        let written = text.len();
        if written >= enough {
            return Ok(());
        }
        let goal = named.grammar.goal(self.goal);
        let block = &mut self.block;
        let next = write_blocks(
            alloc,
            lib,
            goal,
            from,
            named.components,
            enough,
            block,
            text,
        )?;
        self.from = next;
        Ok(())
    }

    /// Writes the members from the next goal on, until the text has enough bytes. Before them nothing is left.
    fn write_members(
        &mut self,
        alloc: Global,
        lib: &Library,
        named: &NamedGrammar,
        enough: usize,
        text: &mut String,
    ) -> Result<(), OutOfMemory>
        requires left { AreMembersLeft lib.now named.now.grammar.now self.old }
        requires full { length (string_bytes text.old) < enough
            → (block_left self.old.block ≡ []) × (self.old.from ≡ None) }
        ensures left { OnOk result (AreMembersLeft lib.now named.now.grammar.now self.new) }
        ensures lines { let left = named_members_left named.now lib.now in
            OnOk result (string_bytes text.new ++ left self.new ≡ string_bytes text.old ++ left self.old) }
        ensures full { OnOk result (length (string_bytes text.new) < enough
            → (block_left self.new.block ≡ []) × (self.new.from ≡ None)
            × (length named.now.grammar.now ≤ self.new.next)) }
    {
        for number in self.next..named.grammar.count() {
            let written = text.len();
            if written >= enough {
                return Ok(());
            }
            self.begin_member(alloc, named, number, text)?;
            self.write_goal(alloc, lib, named, enough, text)?;
        }
        Ok(())
    }

    /// Writes the first line of the member of the next goal, if that is unproductive. Its blocks are left then. Before it nothing is
    /// left.
    fn begin_member(
        &mut self,
        alloc: Global,
        named: &NamedGrammar,
        number: u32,
        text: &mut String,
    ) -> Result<(), OutOfMemory>
        requires ranked { length self.old.ranks ≡ length named.now.grammar.now }
        requires next { self.old.next ≡ number }
        requires more { number < length named.now.grammar.now }
        requires goal { self.old.goal < length named.now.grammar.now }
        requires none { (block_left self.old.block ≡ []) × (self.old.from ≡ None) }
        ensures lines { (l : libraries.Library) → let left = named_members_left named.now l in
            OnOk result (string_bytes text.new ++ left self.new ≡ string_bytes text.old ++ left self.old) }
        ensures goal { OnOk result (self.new.goal < length named.now.grammar.now) }
        ensures from { OnOk result (IfSome self.new.from (λ place. place ≡ start_place)) }
        ensures same { OnOk result
            (self.new ≡ record self.old { goal = self.new.goal; from = self.new.from; next = number + 1 }) }
    {
        // For the prover: the number of goals is one of 32 bits.
        let _count = named.grammar.count();
        self.next = number + 1;
        if self.ranks.as_slice()[number as usize].is_some() {
            return Ok(());
        }
        let ty = type_of(alloc, named.grammar.goal(number))?;
        write_member(named.names, &ty, text)?;
        self.goal = number;
        self.from = Some(Place {
            component: 0,
            count: 0,
        });
        Ok(())
    }
}
