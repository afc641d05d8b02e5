//! What the rows of the closure of a root say of the goals that are asked: which of them some term has, or which
//! goal is wide.
ghost use Rattle.std.specs.Prelude.{◌≡◌, ◌<◌, false, None, IfOk, length, map, slice_index_or};
ghost use Rattle.std.specs.List.{AllZip};
ghost use Rattle.cls_base.specs.Lists.{AreBelow};
ghost use Rattle.cls_grammar.specs.Grammars.{first_wide};
ghost use Rattle.cls_engine.specs.Batching.{AreRooted, IsFirstWideOf, SaysInhabited};

use crate::rows_book::{RowsBook, wide_row};
use cls_base::{OutOfMemory, RuleBook};
use cls_callers::{AskGoal, Asked, AskedClosures};
use cls_core::Rows;
use cls_expand::{Expander, Stored};
use cls_grammar::productive;
use cls_live::Parts;
use cls_path::Nf;
use std::alloc::Global;

/// The expander of an engine's library, which looks goals up among the kept answers first.
pub(crate) type KeptExpander<'a> = Stored<'a, Expander<'a>, Parts>;

/// The goals that are asked of an engine's library.
pub(crate) type AskedGoals<'a, 'b> = Asked<'a, KeptExpander<'b>>;

/// The flags of these nodes, in their order.
fn flags_at(alloc: Global, flags: &[bool], nodes: &[u32]) -> Result<Vec<bool>, OutOfMemory>
    requires { AreBelow (length flags.now) nodes.now }
    ensures { IfOk result (λ found. found.items ≡ map (λ n. slice_index_or flags.now n false) nodes.now) }
{
    let mut found = Vec::with_capacity(alloc, nodes.len())?;
    for node in nodes {
        found.push(flags[*node as usize])?;
    }
    Ok(found)
}

/// For each asked goal in turn whether some term has it, by the rows of the closure of the root, none of which is
/// wide. The only error is out of memory.
pub(crate) fn decide(
    alloc: Global,
    asked: &AskedGoals<'_, '_>,
    rows: &Rows<AskGoal<Nf>>,
) -> Result<Vec<bool>, OutOfMemory>
    requires rooted { AreRooted asked.now rows.now }
    requires ruled { first_wide rows.now ≡ None }
    ensures { IfOk result (λ says. AllZip (SaysInhabited asked.now.by) asked.now.goals says.items) }
{
    // For the prover: what holds of the asked goals.
    asked.facts();
    let book = RowsBook::new(rows);
    let flags = productive(alloc, &book)?;
    // The root has a rule for each asked goal in turn, whose argument is the goal's row.
    flags_at(alloc, flags.as_slice(), book.rules(0).arguments())
}

/// The goal of the first row that is wide, if one is. The only error is out of memory.
fn first_wide(alloc: Global, rows: &Rows<Nf>) -> Result<Option<Nf>, OutOfMemory>
    ensures { IfOk result (λ wide. wide ≡ first_wide rows.now) }
{
    match wide_row(rows) {
        Some(row) => Ok(Some(rows.goal(row).copy(alloc)?)),
        None => Ok(None),
    }
}

/// The first wide goal in the closure of the first asked goal in whose closure one is wide. So many goals are asked,
/// and some row of the closure of their root is wide. The only error is out of memory.
pub(crate) fn first_wide_of(
    alloc: Global,
    asked: &AskedGoals<'_, '_>,
    count: u32,
    rows: Rows<AskGoal<Nf>>,
) -> Result<Nf, OutOfMemory>
    requires count { count ≡ length asked.now.goals }
    requires rooted { AreRooted asked.now rows }
    requires wide { first_wide rows ≡ None → ⊥ }
    ensures { IfOk result (IsFirstWideOf asked.now) }
{
    let closures = AskedClosures::new(alloc, asked, rows)?;
    for place in 0..count {
        let own = closures.get(alloc, place + 1)?;
        let found = first_wide(alloc, &own)?;
        match found {
            Some(wide) => return Ok(wide),
            None => {}
        }
    }
    unreachable!()
}
