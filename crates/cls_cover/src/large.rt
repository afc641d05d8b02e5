//! The minimal covers of families of which some have large positions. Positions that stand in the same families are tried once.
ghost use Rattle.std.specs.Prelude.{◌≡◌, ℕ, ◌+◌, ◌<◌, ◌↔◌, IfOk, IfErr, List, All, length, map};
ghost use Rattle.cls_base.specs.Terms.{Precedes};
ghost use Rattle.cls_cover.specs.Members.{Member, Rises, Differ};
ghost use Rattle.cls_cover.specs.Lists.{IsAscending};
ghost use Rattle.cls_cover.specs.Covers.{AreCovers, AreWithinLimit};
ghost use Rattle.cls_cover.specs.Faults.{HasCause};
ghost use Rattle.cls_cover.specs.Fronts.{AreInOrder, AreLarge};
ghost use Rattle.cls_cover.specs.Growing.{AreFound, sets};

use crate::cover::Cover;
use crate::flags::Flags;
use crate::forced::{forced, only};
use crate::front::Front;
use crate::grow::grown;
use crate::minimal::CoverFault;
use crate::rows::{Row, rows_of};
use cls_base::{NumberLists, Numbers, OutOfMemory};
use smallvec::SmallVec;
use std::alloc::Global;

/// The minimal covers of the first families, with the rows of all families and the flags of the first ones.
#[derive(Drop)]
pub(crate) struct LargeCovers {
    rows: Vec<Row>,
    flags: Flags,
    list: Vec<Cover>,
}

/// The cover of none of the families.
pub(crate) fn start_large(alloc: Global, families: &[Numbers]) -> Result<LargeCovers, OutOfMemory>
    ensures { IfOk result (λ large. (limit : ℕ) → 0 < limit → AreLarge families.now limit 0 large) }
{
    let rows = rows_of(alloc, families)?;
    let flags = Flags::none(alloc, families.len())?;
    let list = no_positions(alloc, families)?;
    Ok(LargeCovers { rows, flags, list })
}

/// The covers of one family more, made from those of the first `count`.
pub(crate) fn grow_large(
    alloc: Global,
    families: &[Numbers],
    count: usize,
    limit: u32,
    before: LargeCovers,
) -> Result<LargeCovers, CoverFault>
    requires ascending { All IsAscending families.now }
    requires covers { AreLarge families.now limit count before }
    requires more { count < length families.now }
    ensures covers { IfOk result (λ large. AreLarge families.now limit (count + 1) large) }
    ensures fault { IfErr result (HasCause families.now limit) }
{
    let LargeCovers {
        rows,
        mut flags,
        list: covers,
    } = before;
    let front = Front {
        families,
        rows: rows.as_slice(),
        flags: &flags,
        count,
    };
    let list = grown(alloc, &front, covers, limit)?;
    if list.len() > limit as usize {
        return Err(CoverFault::TooManyCovers(count + 1));
    }
    flags.set(count);
    Ok(LargeCovers { rows, flags, list })
}

/// The covers as lists, in lexicographic order.
pub(crate) fn list_large(alloc: Global, large: &LargeCovers) -> Result<NumberLists, OutOfMemory>
    requires { Differ (sets large.now.list.items) }
    ensures { IfOk result (λ all. AreInOrder (sets large.now.list.items) all) }
{
    Ok(in_order(alloc, large.list.as_slice())?)
}

/// The minimal covers of the families, in lexicographic order.
// Not inlined: a frame is cleared whenever its function is called, and this one's is large.
#[inline(never)]
pub(crate) fn large_covers(
    alloc: Global,
    families: &[Numbers],
    limit: u32,
) -> Result<NumberLists, CoverFault>
    requires ascending { All IsAscending families.now }
    requires positive { 0 < limit }
    ensures covers { IfOk result (λ list. AreCovers families.now list) }
    ensures within { IfOk result (λ _. AreWithinLimit families.now limit) }
    ensures fault { IfErr result (HasCause families.now limit) }
{
    match forced(alloc, families)? {
        Some(cover) => return Ok(only(alloc, cover)?),
        None => {}
    }
    let mut large = start_large(alloc, families)?;
    for count in 0..families.len() {
        large = grow_large(alloc, families, count, limit, large)?;
    }
    Ok(list_large(alloc, &large)?)
}

/// The minimal cover of no families.
fn no_positions(alloc: Global, families: &[Numbers]) -> Result<Vec<Cover>, OutOfMemory>
    ensures found { IfOk result (λ list. AreFound families.now 0 list.items) }
    ensures one { IfOk result (λ list. length list.items ≡ 1) }
{
    let mut list = Vec::new(alloc);
    list.push(Cover {
        positions: SmallVec::new(alloc),
        met: Flags::none(alloc, families.len())?,
        once: Flags::none(alloc, families.len())?,
    })?;
    Ok(list)
}

/// The positions of each cover, in lexicographic order.
fn in_order(alloc: Global, list: &[Cover]) -> Result<NumberLists, OutOfMemory>
    requires { Differ (sets list.now) }
    ensures rises { IfOk result (λ all. Rises Precedes all) }
    ensures same { IfOk result (λ all. (s : List ℕ) → Member all s ↔ Member (sets list.now) s) }
{
    let mut lists = positions_of(alloc, list)?;
    lists.sort_unstable();
    Ok(numbered(alloc, lists)?)
}

/// The positions of each cover.
fn positions_of(alloc: Global, list: &[Cover]) -> Result<Vec<Vec<u32>>, OutOfMemory>
    ensures { IfOk result (λ lists. map (λ v. v.items) lists.items ≡ sets list.now) }
{
    let mut lists = Vec::with_capacity(alloc, list.len())?;
    for cover in list {
        lists.push(Vec::from_slice(alloc, cover.positions.as_slice())?)?;
    }
    Ok(lists)
}

/// The same lists as lists of numbers.
fn numbered(alloc: Global, lists: Vec<Vec<u32>>) -> Result<NumberLists, OutOfMemory>
    ensures { IfOk result (λ covers. covers ≡ map (λ v. v.items) lists.items) }
{
    let mut covers = NumberLists::new(alloc);
    for list in lists {
        covers.push(&list)?;
    }
    Ok(covers)
}
