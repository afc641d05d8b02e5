//! The minimal covers of families whose positions are below 128.
ghost use Rattle.std.specs.Prelude.{◌≡◌, ℕ, ◌+◌, ◌<◌, ◌↔◌, [], ◌∷◌};
ghost use Rattle.std.specs.Prelude.{IfOk, IfErr, IfSome, OnOk, IsTrue, List, None, length, map, reverse, All};
ghost use Rattle.cls_base.specs.Terms.{Precedes};
ghost use Rattle.cls_cover.specs.Lists.{IsAscending};
ghost use Rattle.cls_cover.specs.Covers.{AreCovers, AreWithinLimit};
ghost use Rattle.cls_cover.specs.Faults.{HasCause};
ghost use Rattle.cls_cover.specs.Fronts.{AreInOrder, AreSmall};
ghost use Rattle.cls_cover.specs.Members.{Member, Rises, Differ};
ghost use Rattle.cls_cover.specs.MemberCovers.{Shares};
ghost use Rattle.cls_cover.specs.Growing.{IsPut};
ghost use Rattle.cls_cover.specs.Sets.{members, IsSetOf, AreSetsOf};
ghost use Rattle.cls_cover.specs.Choosing.{IsBegun, next_of, IsCoverBefore, IsCoverAfter, Misses, IsFree};
ghost use Rattle.cls_cover.specs.Choosing.{IsGiven, AreGiven, AreCoversOf, AreApart};

use crate::minimal::CoverFault;
use crate::sets::{alone, each_meets_alone, put_members};
use cls_base::{NumberLists, Numbers, OutOfMemory};
use std::alloc::Global;
use std::mem;

/// The families with their sets, and how many of them come before the next one: the positions of these are seen.
#[derive(Clone, Copy)]
pub(crate) struct Begun<'a> {
    families: &'a [Numbers],
    sets: &'a [u128],
    seen: u128,
    count: usize,
}

/// The cover with a position of the next family, if that is minimal.
fn joined(begun: &Begun, cover: u128, x: u32) -> Option<u128>
    requires begun { IsBegun begun.now }
    requires minimal { IsCoverBefore begun.now cover }
    requires missed { Misses begun.now cover }
    requires here { Member (next_of begun.now) x }
    ensures put { IfSome result (λ larger. IsPut x (members cover) (members larger)) }
    ensures minimal { IfSome result (λ larger. IsCoverAfter begun.now (members larger)) }
    ensures none { result ≡ None
        → (t : List ℕ) → IsPut x (members cover) t → IsCoverAfter begun.now t → ⊥ }
{
    let one = alone(x);
    let larger = cover | one;
    if begun.seen & one == 0 {
        return Some(larger);
    }
    if each_meets_alone(&begun.sets[..begun.count + 1], larger) {
        Some(larger)
    } else {
        None
    }
}

/// Adds what the cover gives with the positions of the next family, which it misses.
fn add_joined(begun: &Begun, cover: u128, list: &mut Vec<u128>) -> Result<(), OutOfMemory>
    requires begun { IsBegun begun.now }
    requires minimal { IsCoverBefore begun.now cover }
    requires missed { Misses begun.now cover }
    requires free { IsFree begun.now cover list.old.items }
    requires differ { Differ (next_of begun.now) }
    ensures { OnOk result (IsGiven begun.now cover list.old.items list.new.items) }
{
    for x in begun.families[begun.count].as_slice() {
        if let Some(larger) = joined(begun, cover, *x) {
            list.push(larger)?;
        }
    }
    Ok(())
}

/// Whether the cover meets the next family.
fn meets(begun: &Begun, cover: u128) -> bool
    requires begun { IsBegun begun.now }
    ensures { IsTrue result ↔ Shares (next_of begun.now) (members cover) }
{
    cover & begun.sets[begun.count] != 0
}

/// Adds what the cover gives with the next family.
fn add(begun: &Begun, cover: u128, list: &mut Vec<u128>) -> Result<(), OutOfMemory>
    requires begun { IsBegun begun.now }
    requires minimal { IsCoverBefore begun.now cover }
    requires free { IsFree begun.now cover list.old.items }
    requires differ { Differ (next_of begun.now) }
    ensures { OnOk result (IsGiven begun.now cover list.old.items list.new.items) }
{
    if meets(begun, cover) {
        list.push(cover)?;
        return Ok(());
    }
    add_joined(begun, cover, list)
}

/// Makes the list what the covers give with the next family. It may lack some where it is longer than the limit. What
/// it held before is dropped, and its memory used again.
fn grow(begun: &Begun, covers: &[u128], limit: u32, list: &mut Vec<u128>) -> Result<(), OutOfMemory>
    requires begun { IsBegun begun.now }
    requires covers { AreCoversOf begun.now.families.now begun.now.count (map members covers.now) }
    requires differ { Differ (next_of begun.now) }
    ensures { OnOk result (AreGiven begun.now limit covers.now list.new.items) }
{
    list.clear();
    for cover in covers {
        if list.len() <= limit as usize {
            add(begun, *cover, list)?;
        }
    }
    Ok(())
}

/// The list of the empty set.
fn empty_set(alloc: Global) -> Result<Vec<u128>, OutOfMemory>
    ensures { IfOk result (λ list. list.items ≡ 0 ∷ []) }
{
    let mut list = Vec::with_capacity(alloc, 1)?;
    list.push(0)?;
    Ok(list)
}

/// The sets as lists, the greatest one first.
fn from_greatest(alloc: Global, mut sets: Vec<u128>) -> Result<NumberLists, OutOfMemory>
    ensures { IfOk result (λ all. all ≡ map members (reverse sets.items)) }
{
    let mut lists = NumberLists::new(alloc);
    let mut members = Vec::new(alloc);
    while let Some(set) = sets.pop() {
        members.clear();
        put_members(set, &mut members)?;
        lists.push(&members)?;
    }
    Ok(lists)
}

/// The sets as lists, in lexicographic order.
fn in_order(alloc: Global, mut sets: Vec<u128>) -> Result<NumberLists, OutOfMemory>
    requires differ { Differ (map members sets.items) }
    requires apart { AreApart (map members sets.items) }
    ensures rises { IfOk result (λ all. Rises Precedes all) }
    ensures same { IfOk result (λ all. (s : List ℕ) → Member all s ↔ Member (map members sets.items) s) }
{
    sets.sort_unstable();
    Ok(from_greatest(alloc, sets)?)
}

/// The minimal covers of the first families, with the sets of all families.
#[derive(Drop)]
pub(crate) struct SmallCovers {
    sets: Vec<u128>,
    /// The positions of the first families.
    seen: u128,
    list: Vec<u128>,
    /// Room for the covers of one family more, whatever it holds.
    next: Vec<u128>,
}

/// The cover of none of the families, whose sets are given.
pub(crate) fn start_small(alloc: Global, sets: Vec<u128>) -> Result<SmallCovers, OutOfMemory>
    ensures sets { IfOk result (λ small. small.sets.items ≡ sets.items) }
    ensures seen { IfOk result (λ small. small.seen ≡ 0) }
    ensures list { IfOk result (λ small. small.list.items ≡ 0 ∷ []) }
{
    let list = empty_set(alloc)?;
    let next = Vec::new(alloc);
    Ok(SmallCovers {
        sets,
        seen: 0,
        list,
        next,
    })
}

/// Makes the covers of the first `count` families those of one family more. After an error they aren't known.
pub(crate) fn grow_small(
    families: &[Numbers],
    count: usize,
    limit: u32,
    small: &mut SmallCovers,
) -> Result<(), CoverFault>
    requires ascending { All IsAscending families.now }
    requires covers { AreSmall families.now limit count small.old }
    requires more { count < length families.now }
    ensures covers { OnOk result (AreSmall families.now limit (count + 1) small.new) }
    ensures fault { IfErr result (HasCause families.now limit) }
{
    let sets = small.sets.as_slice();
    let begun = Begun {
        families,
        sets,
        seen: small.seen,
        count,
    };
    grow(&begun, small.list.as_slice(), limit, &mut small.next)?;
    mem::swap(&mut small.list, &mut small.next);
    if small.list.len() > limit as usize {
        return Err(CoverFault::TooManyCovers(count + 1));
    }
    small.seen |= sets[count];
    Ok(())
}

/// The covers as lists, in lexicographic order.
pub(crate) fn list_small(alloc: Global, small: &SmallCovers) -> Result<NumberLists, OutOfMemory>
    requires differ { Differ (map members small.now.list.items) }
    requires apart { AreApart (map members small.now.list.items) }
    ensures { IfOk result (λ all. AreInOrder (map members small.now.list.items) all) }
{
    let copy = Vec::from_slice(alloc, small.list.as_slice())?;
    Ok(in_order(alloc, copy)?)
}

/// The minimal covers of the families, whose sets are given, in lexicographic order.
///
/// Covers are made family by family. One that meets the next family stays. Another one is extended by each position of the
/// family by which it stays minimal. A position that stands in no family before is tried without a test.
// Not inlined: a frame is cleared whenever its function is called, and this one's is large.
#[inline(never)]
pub(crate) fn small_covers(
    alloc: Global,
    families: &[Numbers],
    sets: Vec<u128>,
    limit: u32,
) -> Result<NumberLists, CoverFault>
    requires ascending { All IsAscending families.now }
    requires sets { AreSetsOf families.now sets.items }
    requires positive { 0 < limit }
    ensures covers { IfOk result (λ list. AreCovers families.now list) }
    ensures within { IfOk result (λ _. AreWithinLimit families.now limit) }
    ensures fault { IfErr result (HasCause families.now limit) }
{
    let mut small = start_small(alloc, sets)?;
    for count in 0..families.len() {
        grow_small(families, count, limit, &mut small)?;
    }
    let SmallCovers { list, .. } = small;
    Ok(in_order(alloc, list)?)
}
