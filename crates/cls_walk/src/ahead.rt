//! What a walk over frames has ahead of it.
ghost use Rattle.std.specs.Prelude.{◌≡◌, ℕ, ◌≤◌, ◌<◌, [], length, true, false, OnOk, slice_index_or};
ghost use Rattle.cls_walk.specs.FrameLevels.{AreLevelColumns};
ghost use Rattle.cls_walk.specs.Openings.{no_opening, AreRising, ArePut, IsAtMost, IsBelow, IsGathered};

use crate::aims::Levels;
use crate::opening::Opening;
use cls_base::OutOfMemory;
use std::alloc::Global;

/// The levels of the stacks, and the openings that are offered on the stacks that are being gone through: those of a
/// stack rise, and stand behind those of the stack before it.
#[derive(Drop)]
pub(crate) struct Ahead {
    pub(crate) levels: Levels,
    pub(crate) offers: Vec<Opening>,
}

impl Ahead {
    /// Nothing.
    pub(crate) fn new(alloc: Global) -> Ahead
        ensures columns { AreLevelColumns result.levels }
        ensures none { result.levels.stacks.items ≡ [] }
    {
        Ahead {
            levels: Levels::new(alloc),
            offers: Vec::new(alloc),
        }
    }
}

/// Whether codes that begin with the first opening come before those that begin with the second.
fn is_before(first: Opening, second: Opening) -> bool
    ensures before { result ≡ true → IsBelow first second.component second.count }
    ensures not { result ≡ false → IsAtMost second first.component first.count }
{
    first.component < second.component
        || (first.component == second.component && first.count < second.count)
}

/// Whether the openings from `first` on, which rise, are all before this one.
fn is_last(offers: &[Opening], first: usize, opening: Opening) -> bool
    requires rising { AreRising first offers.now }
    ensures { result ≡ true → (i : ℕ) → first ≤ i → i < length offers.now
        → IsBelow (slice_index_or offers.now i no_opening) opening.component opening.count }
{
    let end = offers.len();
    end <= first || is_before(offers[end - 1], opening)
}

/// Whether this opening is the last one, and stands at `first` or behind it.
fn ends_with(offers: &[Opening], first: usize, opening: Opening) -> bool
    ensures { result ≡ true → IsGathered first offers.now opening.component opening.count }
{
    let end = offers.len();
    end > first
        && offers[end - 1].component == opening.component
        && offers[end - 1].count == opening.count
}

/// The first place from `first` on whose opening isn't before this one, where they rise, or the end.
fn place_from(offers: &[Opening], first: usize, opening: Opening) -> usize
    requires within { first ≤ length offers.now }
    requires rising { AreRising first offers.now }
    ensures from { first ≤ result }
    ensures within { result ≤ length offers.now }
    ensures before { (i : ℕ) → first ≤ i → i < result
        → IsBelow (slice_index_or offers.now i no_opening) opening.component opening.count }
    ensures not { (i : ℕ) → result ≤ i → i < length offers.now
        → let other = slice_index_or offers.now i no_opening in
        IsAtMost opening other.component other.count }
{
    let mut low = first;
    let mut high = offers.len();
    while low < high {
        let middle = low + (high - low) / 2;
        if is_before(offers[middle], opening) {
            low = middle + 1;
        } else {
            high = middle;
        }
    }
    low
}

/// Puts the opening among those from `first` on, which rise, unless it is there.
pub(crate) fn put_offer(
    offers: &mut Vec<Opening>,
    first: usize,
    opening: Opening,
) -> Result<(), OutOfMemory>
    requires within { first ≤ length offers.old.items }
    requires rising { AreRising first offers.old.items }
    ensures put { OnOk result (ArePut first offers.old.items offers.new.items) }
    ensures here { OnOk result (IsGathered first offers.new.items opening.component opening.count) }
{
    if is_last(offers.as_slice(), first, opening) {
        return Ok(offers.push(opening)?);
    }
    if ends_with(offers.as_slice(), first, opening) {
        return Ok(());
    }
    let place = place_from(offers.as_slice(), first, opening);
    if place == offers.len() || is_before(opening, offers[place]) {
        offers.insert(place, opening)?;
    }
    Ok(())
}
