//! Which openings are offered by aims: their openings in rising order, each once.
ghost use Rattle.std.specs.Prelude.{◌≡◌, ℕ, ◌+◌, ◌≤◌, ◌<◌, ◌↔◌, IsTrue, List, OnOk, length, map};
ghost use Rattle.cls_base.specs.declared.rule.Rule.{Rule};
ghost use Rattle.cls_walk.specs.Counts.{HeadRule};
ghost use Rattle.cls_walk.specs.FrameBegins.{aim_of, heads_in, AreBefore, AreFrom, AreSized, StandsBefore};
ghost use Rattle.cls_walk.specs.FrameColumns.{head_of};
ghost use Rattle.cls_walk.specs.FrameGuides.{least_of, IsGuide};
ghost use Rattle.cls_walk.specs.FrameLevels.{levels_of, AreLevelColumns};
ghost use Rattle.cls_walk.specs.FrameOffered.{AreGatheredAt, AreGatheredBy};
ghost use Rattle.cls_walk.specs.FrameWalks.{IsOffered};
ghost use Rattle.cls_walk.specs.Openings.{AreRising, ArePut, IsGathered};
ghost use Rattle.cls_walk.specs.Orders.{InOrder};

use crate::ahead::put_offer;
use crate::aims::{Aim, Levels};
use crate::guide::Guide;
use crate::numbers::number_in;
use crate::opening::Opening;
use crate::rules::Head;
use cls_base::OutOfMemory;

/// Whether the head rule stands before those with this component and so many arguments.
fn is_earlier(head: Head, component: u32, count: usize) -> bool
    ensures { IsTrue result ↔ StandsBefore component count (head_of head.entry) }
{
    head.component < component || (head.component == component && head.nodes.len() < count)
}

/// Head rules before this place stand before those with this component and so many arguments.
pub(crate) fn first_from(heads: &[Head], component: u32, count: usize) -> usize
    requires { InOrder (map head_of heads.now) }
    ensures within { result ≤ length heads.now }
    ensures before { AreBefore result component count heads.now }
    ensures from { AreFrom result component count heads.now }
{
    let mut low = 0;
    let mut high = heads.len();
    while low < high {
        let middle = low + (high - low) / 2;
        if is_earlier(heads[middle], component, count) {
            low = middle + 1;
        } else {
            high = middle;
        }
    }
    low
}

/// Puts the opening of a head rule with so many pairs among those from `first` on, if it has no more arguments than
/// there are to spare.
fn gather_one(
    head: Head,
    pairs: usize,
    spare: u32,
    first: usize,
    offers: &mut Vec<Opening>,
) -> Result<(), OutOfMemory>
    requires within { first ≤ length offers.old.items }
    requires rising { AreRising first offers.old.items }
    ensures put { OnOk result (ArePut first offers.old.items offers.new.items) }
    ensures here { let count = length head.entry.nodes.now + pairs in
        count ≤ spare → OnOk result (IsGathered first offers.new.items head.entry.component count) }
{
    let count = head.nodes.len().saturating_add(pairs);
    if count > spare as usize {
        return Ok(());
    }
    let opening = Opening {
        component: head.component,
        count: count as u32,
    };
    put_offer(offers, first, opening)
}

/// The same for the head rules of the node of this aim that come to no more than the size.
fn gather_by(
    guide: Guide,
    aim: Aim,
    pairs: usize,
    size: u32,
    spare: u32,
    first: usize,
    offers: &mut Vec<Opening>,
) -> Result<(), OutOfMemory>
    requires within { first ≤ length offers.old.items }
    requires rising { AreRising first offers.old.items }
    ensures put { OnOk result (ArePut first offers.old.items offers.new.items) }
    ensures gathered { (own : HeadRule → ℕ) → AreSized own guide.entry.rules.now guide.entry.sizes.now
        → let heads = map head_of (heads_in guide.entry.rules.now aim.node) in
        OnOk result (AreGatheredBy own size spare first aim.behind pairs heads offers.new.items) }
{
    if aim.behind > u64::from(size) {
        return Ok(());
    }
    let left = u64::from(size) - aim.behind;
    let heads = guide.rules.heads_of(aim.node);
    let sizes = guide.sizes.column(aim.node);
    for index in 0..heads.len() {
        if number_in(sizes, index) <= left {
            gather_one(heads[index], pairs, spare, first, offers)?;
        }
    }
    Ok(())
}

/// The same for each aim of a level.
fn gather_at(
    guide: Guide,
    level: &[Aim],
    pairs: usize,
    size: u32,
    spare: u32,
    first: usize,
    offers: &mut Vec<Opening>,
) -> Result<(), OutOfMemory>
    requires within { first ≤ length offers.old.items }
    requires rising { AreRising first offers.old.items }
    ensures put { OnOk result (ArePut first offers.old.items offers.new.items) }
    ensures gathered { (own : HeadRule → ℕ) → AreSized own guide.entry.rules.now guide.entry.sizes.now
        → let aims = map aim_of level.now in
        OnOk result (AreGatheredAt own size spare first guide.entry.rules.now pairs aims offers.new.items) }
{
    for aim in level {
        gather_by(guide, *aim, pairs, size, spare, first, offers)?;
    }
    Ok(())
}

/// Puts behind the openings those that are offered on a stack within the size, in rising order, each once.
pub(crate) fn gather(
    guide: Guide,
    levels: &Levels,
    top: usize,
    size: u32,
    spare: u32,
    offers: &mut Vec<Opening>,
) -> Result<(), OutOfMemory>
    requires columns { AreLevelColumns levels.now }
    ensures put { OnOk result (ArePut (length offers.old.items) offers.old.items offers.new.items) }
    ensures gathered { (book : List (List (Rule ℕ))) (cost : ℕ → ℕ) → IsGuide book cost guide.entry
        → let IsOpening = IsOffered book (least_of guide.entry) cost (levels_of levels.now top) size spare in
        OnOk result ((x k : ℕ) → IsOpening x k
        → IsGathered (length offers.old.items) offers.new.items x k) }
{
    let first = offers.len();
    for pairs in 0..levels.height(top) {
        let level = levels.level(top, pairs);
        gather_at(guide, level, pairs, size, spare, first, offers)?;
    }
    Ok(())
}
