//! Frames that are begun by an opening.
ghost use Rattle.std.specs.Prelude.{◌≡◌, true, ℕ, ◌+◌, ◌-◌, ◌≤◌, ◌<◌, IfOk, List, length, map, OnOk, slice_index_or};
ghost use Rattle.cls_base.specs.declared.rule.Rule.{Rule};
ghost use Rattle.cls_walk.specs.Counts.{HeadRule};
ghost use Rattle.cls_walk.specs.FrameBegins.{aim_of, AreBegun, AreFrom, AreSized, AreNone, AreTotals};
ghost use Rattle.cls_walk.specs.FrameBegins.{Covers, IsBegunBy, IsBegunWith};
ghost use Rattle.cls_walk.specs.FrameColumns.{head_of, Grows};
ghost use Rattle.cls_walk.specs.FrameGuides.{least_of, IsGuide};
ghost use Rattle.cls_walk.specs.FrameHeaps.{no_mark, stack_of, AreFrames, AreGrown};
ghost use Rattle.cls_walk.specs.FrameLevels.{levels_of, AreLevelColumns};
ghost use Rattle.cls_walk.specs.FrameOpenings.{Begins};
ghost use Rattle.cls_walk.specs.Orders.{InOrder};
ghost use Rattle.cls_walk.specs.Tables.{capped};

use crate::aims::{Aim, Levels, Span};
use crate::guide::Guide;
use crate::numbers::{number_in, plus};
use crate::offers::first_from;
use crate::opening::Opening;
use crate::places::Place;
use crate::rules::Head;
use crate::standing::Frames;
use cls_base::OutOfMemory;

/// Adds the place of a head rule that comes to this size, if it has this opening and comes to no more than `size` with
/// what is behind it.
fn begin_with<'a>(
    head: Head<'a>,
    total: u64,
    aim: Aim,
    component: u32,
    count: usize,
    size: u32,
    places: &mut Vec<Place<'a>>,
) -> Result<(), OutOfMemory>
    ensures { (own : HeadRule → ℕ) → total ≡ capped (own (head_of head.entry))
        → let IsNew = IsBegunWith own (aim_of aim) component count size (head_of head.entry) in
        OnOk result (Grows IsNew places.old.items places.new.items) }
{
    if head.component == component
        && head.nodes.len() == count
        && plus(total, aim.behind) <= u64::from(size)
    {
        places.push(Place {
            node: aim.node,
            rest: head.nodes,
        })?;
    }
    Ok(())
}

/// The same for each of the head rules of the node of an aim, of which those with the opening stand in this span.
fn begin_by<'a>(
    heads: &[Head<'a>],
    sizes: &[u64],
    span: Span,
    aim: Aim,
    component: u32,
    count: usize,
    size: u32,
    places: &mut Vec<Place<'a>>,
) -> Result<(), OutOfMemory>
    requires rises { span.first ≤ span.end }
    requires within { span.end ≤ length heads.now }
    requires covers { Covers span component count heads.now }
    ensures { (own : HeadRule → ℕ) → AreTotals own heads.now sizes.now
        → let IsNew = IsBegunBy own (aim_of aim) component count size (map head_of heads.now) in
        OnOk result (Grows IsNew places.old.items places.new.items) }
{
    for index in span.first..span.end {
        let total = number_in(sizes, index);
        begin_with(heads[index], total, aim, component, count, size, places)?;
    }
    Ok(())
}

/// Behind the head rules of this opening that stand from `first` on.
fn end_of(heads: &[Head], first: usize, component: u32, count: usize) -> usize
    requires { first ≤ length heads.now }
    ensures rises { first ≤ result }
    ensures within { result ≤ length heads.now }
    ensures none { InOrder (map head_of heads.now) → AreFrom first component count heads.now
        → AreNone result component count heads.now }
{
    for index in first..heads.len() {
        let head = heads[index];
        if head.component != component || head.nodes.len() != count {
            return index;
        }
    }
    heads.len()
}

/// Where the head rules of this opening stand.
fn span_of(guide: Guide, heads: &[Head], component: u32, count: usize) -> Span
    requires { guide.is_ordered ≡ true → InOrder (map head_of heads.now) }
    ensures rises { result.first ≤ result.end }
    ensures within { result.end ≤ length heads.now }
    ensures covers { Covers result component count heads.now }
{
    if !guide.is_ordered {
        return Span {
            first: 0,
            end: heads.len(),
        };
    }
    let first = first_from(heads, component, count);
    let end = end_of(heads, first, component, count);
    Span { first, end }
}

/// Adds the places for each aim of a level.
fn begin_at<'a>(
    guide: Guide<'_, 'a>,
    places: &mut Vec<Place<'a>>,
    level: &[Aim],
    component: u32,
    count: usize,
    size: u32,
) -> Result<(), OutOfMemory>
    ensures { (own : HeadRule → ℕ) → AreSized own guide.entry.rules.now guide.entry.sizes.now
        → let IsNew = AreBegun own guide.entry.rules.now (map aim_of level.now) component count size in
        OnOk result (Grows IsNew places.old.items places.new.items) }
{
    for aim in level {
        let heads = guide.rules.heads_of(aim.node);
        let sizes = guide.sizes.column(aim.node);
        let span = span_of(guide, heads, component, count);
        begin_by(heads, sizes, span, *aim, component, count, size, places)?;
    }
    Ok(())
}

/// The frame of an opening, with the places that come to no more than the size, on a stack. Gives the stack.
pub(crate) fn begin<'a>(
    guide: Guide<'_, 'a>,
    frames: &mut Frames<'a>,
    levels: &Levels,
    top: usize,
    opening: Opening,
    size: u32,
) -> Result<usize, OutOfMemory>
    requires columns { AreLevelColumns levels.now }
    requires frames { AreFrames frames.old }
    requires within { top ≤ length frames.old.marks.items }
    ensures frames { OnOk result (AreFrames frames.new) }
    ensures grown { OnOk result (AreGrown frames.old frames.new) }
    ensures count { OnOk result (length frames.new.marks.items ≡ length frames.old.marks.items + 1) }
    ensures mark { OnOk result (let old = length frames.old.marks.items in
        let mark = slice_index_or frames.new.marks.items old no_mark in
        (mark.below ≡ top) × (mark.left ≡ opening.count)) }
    ensures top { IfOk result (λ t. t ≡ length frames.old.marks.items + 1) }
    ensures kept { OnOk result ((s : ℕ) → s ≤ length frames.old.marks.items
        → stack_of frames.new s ≡ stack_of frames.old s) }
    ensures begun { (book : List (List (Rule ℕ))) (cost : ℕ → ℕ) → IsGuide book cost guide.entry
        → cost opening.component ≤ size
        → let least = least_of guide.entry in
        let left = size - cost opening.component in
        let IsBegun = Begins book least (levels_of levels.now top) frames.old frames.new top left in
        IfOk result (IsBegun opening.component opening.count) }
{
    let count = opening.count as usize;
    frames.made.clear();
    for pairs in 0..levels.height(top).min(count.saturating_add(1)) {
        let level = levels.level(top, pairs);
        let few = count - pairs;
        begin_at(guide, &mut frames.made, level, opening.component, few, size)?;
    }
    frames.close(top, opening.count)
}
