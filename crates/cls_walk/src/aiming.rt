//! The aims of frames, level by level.
ghost use Rattle.std.specs.Prelude.{◌≡◌, ℕ, ◌+◌, ◌-◌, ◌<◌, ◌≤◌, IfOk, IfSome, OnOk, slice_index_or};
ghost use Rattle.std.specs.Prelude.{List, [], ◌∷◌, ◌++◌, drop, length, map, take};
ghost use Rattle.std.specs.List.{flat_map};
ghost use Rattle.cls_base.specs.declared.rule.Rule.{Rule};
ghost use Rattle.cls_walk.specs.FrameAiming.{aimed_begun, aimed_pair, levels_from, no_aim, Adds};
ghost use Rattle.cls_walk.specs.FrameAims.{aimed_by, aims_at, next_aims, start_aims, stepped};
ghost use Rattle.cls_walk.specs.FrameAims.{Aim as SeenAim, AreLevels, AreThinned};
ghost use Rattle.cls_walk.specs.FrameBegins.{aim_of};
ghost use Rattle.cls_walk.specs.FrameColumns.{pair_of, place_of};
ghost use Rattle.cls_walk.specs.FrameGuides.{least_of, IsGuide};
ghost use Rattle.cls_walk.specs.FrameLevels.{all_levels, cuts, levels_of};
ghost use Rattle.cls_walk.specs.FrameLevels.{AreCuts, AreGrownLevels, AreLevelColumns, AreSameLevels};
ghost use Rattle.cls_walk.specs.Frames.{Frame};
ghost use Rattle.cls_walk.specs.Tables.{capped};

use crate::aims::{Aim, Levels, part};
use crate::guide::Guide;
use crate::least::number_of;
use crate::numbers::plus;
use crate::places::Place;
use crate::rules::Pair;
use crate::smallest::sum_of;
use crate::standing::Mark;
use cls_base::OutOfMemory;
use std::mem::replace;

/// The sum, if it isn't capped. No memory holds what a greater one is the sum of.
fn exact(sum: u64) -> Result<u64, OutOfMemory>
    ensures { (n : ℕ) → sum ≡ capped n → IfOk result (λ s. s ≡ n) }
{
    if sum == u64::MAX {
        return Err(OutOfMemory);
    }
    Ok(sum)
}

/// The place of an aim of this node.
fn place_of_node(aims: &[Aim], node: u32) -> Option<usize>
    ensures { IfSome result (λ i. (i < length aims.now) × ((slice_index_or aims.now i no_aim).node ≡ node)) }
{
    for index in 0..aims.len() {
        if aims[index].node == node {
            return Some(index);
        }
    }
    None
}

/// Adds an aim, or lowers what is behind it where one of its node is there.
fn put(aims: &mut Vec<Aim>, aim: Aim) -> Result<(), OutOfMemory>
    ensures { OnOk result (Adds (aim_of aim ∷ []) aims.old.items aims.new.items) }
{
    let Some(place) = place_of_node(aims.as_slice(), aim.node) else {
        aims.push(aim)?;
        return Ok(());
    };
    if aim.behind < aims[place].behind {
        aims[place] = aim;
    }
    Ok(())
}

/// Adds the aims by the pairs that begin with this node, where what they make comes to `behind`.
fn aim_by_pairs(
    aims: &mut Vec<Aim>,
    pairs: &[Pair],
    node: u32,
    behind: u64,
) -> Result<(), OutOfMemory>
    ensures { let more = flat_map (aimed_pair node behind) (map pair_of pairs.now) in
        OnOk result (Adds more aims.old.items aims.new.items) }
{
    for pair in pairs {
        if pair.left == node {
            let node = pair.right;
            put(aims, Aim { node, behind })?;
        }
    }
    Ok(())
}

/// Adds the aims of a place without further nodes, where what it makes is of a level.
fn aim_complete(
    guide: Guide,
    aims: &mut Vec<Aim>,
    level: &[Aim],
    node: u32,
) -> Result<(), OutOfMemory>
    ensures { (book : List (List (Rule ℕ))) (cost : ℕ → ℕ) → IsGuide book cost guide.entry
        → let more = flat_map (aimed_by book (least_of guide.entry) node) (map aim_of level.now) in
        OnOk result (Adds more aims.old.items aims.new.items) }
{
    for aim in level {
        aim_by_pairs(aims, guide.rules.pairs_of(aim.node), node, aim.behind)?;
    }
    Ok(())
}

/// Adds the aims of a place that awaits a term of this node, where its own node is of a level and `own` is awaited
/// between.
fn aim_begun(
    aims: &mut Vec<Aim>,
    level: &[Aim],
    place: u32,
    node: u32,
    own: u64,
) -> Result<(), OutOfMemory>
    ensures { let more = flat_map (aimed_begun place node own) (map aim_of level.now) in
        OnOk result (Adds more aims.old.items aims.new.items) }
{
    for aim in level {
        if aim.node == place {
            let behind = exact(plus(own, aim.behind))?;
            put(aims, Aim { node, behind })?;
        }
    }
    Ok(())
}

/// Adds the aims of a place of a frame with so many arguments to come, on the stack `below`.
fn aim_at(
    guide: Guide,
    levels: &Levels,
    aims: &mut Vec<Aim>,
    below: usize,
    left: usize,
    place: Place,
) -> Result<(), OutOfMemory>
    requires columns { AreLevelColumns levels.now }
    ensures { (book : List (List (Rule ℕ))) (cost : ℕ → ℕ) → IsGuide book cost guide.entry
        → let more = aims_at book (least_of guide.entry) (levels_of levels.now below) left (place_of place.entry) in
        OnOk result (Adds more aims.old.items aims.new.items) }
{
    let Some((node, rest)) = place.rest.split_first() else {
        let level = levels.level(below, left.saturating_sub(1));
        return aim_complete(guide, aims, level, place.node);
    };
    if rest.len() >= left {
        return Ok(());
    }
    let level = levels.level(below, left - 1 - rest.len());
    let own = exact(sum_of(guide.least, rest))?;
    aim_begun(aims, level, place.node, *node, own)
}

/// Adds the aims of the places of a frame with so many arguments to come, on the stack `below`.
fn aim(
    guide: Guide,
    levels: &Levels,
    aims: &mut Vec<Aim>,
    below: usize,
    left: usize,
    places: &[Place],
) -> Result<(), OutOfMemory>
    requires columns { AreLevelColumns levels.now }
    ensures { (book : List (List (Rule ℕ))) (cost : ℕ → ℕ) → IsGuide book cost guide.entry
        → let aims_of = aims_at book (least_of guide.entry) (levels_of levels.now below) left in
        OnOk result (Adds (flat_map aims_of (map place_of places.now)) aims.old.items aims.new.items) }
{
    for place in places {
        aim_at(guide, levels, aims, below, left, *place)?;
    }
    Ok(())
}

/// Adds the nodes from which an aim is reached by a pair.
fn step_by(guide: Guide, aims: &mut Vec<Aim>, aim: Aim) -> Result<(), OutOfMemory>
    ensures { (book : List (List (Rule ℕ))) (cost : ℕ → ℕ) → IsGuide book cost guide.entry
        → let more = stepped book (least_of guide.entry) (aim_of aim) in
        OnOk result (Adds more aims.old.items aims.new.items) }
{
    for pair in guide.rules.pairs_of(aim.node) {
        let own = u64::from(number_of(guide.least, pair.right));
        let behind = exact(plus(own, aim.behind))?;
        let node = pair.left;
        put(aims, Aim { node, behind })?;
    }
    Ok(())
}

/// Adds the aims of the level behind a level.
fn step(guide: Guide, aims: &mut Vec<Aim>, level: &[Aim]) -> Result<(), OutOfMemory>
    ensures { (book : List (List (Rule ℕ))) (cost : ℕ → ℕ) → IsGuide book cost guide.entry
        → let more = flat_map (stepped book (least_of guide.entry)) (map aim_of level.now) in
        OnOk result (Adds more aims.old.items aims.new.items) }
{
    for aim in level {
        step_by(guide, aims, *aim)?;
    }
    Ok(())
}

/// The aims that are made become the next level.
fn close_level(levels: &mut Levels) -> Result<(), OutOfMemory>
    requires cuts { AreCuts 0 (length levels.old.aims.items) levels.old.ends.items }
    ensures cuts { OnOk result (AreCuts 0 (length levels.new.aims.items) levels.new.ends.items) }
    ensures grown { OnOk result (AreGrownLevels levels.old levels.new) }
    ensures stacks { OnOk result (levels.new.stacks.items ≡ levels.old.stacks.items) }
    ensures count { OnOk result (length levels.new.ends.items ≡ length levels.old.ends.items + 1) }
    ensures last { OnOk result (all_levels levels.new
        ≡ all_levels levels.old ++ map aim_of levels.old.made.items ∷ []) }
{
    levels.aims.extend_from_slice(levels.made.as_slice())?;
    levels.ends.push(levels.aims.len())?;
    Ok(())
}

/// Makes the aims of the level behind the last one.
fn step_on(guide: Guide, levels: &mut Levels) -> Result<(), OutOfMemory>
    requires cuts { AreCuts 0 (length levels.old.aims.items) levels.old.ends.items }
    requires some { 1 ≤ length levels.old.ends.items }
    ensures same { AreSameLevels levels.old levels.new }
    ensures made { (book : List (List (Rule ℕ))) (cost : ℕ → ℕ) → IsGuide book cost guide.entry
        → let last = levels_from (all_levels levels.old) (length levels.old.ends.items - 1) 0 in
        let more = flat_map (stepped book (least_of guide.entry)) last in
        OnOk result (AreThinned more (map aim_of levels.new.made.items)) }
{
    let ends = levels.ends.as_slice();
    let last = part(levels.aims.as_slice(), ends, ends.len() - 1);
    levels.made.clear();
    step(guide, &mut levels.made, last)
}

/// Adds the levels behind the last one, no more than `most`, as far as they have aims.
fn climb(guide: Guide, levels: &mut Levels, most: u32) -> Result<(), OutOfMemory>
    requires cuts { AreCuts 0 (length levels.old.aims.items) levels.old.ends.items }
    requires some { 1 ≤ length levels.old.ends.items }
    ensures cuts { OnOk result (AreCuts 0 (length levels.new.aims.items) levels.new.ends.items) }
    ensures grown { OnOk result (AreGrownLevels levels.old levels.new) }
    ensures stacks { OnOk result (levels.new.stacks.items ≡ levels.old.stacks.items) }
    ensures steps { (book : List (List (Rule ℕ))) (cost : ℕ → ℕ) → IsGuide book cost guide.entry
        → let new = levels_from (all_levels levels.new) (length levels.old.ends.items - 1) in
        OnOk result (AreLevels book (least_of guide.entry) most new) }
{
    for _pairs in 0..most {
        step_on(guide, levels)?;
        if levels.made.is_empty() {
            return Ok(());
        }
        close_level(levels)?;
    }
    Ok(())
}

/// The levels from `first` to below `end` are those of this stack. Those stacks between that aren't there have none.
fn close_stack(
    stacks: &mut Vec<usize>,
    stack: usize,
    first: usize,
    end: usize,
) -> Result<(), OutOfMemory>
    requires cuts { AreCuts 0 first stacks.old.items }
    requires rises { first ≤ end }
    requires new { length stacks.old.items ≤ stack }
    ensures cuts { OnOk result (AreCuts 0 end stacks.new.items) }
    ensures grown { OnOk result (take (length stacks.old.items) stacks.new.items ≡ stacks.old.items) }
    ensures count { OnOk result (length stacks.new.items ≡ stack + 1) }
    ensures last { (levels : List (List SeenAim)) → length levels ≡ end
        → OnOk result (slice_index_or (cuts levels 0 stacks.new.items) stack [] ≡ drop first levels) }
{
    for _between in stacks.len()..stack {
        stacks.push(first)?;
    }
    stacks.push(end)?;
    Ok(())
}

/// The aims that are made become level 0 of a stack, and the levels behind it are added.
fn rise(guide: Guide, levels: &mut Levels, stack: usize, most: u32) -> Result<(), OutOfMemory>
    requires columns { AreLevelColumns levels.old }
    requires new { length levels.old.stacks.items ≤ stack }
    ensures columns { OnOk result (AreLevelColumns levels.new) }
    ensures grown { OnOk result (AreGrownLevels levels.old levels.new) }
    ensures count { OnOk result (length levels.new.stacks.items ≡ stack + 1) }
    ensures first { OnOk result (levels_of levels.new stack 0 ≡ map aim_of levels.old.made.items) }
    ensures steps { (book : List (List (Rule ℕ))) (cost : ℕ → ℕ) → IsGuide book cost guide.entry
        → OnOk result (AreLevels book (least_of guide.entry) most (levels_of levels.new stack)) }
{
    let first = levels.ends.len();
    close_level(levels)?;
    climb(guide, levels, most)?;
    let end = levels.ends.len();
    close_stack(&mut levels.stacks, stack, first, end)
}

/// The levels of stack 0, on which the node is awaited whose terms are listed.
pub(crate) fn aim_start(guide: Guide, levels: &mut Levels, most: u32) -> Result<(), OutOfMemory>
    requires columns { AreLevelColumns levels.old }
    requires none { levels.old.stacks.items ≡ [] }
    ensures columns { OnOk result (AreLevelColumns levels.new) }
    ensures count { OnOk result (length levels.new.stacks.items ≡ 1) }
    ensures first { OnOk result (levels_of levels.new 0 0 ≡ start_aims guide.entry.start) }
    ensures steps { (book : List (List (Rule ℕ))) (cost : ℕ → ℕ) → IsGuide book cost guide.entry
        → OnOk result (AreLevels book (least_of guide.entry) most (levels_of levels.new 0)) }
{
    levels.made.clear();
    levels.made.push(Aim {
        node: guide.start,
        behind: 0,
    })?;
    rise(guide, levels, 0, most)
}

/// The levels of a stack, where these are the places of the frame on top and its mark.
pub(crate) fn aim_on(
    guide: Guide,
    levels: &mut Levels,
    places: &[Place],
    mark: Mark,
    stack: usize,
    most: u32,
) -> Result<(), OutOfMemory>
    requires columns { AreLevelColumns levels.old }
    requires new { length levels.old.stacks.items ≤ stack }
    ensures columns { OnOk result (AreLevelColumns levels.new) }
    ensures grown { OnOk result (AreGrownLevels levels.old levels.new) }
    ensures count { OnOk result (length levels.new.stacks.items ≡ stack + 1) }
    ensures first { (book : List (List (Rule ℕ))) (cost : ℕ → ℕ) → IsGuide book cost guide.entry
        → let aims = next_aims book (least_of guide.entry) (levels_of levels.old mark.below) in
        let frame : Frame = record { places = map place_of places.now; left = mark.left } in
        OnOk result (AreThinned (aims frame) (levels_of levels.new stack 0)) }
    ensures steps { (book : List (List (Rule ℕ))) (cost : ℕ → ℕ) → IsGuide book cost guide.entry
        → OnOk result (AreLevels book (least_of guide.entry) most (levels_of levels.new stack)) }
{
    let none = Vec::new(*levels.made.allocator());
    let mut made = replace(&mut levels.made, none);
    made.clear();
    let left = mark.left as usize;
    aim(guide, levels, &mut made, mark.below, left, places)?;
    levels.made = made;
    rise(guide, levels, stack, most)
}
