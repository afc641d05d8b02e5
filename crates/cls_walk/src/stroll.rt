//! The walk over frames, where a code may have several derivations: a state is what the terms that are begun can
//! become. So each code is listed once.
ghost use Rattle.std.specs.Prelude.{◌≡◌, ℕ, ◌+◌, ◌<◌, ◌≤◌, [], ◌∷◌, IfOk, List, OnOk, length};
ghost use Rattle.cls_base.specs.Limits.{max_term_length};
ghost use Rattle.cls_base.specs.declared.rule.Rule.{Rule};
ghost use Rattle.cls_term.specs.Costs.{cost_of};
ghost use Rattle.cls_walk.specs.FrameGuides.{IsGuide};
ghost use Rattle.cls_walk.specs.FrameHeaps.{stack_of, AreFrames, AreSameFrames};
ghost use Rattle.cls_walk.specs.FrameLevels.{AreLevelColumns, AreSameLevels};
ghost use Rattle.cls_walk.specs.FramePlans.{AreAimed, IsAimed, IsSettled};
ghost use Rattle.cls_walk.specs.FrameWalks.{BeginsWith, IsDueOn};
ghost use Rattle.cls_walk.specs.Frames.{await_count, AreAsking, Frame};
ghost use Rattle.cls_walk.specs.Walks.{IsBack, Lists};

use crate::ahead::Ahead;
use crate::aiming::{aim_on, aim_start};
use crate::begin::begin;
use crate::cursor::Cursor;
use crate::numbers::cost_at;
use crate::offers::gather;
use crate::opening::Opening;
use crate::places::is_complete;
use crate::plan::Plan;
use crate::standing::{Frames, places_on, settle};
use crate::walk::Walk;
use cls_base::OutOfMemory;
use std::alloc::Global;

/// Lists the code so far, if the whole frame on top is a term of the node whose terms are listed, nothing is left, and
/// the code comes after the cursor.
fn emit(
    plan: &Plan,
    frames: &Frames,
    walk: &mut Walk,
    top: usize,
    size: u32,
    cursor: Cursor,
) -> Result<bool, OutOfMemory>
    requires frames { AreFrames frames.now }
    requires some { 1 ≤ top }
    requires within { top ≤ length frames.now.marks.items }
    ensures back { IfOk result (IsBack plan.now walk.old walk.new) }
    ensures listed { (book : List (List (Rule ℕ))) (cost : ℕ → ℕ) (room : ℕ) (f : Frame)
        → stack_of frames.now top ≡ f ∷ [] → f.left ≡ 0
        → let IsListed = IsDueOn book cost plan.now.guide.start (f ∷ []) size room cursor.entry in
        IfOk result (Lists IsListed walk.old walk.new) }
{
    let places = places_on(frames.marks.as_slice(), frames.places.as_slice(), top);
    if size == 0 && cursor.passed && is_complete(places, plan.guide.start) {
        walk.codes.push(walk.code.as_slice())?;
    }
    Ok(walk.codes.len() <= plan.take as usize)
}

/// Lists the codes of what is awaited by a stack, and says whether to go on.
#[cycle(stroll)]
fn go_on<'a>(
    plan: &Plan<'_, 'a>,
    frames: &mut Frames<'a>,
    ahead: &mut Ahead,
    walk: &mut Walk,
    top: usize,
    size: u32,
    spare: u32,
    cursor: Cursor,
) -> Result<bool, OutOfMemory>
    requires frames { AreFrames frames.old }
    requires columns { AreLevelColumns ahead.old.levels }
    requires within { top ≤ length frames.old.marks.items }
    requires top { length ahead.old.levels.stacks.items ≡ top + 1 }
    requires few { length walk.old.codes ≤ plan.now.take }
    ensures frames { OnOk result (AreSameFrames frames.old frames.new) }
    ensures levels { OnOk result (AreSameLevels ahead.old.levels ahead.new.levels) }
    ensures offers { OnOk result (ahead.new.offers.items ≡ ahead.old.offers.items) }
    ensures back { IfOk result (IsBack plan.now walk.old walk.new) }
    ensures listed { (book : List (List (Rule ℕ))) (most : ℕ) → let cost = cost_of plan.now.costs.now in
        let stack = stack_of frames.old top in
        IsGuide book cost plan.now.guide → AreAimed book plan.now.guide frames.old ahead.old.levels
        → IsAimed book plan.now.guide frames.old ahead.old.levels top most → spare ≤ most → AreAsking stack
        → let room = spare + await_count stack in
        let IsListed = IsDueOn book cost plan.now.guide.start stack size room cursor.entry in
        IfOk result (Lists IsListed walk.old walk.new) }
{
    let first = ahead.offers.len();
    gather(
        plan.guide,
        &ahead.levels,
        top,
        size,
        spare,
        &mut ahead.offers,
    )?;
    for index in first..ahead.offers.len() {
        let opening = ahead.offers[index];
        if !open_on(plan, frames, ahead, walk, top, size, spare, opening, cursor)? {
            ahead.offers.truncate(first);
            return Ok(false);
        }
    }
    ahead.offers.truncate(first);
    Ok(true)
}

/// The same, for those codes alone that have this opening.
#[cycle(stroll)]
fn open_on<'a>(
    plan: &Plan<'_, 'a>,
    frames: &mut Frames<'a>,
    ahead: &mut Ahead,
    walk: &mut Walk,
    top: usize,
    size: u32,
    spare: u32,
    opening: Opening,
    cursor: Cursor,
) -> Result<bool, OutOfMemory>
    requires frames { AreFrames frames.old }
    requires columns { AreLevelColumns ahead.old.levels }
    requires within { top ≤ length frames.old.marks.items }
    requires top { length ahead.old.levels.stacks.items ≡ top + 1 }
    requires few { length walk.old.codes ≤ plan.now.take }
    ensures frames { OnOk result (AreSameFrames frames.old frames.new) }
    ensures levels { OnOk result (AreSameLevels ahead.old.levels ahead.new.levels) }
    ensures offers { OnOk result (ahead.new.offers.items ≡ ahead.old.offers.items) }
    ensures back { IfOk result (IsBack plan.now walk.old walk.new) }
    ensures listed { (book : List (List (Rule ℕ))) (most : ℕ) → let cost = cost_of plan.now.costs.now in
        let stack = stack_of frames.old top in
        IsGuide book cost plan.now.guide → AreAimed book plan.now.guide frames.old ahead.old.levels
        → IsAimed book plan.now.guide frames.old ahead.old.levels top most → spare ≤ most → AreAsking stack
        → let room = spare + await_count stack in
        let IsListed = IsDueOn book cost plan.now.guide.start stack size room cursor.entry in
        IfOk result (Lists (BeginsWith IsListed opening) walk.old walk.new) }
{
    let cost = cost_at(plan.costs, opening.component);
    if size < cost || spare < opening.count {
        return Ok(true);
    }
    let Some(next) = cursor.step(opening.component, opening.count) else {
        return Ok(true);
    };
    let marks = frames.marks.len();
    let places = frames.places.len();
    let length = walk.code.len();
    let begun = begin(plan.guide, frames, &ahead.levels, top, opening, size)?;
    let now = settle(plan.guide.rules, frames, begun)?;
    walk.code.push(opening.component)?;
    walk.code.push(opening.count)?;
    let left = size - cost;
    let spare = spare - opening.count;
    let going = descend(plan, frames, ahead, walk, now, left, spare, next)?;
    walk.code.truncate(length);
    frames.places.truncate(places);
    frames.marks.truncate(marks);
    Ok(going)
}

/// Lists the codes of what is awaited by a stack whose levels aren't known yet, or the code so far, if nothing is
/// awaited.
#[cycle(stroll)]
fn descend<'a>(
    plan: &Plan<'_, 'a>,
    frames: &mut Frames<'a>,
    ahead: &mut Ahead,
    walk: &mut Walk,
    top: usize,
    size: u32,
    spare: u32,
    cursor: Cursor,
) -> Result<bool, OutOfMemory>
    requires frames { AreFrames frames.old }
    requires columns { AreLevelColumns ahead.old.levels }
    requires some { 1 ≤ top }
    requires within { top ≤ length frames.old.marks.items }
    requires top { length ahead.old.levels.stacks.items ≤ top }
    requires few { length walk.old.codes ≤ plan.now.take }
    ensures frames { OnOk result (AreSameFrames frames.old frames.new) }
    ensures levels { OnOk result (AreSameLevels ahead.old.levels ahead.new.levels) }
    ensures offers { OnOk result (ahead.new.offers.items ≡ ahead.old.offers.items) }
    ensures back { IfOk result (IsBack plan.now walk.old walk.new) }
    ensures listed { (book : List (List (Rule ℕ))) → let cost = cost_of plan.now.costs.now in
        let stack = stack_of frames.old top in
        IsGuide book cost plan.now.guide → AreAimed book plan.now.guide frames.old ahead.old.levels → IsSettled stack
        → let room = spare + await_count stack in
        let IsListed = IsDueOn book cost plan.now.guide.start stack size room cursor.entry in
        IfOk result (Lists IsListed walk.old walk.new) }
{
    let mark = frames.marks[top - 1];
    if mark.left == 0 {
        return emit(plan, frames, walk, top, size, cursor);
    }
    let reach = ahead.levels.reach();
    let places = places_on(frames.marks.as_slice(), frames.places.as_slice(), top);
    aim_on(plan.guide, &mut ahead.levels, places, mark, top, spare)?;
    let going = go_on(plan, frames, ahead, walk, top, size, spare, cursor)?;
    ahead.levels.cut(reach);
    Ok(going)
}

/// Lists the codes of terms of the guide's start that have this size, and says whether to go on.
pub(crate) fn stroll(
    alloc: Global,
    plan: &Plan,
    walk: &mut Walk,
    size: u32,
    cursor: Cursor,
) -> Result<bool, OutOfMemory>
    requires few { length walk.old.codes ≤ plan.now.take }
    ensures back { IfOk result (IsBack plan.now walk.old walk.new) }
    ensures listed { (book : List (List (Rule ℕ))) → let cost = cost_of plan.now.costs.now in
        IsGuide book cost plan.now.guide
        → let IsListed = IsDueOn book cost plan.now.guide.start [] size max_term_length cursor.entry in
        IfOk result (Lists IsListed walk.old walk.new) }
{
    let mut frames = Frames::new(alloc);
    let mut ahead = Ahead::new(alloc);
    aim_start(plan.guide, &mut ahead.levels, 63)?;
    go_on(plan, &mut frames, &mut ahead, walk, 0, size, 63, cursor)
}
