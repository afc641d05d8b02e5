//! Frames: terms that are begun, each on an earlier frame or on none.
ghost use Rattle.std.specs.Prelude.{◌≡◌, ℕ, ◌+◌, ◌-◌, ◌≤◌, ◌<◌, [], ◌∷◌, ◌++◌, ◌⊎◌, IfOk, IfSome, OnOk};
ghost use Rattle.std.specs.Prelude.{List, length, map, drop, slice_index_or, take};
ghost use Rattle.std.specs.Option.{IsNone};
ghost use Rattle.cls_base.specs.declared.rule.Rule.{Rule};
ghost use Rattle.cls_walk.specs.FrameColumns.{place_of, AreRules};
ghost use Rattle.cls_walk.specs.FrameHeaps.{frame_of, mark_of, no_mark, places_at, stack_of, standings_of};
ghost use Rattle.cls_walk.specs.FrameHeaps.{AreFrames, AreGrown, AreKept, Advances, Settled};
ghost use Rattle.cls_walk.specs.FrameStacks.{AreMarks};
ghost use Rattle.cls_walk.specs.Frames.{Place as SeenPlace};

use crate::places::{Place, advance};
use crate::rules::Rules;
use cls_base::OutOfMemory;
use std::alloc::Global;

/// The stack below a frame, how many of its arguments are to come, and where its places end, which begin where those of
/// the frame before end.
#[derive(Clone, Copy)]
pub(crate) struct Mark {
    pub(crate) below: usize,
    pub(crate) left: u32,
    pub(crate) last: usize,
}

/// The frames, with their places in one column, and room for those that are being made. Stack 0 is empty, and stack
/// i + 1 has frame i on top.
#[derive(Drop)]
pub(crate) struct Frames<'a> {
    pub(crate) marks: Vec<Mark>,
    pub(crate) places: Vec<Place<'a>>,
    pub(crate) made: Vec<Place<'a>>,
}

impl<'a> Frames<'a> {
    /// None.
    pub(crate) fn new(alloc: Global) -> Frames<'a>
        ensures marks { result.marks.items ≡ [] }
        ensures places { result.places.items ≡ [] }
    {
        Frames {
            marks: Vec::new(alloc),
            places: Vec::new(alloc),
            made: Vec::new(alloc),
        }
    }

    /// The frame of the places that are made, on this stack, with so many arguments to come. Gives its stack.
    pub(crate) fn close(&mut self, below: usize, left: u32) -> Result<usize, OutOfMemory>
        requires frames { AreFrames self.old }
        requires below { below ≤ length self.old.marks.items }
        ensures frames { OnOk result (AreFrames self.new) }
        ensures grown { OnOk result (AreGrown self.old self.new) }
        ensures standings { OnOk result (standings_of self.new
            ≡ standings_of self.old ++ frame_of (map place_of self.old.made.items) left below ∷ []) }
        ensures count { OnOk result (length self.new.marks.items ≡ length self.old.marks.items + 1) }
        ensures mark { let marks = self.new.marks.items in
            let mark = slice_index_or marks (length self.old.marks.items) no_mark in
            OnOk result ((mark.below ≡ below) × (mark.left ≡ left)) }
        ensures top { IfOk result (λ t. t ≡ length self.old.marks.items + 1) }
    {
        self.places.extend_from_slice(self.made.as_slice())?;
        self.marks.push(Mark {
            below,
            left,
            last: self.places.len(),
        })?;
        Ok(self.marks.len())
    }
}

/// Where the places of the frame on top of a stack begin.
fn start_of(marks: &[Mark], top: usize) -> usize
    requires some { 1 ≤ top }
    requires within { top ≤ length marks.now }
    ensures bounds { let last = (slice_index_or marks.now (top - 1) no_mark).last in
        (end : ℕ) → AreMarks 0 end (map mark_of marks.now) → (result ≤ last) × (last ≤ end) }
    ensures places { let last = (slice_index_or marks.now (top - 1) no_mark).last in
        (ps : List SeenPlace) → places_at ps 0 (map mark_of marks.now) (top - 1)
        ≡ take (last - result) (drop result ps) }
{
    if top < 2 {
        return 0;
    }
    marks[top - 2].last
}

/// The places of the frame on top of a stack.
pub(crate) fn places_on<'p, 'a>(
    marks: &[Mark],
    places: &'p [Place<'a>],
    top: usize,
) -> &'p [Place<'a>]
    requires some { 1 ≤ top }
    requires within { top ≤ length marks.now }
    requires marks { AreMarks 0 (length places.now) (map mark_of marks.now) }
    ensures { map place_of result.now ≡ places_at (map place_of places.now) 0 (map mark_of marks.now) (top - 1) }
{
    let first = start_of(marks, top);
    &places[first..marks[top - 1].last]
}

/// The frame below with one argument less, where a term of the frame on top has ended. Gives its stack.
fn end_argument<'a>(
    rules: &Rules,
    frames: &mut Frames<'a>,
    top: usize,
    below: usize,
) -> Result<usize, OutOfMemory>
    requires frames { AreFrames frames.old }
    requires some { 1 ≤ top }
    requires within { top ≤ length frames.old.marks.items }
    requires below { 1 ≤ below }
    requires under { below ≤ length frames.old.marks.items }
    ensures frames { OnOk result (AreFrames frames.new) }
    ensures kept { IfOk result (λ t. AreKept frames.old frames.new below t) }
    ensures advanced { (book : List (List (Rule ℕ))) → AreRules book rules.now
        → IfOk result (λ t. Advances book frames.old frames.new top below t) }
{
    let mark = frames.marks[below - 1];
    let marks = frames.marks.as_slice();
    let places = frames.places.as_slice();
    frames.made.clear();
    advance(
        rules,
        places_on(marks, places, top),
        places_on(marks, places, below),
        &mut frames.made,
    )?;
    frames.close(mark.below, mark.left.saturating_sub(1))
}

/// The stack below the frame on top, where the frame is whole and stands on another. None: it isn't, or stands on none.
fn ended(marks: &[Mark], top: usize) -> Option<usize>
    requires some { 1 ≤ top }
    requires within { top ≤ length marks.now }
    ensures some { let mark = slice_index_or marks.now (top - 1) no_mark in
        IfSome result (λ below. (1 ≤ below) × (below ≡ mark.below) × (mark.left ≡ 0)) }
    ensures none { let mark = slice_index_or marks.now (top - 1) no_mark in
        IsNone result → (1 ≤ mark.left) ⊎ (mark.below ≡ 0) }
{
    let mark = marks[top - 1];
    if mark.left > 0 || mark.below == 0 {
        return None;
    }
    Some(mark.below)
}

/// Ends arguments from a stack on, until one is to come or the outermost frame is whole.
pub(crate) fn settle<'a>(
    rules: &Rules,
    frames: &mut Frames<'a>,
    top: usize,
) -> Result<usize, OutOfMemory>
    requires frames { AreFrames frames.old }
    requires some { 1 ≤ top }
    requires within { top ≤ length frames.old.marks.items }
    ensures settled { IfOk result (λ t. Settled rules.now frames.old frames.new top t) }
{
    let mut now = top;
    while let Some(below) = ended(frames.marks.as_slice(), now) {
        now = end_argument(rules, frames, now, below)?;
    }
    Ok(now)
}
