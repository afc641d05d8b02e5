//! Aims: of which nodes the next argument can be, each with a size that what is awaited behind it can come to. They are
//! kept by levels: level q has the nodes from which an aim is reached by q pairs.
ghost use Rattle.std.specs.Prelude.{◌≡◌, ℕ, ◌-◌, ◌<◌, ◌≤◌, [], length, map, take, drop, slice_index, slice_index_or};
ghost use Rattle.cls_walk.specs.FrameBegins.{aim_of};
ghost use Rattle.cls_walk.specs.FrameLevels.{all_levels, cut_start, cuts, levels_of, AreCuts, AreLevelColumns};

use std::alloc::Global;

/// A node, and the least that is awaited behind it.
#[derive(Clone, Copy)]
pub(crate) struct Aim {
    pub(crate) node: u32,
    pub(crate) behind: u64,
}

/// From a place to below another.
#[derive(Clone, Copy)]
pub(crate) struct Span {
    pub(crate) first: usize,
    pub(crate) end: usize,
}

/// The levels of the stacks: the aims in one column, where each level ends in it, and where the levels of each stack
/// end among all levels. `made` has the aims of a level that is being made.
#[derive(Drop)]
pub(crate) struct Levels {
    pub(crate) aims: Vec<Aim>,
    pub(crate) made: Vec<Aim>,
    pub(crate) ends: Vec<usize>,
    pub(crate) stacks: Vec<usize>,
}

/// How long the columns of levels are.
#[derive(Clone, Copy)]
pub(crate) struct Reach {
    pub(crate) aims: usize,
    pub(crate) ends: usize,
    pub(crate) stacks: usize,
}

/// Where a part of a column stands, where the parts end at these places.
fn span_at(ends: &[usize], place: usize) -> Span
    requires { place < length ends.now }
    ensures first { result.first ≡ cut_start ends.now place }
    ensures end { result.end ≡ slice_index ends.now place }
    ensures bounds { (end : ℕ) → AreCuts 0 end ends.now → (result.first ≤ result.end) × (result.end ≤ end) }
{
    if place == 0 {
        return Span {
            first: 0,
            end: ends[0],
        };
    }
    Span {
        first: ends[place - 1],
        end: ends[place],
    }
}

/// The aims of one of all levels, where the levels end at these places.
pub(crate) fn part<'a>(aims: &'a [Aim], ends: &[usize], place: usize) -> &'a [Aim]
    requires cuts { AreCuts 0 (length aims.now) ends.now }
    requires within { place < length ends.now }
    ensures { map aim_of result.now ≡ slice_index_or (cuts (map aim_of aims.now) 0 ends.now) place [] }
{
    let span = span_at(ends, place);
    &aims[span.first..span.end]
}

impl Levels {
    /// None.
    pub(crate) fn new(alloc: Global) -> Levels
        ensures columns { AreLevelColumns result }
        ensures none { result.stacks.items ≡ [] }
    {
        Levels {
            aims: Vec::new(alloc),
            made: Vec::new(alloc),
            ends: Vec::new(alloc),
            stacks: Vec::new(alloc),
        }
    }

    /// The levels of a stack, as a span of all levels.
    fn span(&self, stack: usize) -> Span
        requires columns { AreLevelColumns self.now }
        ensures rises { result.first ≤ result.end }
        ensures within { result.end ≤ length self.now.ends.items }
        ensures levels { slice_index_or (cuts (all_levels self.now) 0 self.now.stacks.items) stack []
            ≡ take (result.end - result.first) (drop result.first (all_levels self.now)) }
    {
        if stack >= self.stacks.len() {
            return Span { first: 0, end: 0 };
        }
        span_at(self.stacks.as_slice(), stack)
    }

    /// How many levels of a stack are kept. Further ones have no aims.
    pub(crate) fn height(&self, stack: usize) -> usize
        requires columns { AreLevelColumns self.now }
        ensures { (q : ℕ) → result ≤ q → levels_of self.now stack q ≡ [] }
    {
        let span = self.span(stack);
        span.end - span.first
    }

    /// The aims of a level of a stack.
    pub(crate) fn level(&self, stack: usize, pairs: usize) -> &[Aim]
        requires columns { AreLevelColumns self.now }
        ensures { map aim_of result.now ≡ levels_of self.now stack pairs }
    {
        let span = self.span(stack);
        if pairs >= span.end - span.first {
            return &[];
        }
        part(
            self.aims.as_slice(),
            self.ends.as_slice(),
            span.first + pairs,
        )
    }

    /// How long the columns are.
    pub(crate) fn reach(&self) -> Reach
        ensures aims { result.aims ≡ length self.now.aims.items }
        ensures ends { result.ends ≡ length self.now.ends.items }
        ensures stacks { result.stacks ≡ length self.now.stacks.items }
    {
        Reach {
            aims: self.aims.len(),
            ends: self.ends.len(),
            stacks: self.stacks.len(),
        }
    }

    /// Takes away what is behind.
    pub(crate) fn cut(&mut self, reach: Reach)
        ensures aims { self.new.aims.items ≡ take reach.aims self.old.aims.items }
        ensures ends { self.new.ends.items ≡ take reach.ends self.old.ends.items }
        ensures stacks { self.new.stacks.items ≡ take reach.stacks self.old.stacks.items }
    {
        self.aims.truncate(reach.aims);
        self.ends.truncate(reach.ends);
        self.stacks.truncate(reach.stacks);
    }
}
