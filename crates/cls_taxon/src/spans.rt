//! Sets of numbers as sorted lists of intervals, here called spans.
ghost use Rattle.std.specs.Prelude.{◌≡◌, ℕ, ◌-◌, ◌^◌, ◌<◌, ◌↔◌, All, IsTrue, IfOk};
ghost use Rattle.cls_taxon.specs.Spans.{HaveOne, InSpans, IsSpan, IsRising, start_of};

use cls_base::OutOfMemory;
use smallvec::SmallVec;
use std::alloc::Global;
use std::marker::Model;

/// The numbers from `start` up to `end`, without `end` itself.
#[derive(Clone, Copy, Debug, Default, PartialEq, Eq)]
pub struct Span {
    pub start: usize,
    pub end: usize,
}

/// A set of numbers, seen as spans in order. Mostly there is one.
#[derive(Drop)]
pub struct Spans {
    items: SmallVec<Span, 1>,
}

impl Model for Spans {
    ghost use Rattle.std.specs.Prelude.{List};
    ghost use Rattle.cls_taxon.specs.declared.spans.Span.{Span};
    ghost use Rattle.cls_taxon.specs.Spans.{IsRising};

    ghost Value = { List Span };

    ghost view = { λ s. s.items.items };

    ghost invariant = { λ s. IsRising s.items.items };
}

impl Spans {
    /// The set of the numbers that lie in one of the spans. Those that meet become one span.
    pub fn new(alloc: Global, mut spans: Vec<Span>) -> Result<Spans, OutOfMemory>
        requires { All IsSpan spans.items }
        ensures { IfOk result (λ s. (n : ℕ) → InSpans s n ↔ InSpans spans.items n) }
    {
        spans.sort_unstable_by_key(|span| span.start);
        let start = first_start(&spans);
        let mut last = Span { start, end: start };
        let mut items = SmallVec::new(alloc);
        for span in spans.as_slice() {
            if span.start <= last.end {
                last.end = last.end.max(span.end);
            } else {
                items.push(last)?;
                last = *span;
            }
        }
        items.push(last)?;
        Ok(Spans { items })
    }

    /// The set of this number alone.
    pub fn one(alloc: Global, number: usize) -> Result<Spans, OutOfMemory>
        requires { number < 2 ^ 64 - 1 }
        ensures { IfOk result (λ s. (n : ℕ) → InSpans s n ↔ (number ≡ n)) }
    {
        let mut items = SmallVec::new(alloc);
        items.push(Span {
            start: number,
            end: number + 1,
        })?;
        Ok(Spans { items })
    }

    /// A set equal to this one.
    pub fn copy(&self, alloc: Global) -> Result<Spans, OutOfMemory>
        ensures { IfOk result (λ copy. copy ≡ self.now) }
    {
        let items = SmallVec::from_slice(alloc, self.as_slice())?;
        Ok(Spans { items })
    }

    /// Whether the number is one of the set.
    pub fn contains(&self, number: usize) -> bool
        ensures { IsTrue result ↔ InSpans self.now number }
    {
        is_in_spans(self.as_slice(), number)
    }

    /// Whether no two numbers are in the set. It may be no where one number is in several spans.
    pub fn is_one(&self) -> bool
        ensures { IsTrue result → HaveOne self.now }
    {
        have_one(self.as_slice())
    }

    /// The spans.
    pub fn as_slice(&self) -> &[Span]
        ensures items { result.now ≡ self.now }
        ensures rising { IsRising self.now }
    {
        self.items.as_slice()
    }
}

/// Whether the number lies in one of the spans, which rise.
fn is_in_spans(spans: &[Span], number: usize) -> bool
    requires { IsRising spans.now }
    ensures { IsTrue result ↔ InSpans spans.now number }
{
    let place = spans.partition_point(|span| span.end <= number);
    match spans.get(place) {
        Some(span) => span.start <= number,
        None => false,
    }
}

/// Whether no two numbers lie in the spans. It may be no where one number lies in several.
fn have_one(spans: &[Span]) -> bool
    ensures { IsTrue result → HaveOne spans.now }
{
    if spans.len() != 1 {
        return false;
    }
    match spans.get(0) {
        Some(span) => span.end.saturating_sub(1) <= span.start,
        None => false,
    }
}

/// Where the first span starts.
fn first_start(spans: &[Span]) -> usize
    ensures { result ≡ start_of spans.now }
{
    match spans.first() {
        Some(span) => span.start,
        None => 0,
    }
}
