//! What the segments of a template add up to.
ghost use Rattle.std.specs.Prelude.{◌≡◌, ◌+◌, ◌-◌, ◌≤◌, max, [], length, slice_set, slice_index_or};
ghost use Rattle.cls_base.specs.Limits.{max_hole};
ghost use Rattle.cls_assemble.specs.Lengths.{capped_length};
ghost use Rattle.cls_assemble.specs.Counts.{AreCounted, products};

use crate::capped::{add_capped, mul_capped};
use cls_base::limits::MAX_HOLE;

/// The bytes of the texts of a template's segments, how often each hole stands among them, and the greatest number of a
/// hole, which is 0 if there is none. Sums over the limit of a text count as one more than it.
#[derive(Drop)]
pub(crate) struct Counts {
    pub(crate) bytes: usize,
    pub(crate) holes: [usize; 16],
    pub(crate) greatest: usize,
}

impl Counts {
    pub(crate) fn new() -> Counts
        ensures { AreCounted result [] }
    {
        Counts {
            bytes: 0,
            holes: [0; MAX_HOLE as usize],
            greatest: 0,
        }
    }

    /// Counts a segment: so many bytes, and the hole with this number.
    pub(crate) fn add(&mut self, bytes: usize, number: u8)
        requires least { 1 ≤ number }
        requires most { number ≤ max_hole }
        ensures bytes { self.new.bytes ≡ capped_length (self.old.bytes + bytes) }
        ensures holes { self.new.holes ≡ slice_set self.old.holes (number - 1)
            (capped_length (slice_index_or self.old.holes (number - 1) 0 + 1)) }
        ensures greatest { self.new.greatest ≡ max self.old.greatest number }
    {
        let index = usize::from(number) - 1;
        self.bytes = add_capped(self.bytes, bytes);
        self.holes[index] = add_capped(self.holes[index], 1);
        self.greatest = self.greatest.max(usize::from(number));
    }

    /// The number of bytes that the segments make if the holes get texts of these lengths, in one step for each hole.
    pub(crate) fn length(&self, lengths: &[usize; 16]) -> usize
        ensures { result
            ≡ capped_length (self.now.bytes + products lengths.now self.now.holes (length lengths.now)) }
    {
        let mut total = 0;
        for i in 0..lengths.len() {
            total = add_capped(total, mul_capped(lengths[i], self.holes[i]));
        }
        add_capped(self.bytes, total)
    }
}
