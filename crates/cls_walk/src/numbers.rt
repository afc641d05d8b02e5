ghost use Rattle.std.specs.Prelude.{◌≡◌, ◌+◌, ◌*◌, max, slice_index};
ghost use Rattle.cls_term.specs.Costs.{cost_of};
ghost use Rattle.cls_walk.specs.Tables.{capped};

use cls_base::Numbers;

/// The sum, or the greatest number where it is greater.
pub(crate) fn plus(a: u64, b: u64) -> u64
    ensures { result ≡ capped (a + b) }
{
    a.saturating_add(b)
}

/// The product, or the greatest number where it is greater.
pub(crate) fn times(a: u64, b: u64) -> u64
    ensures { result ≡ capped (a * b) }
{
    a.saturating_mul(b)
}

/// The greater of the two.
pub(crate) fn greater(a: u64, b: u64) -> u64
    ensures { result ≡ max a b }
{
    if a < b { b } else { a }
}

/// The component's cost in the list, and 1 where it has none there.
pub(crate) fn cost_at(costs: &Numbers, component: u32) -> u32
    ensures { result ≡ cost_of costs.now component }
{
    costs
        .as_slice()
        .get(component as usize)
        .copied()
        .unwrap_or(1)
}

/// The number at the place, 0 past the last one.
pub(crate) fn number_in(numbers: &[u64], place: usize) -> u64
    ensures { result ≡ slice_index numbers.now place }
{
    numbers.get(place).copied().unwrap_or(0)
}
