//! Sums and products of lengths, which stop at one more than the limit of a text.
ghost use Rattle.std.specs.Prelude.{◌≡◌, ◌+◌, ◌*◌};
ghost use Rattle.cls_assemble.specs.Lengths.{capped_length};

use cls_base::limits::MAX_TEXT_BYTES;

/// What a length over the limit counts as.
const TOO_LONG: usize = MAX_TEXT_BYTES + 1;

pub(crate) fn add_capped(a: usize, b: usize) -> usize
    ensures { result ≡ capped_length (a + b) }
{
    a.saturating_add(b).min(TOO_LONG)
}

pub(crate) fn mul_capped(a: usize, b: usize) -> usize
    ensures { result ≡ capped_length (a * b) }
{
    a.saturating_mul(b).min(TOO_LONG)
}
