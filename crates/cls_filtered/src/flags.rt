ghost use Rattle.std.specs.Prelude.{◌≡◌, false, slice_index_or};
ghost use Rattle.cls_filtered.specs.Filtered.{pair_of};

use cls_base::limits::MAX_STATES;

/// The number of the pair of a node and a state.
pub(crate) fn pair_of(node: u32, state: u32) -> usize
    ensures { result ≡ pair_of node state }
{
    node as usize * MAX_STATES as usize + state as usize
}

/// Whether the flag at the place is true.
pub(crate) fn is_up(flags: &[bool], place: usize) -> bool
    ensures { result ≡ slice_index_or flags.now place false }
{
    flags.get(place).copied().unwrap_or(false)
}
