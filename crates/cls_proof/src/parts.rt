//! Parts of a column, one after another.
ghost use Rattle.std.specs.Prelude.{◌≡◌, ◌+◌, ◌<◌, length, drop};
ghost use Rattle.cls_proof.specs.Parts.{next_start, itself};

/// Where the part at a place ends: where the next one begins, or else at the end of the column.
pub(crate) fn end_of(starts: &[u32], i: usize, total: usize) -> usize
    requires { i < length starts.now }
    ensures { result ≡ next_start itself (drop (i + 1) starts.now) total }
{
    if i + 1 < starts.len() {
        starts[i + 1] as usize
    } else {
        total
    }
}
