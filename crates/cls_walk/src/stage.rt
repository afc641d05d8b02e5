//! What the ways of making terms of one size are counted from.
ghost use Rattle.std.specs.Prelude.{◌<◌, ◌^◌};

use crate::table::Table;
use cls_base::Numbers;

/// A size, with the numbers of smaller terms by size and node, and the costs of the components.
#[derive(Clone, Copy)]
pub(crate) struct Stage<'a, 'b> {
    pub(crate) table: &'a Table,
    pub(crate) costs: &'b Numbers,
    pub(crate) size: u32,
    pub ghost small: { size < 2 ^ 31 },
}
