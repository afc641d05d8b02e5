use crate::flags::Flags;
use crate::rows::Row;
use cls_base::Numbers;

/// The families with their rows, and how many of them come before the next one: `flags` has the flags of these.
#[derive(Clone, Copy)]
pub(crate) struct Front<'a> {
    pub(crate) families: &'a [Numbers],
    pub(crate) rows: &'a [Row],
    pub(crate) flags: &'a Flags,
    pub(crate) count: usize,
}
