//! How codes begin.

/// A component and its number of arguments.
#[derive(Clone, Copy)]
pub(crate) struct Opening {
    pub(crate) component: u32,
    pub(crate) count: u32,
}
