/// A rule of a book that applies one argument at a time.
#[derive(Clone, Copy)]
pub(crate) enum Step {
    /// The component alone.
    Component(u32),
    /// Any term of the left node, applied to any of the right one.
    Application { left: u32, right: u32 },
}
