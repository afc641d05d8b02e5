/// A piece of a template.
#[derive(Clone, Copy, Debug, PartialEq, Eq)]
pub enum Piece {
    /// A byte of the text.
    Byte(u8),
    /// The place of the argument with this number, where the first argument has number 1.
    Hole(u8),
}
