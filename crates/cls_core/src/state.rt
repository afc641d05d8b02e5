use crate::node_answer::NodeAnswer;

/// How far the work on a row has come.
#[derive(Drop)]
pub enum RowState {
    /// Nobody works on it.
    Free,
    /// This worker does.
    Held(u32),
    /// The work is done. The goals of the answer are numbers of rows.
    Filed(NodeAnswer),
}
