use cls_base::Goals;

/// What an expander with asked goals means, as plain data. No value of it is made.
pub struct AskTag<B, G> {
    /// What the expander means.
    pub by: B,
    /// The goals that are asked.
    pub goals: Goals<G>,
}
