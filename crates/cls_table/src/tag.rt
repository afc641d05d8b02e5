/// What a table means, as plain data. No value of it is made.
pub struct Tag<B, G> {
    /// What the expander means.
    pub by: B,
    /// The start goal.
    pub start: G,
    /// The greatest number of goals.
    pub goals: u32,
    /// The greatest number of rules.
    pub rules: u32,
    /// The greatest number of a worker.
    pub workers: u32,
}
