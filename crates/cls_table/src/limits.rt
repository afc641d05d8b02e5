/// How much of a closure is worked on.
#[derive(Drop, Clone, Copy, Debug)]
pub struct Limits {
    /// The greatest number of goals.
    pub goals: u32,
    /// The greatest number of rules of the goals together.
    pub rules: u32,
}
