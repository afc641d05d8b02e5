/// Is told of each claim that a worker makes. It has no effect on any answer, and lets a test watch or hold up workers.
pub trait Gate {
    /// Called by a worker right before it works on a goal that it has claimed. It may have claimed several at once. `nth` is
    /// the number of claims that were made before this one.
    fn at_claim(&self, worker: u32, nth: u64);
}

/// A gate that does nothing.
#[derive(Clone, Copy, Debug, PartialEq, Eq)]
pub struct OpenGate;

impl Gate for OpenGate {
    fn at_claim(&self, _worker: u32, _nth: u64) {}
}
