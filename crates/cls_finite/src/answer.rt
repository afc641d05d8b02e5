use crate::walk::Walk;

/// How large the terms of a goal are.
#[derive(Drop)]
pub enum FiniteAnswer {
    /// The greatest size of a term, or 0 if there is none.
    Finite(u64),
    /// There is a greatest size, and it is over `MAX_FINITE_SIZE`.
    Over,
    /// The sizes have no bound. The walk shows it.
    Infinite(Walk),
}
