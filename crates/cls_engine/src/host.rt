use std::alloc::Global;

/// What is lent to a call that works out a query: the runtime, by which threads start and wait, the allocator, and the
/// gate that is told of each claim.
pub struct Host<'r, R, G> {
    pub rt: &'r R,
    pub alloc: Global,
    pub gate: &'r G,
}

// Not derived: a derive would ask that the runtime and the gate can be dropped.
impl<R, G> Drop for Host<'_, R, G> {
    fn drop(self) {
        let Host {
            rt: _,
            alloc: _,
            gate: _,
        } = self;
    }
}
