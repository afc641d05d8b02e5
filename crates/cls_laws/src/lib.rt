//! That each line has exactly one reply, and each run one output, as laws: the definitions leave no case out, and leave room
//! for one text alone, but for the replies to audits.
//!
//! - [`laws`] holds the laws. Those on existence say of what exists that it isn't impossible, and name no way of finding it.
//!   Two say which replies there are: that to a certificate which was printed and is fed back, and those after lines that
//!   change the repository.
//!
//! `specs/Possible` says what existence means here, and `specs/Existence` has the statements on it. `specs/Alike` says what may
//! differ between two runs over the same lines, and `specs/Uniqueness` has the statements that nothing else does.
//! `specs/FedBack` has the law on certificates, and `specs/Live` the one on lines that change the repository.
#![tactic(auto)]

pub mod laws;
