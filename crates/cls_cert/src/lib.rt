//! Makes the certificate of a goal: of a grammar's goal 0, that some term has it, or that none has.
//!
//! - [`certify`] begins the certificate, and [`RowsLeft`] and [`MembersLeft`] write its lines. It has rows if goal 0 is productive,
//!   and members otherwise.
//! - `specs/` defines which certificate it is. [`laws`] says that it is the only one, and that it is accepted.
//!
//! Inside, `members`, `blocks` and `layers` make the members while they are written, with the help of `forced` for families of one
//! position each, and of `fronts` for others. `rows` and `choosing` make the rows, and `row_lines` writes them. `buckets` sorts
//! goals by rank. `named` has what lines are written with: a grammar with names.
#![tactic(auto)]

mod blocks;
mod buckets;
mod choosing;
mod forced;
mod fronts;
pub mod laws;
mod layers;
mod making;
mod members;
mod named;
mod row_lines;
mod rows;

pub use making::{CertificateLeft, certify};
pub use members::MembersLeft;
pub use row_lines::RowsLeft;
