//! Certificates: what is said for a type that some term has, and for one that no term has, so that it can be checked.
//!
//! - [`Certificate`] is a list of [`ProofRow`]s or of [`Members`]. A row says of its goal that some term has it, by the
//!   goals of rows before it. A member says of its goal that no term has it, and its blocks show why.
//! - [`write_row`], [`write_member`], [`write_block`] and [`write_set`] write lines of a certificate, and [`read_certificate`] reads
//!   them from [`HeldLines`].
//! - [`laws`] holds what is true of all lines.
//! - `specs/` defines certificates and their lines. What one must meet is defined where it is checked.
//!
//! Inside, `statement_form` reads a line by its form, `reading` gives what it means by the tables of names, and `draft`
//! is the state machine that takes statements one after another; `lines` keeps the lines in chunks of 64 KiB, and
//! `read` goes over them once and lets each `chunk` go behind its last line. `print` writes them. `row` keeps the rows
//! of a certificate in columns, so that one takes 28 bytes and 4 for each position. `member`, `block`, `layer` and
//! `sets` do the same for members: a column for each of the four, in which each entry tells where its part of the next
//! column begins, and a last one of positions. Only the last member grows. `positions` is a set of positions of arrows,
//! which takes no memory of its own where it has up to four, as nearly all have.
#![tactic(auto)]

mod block;
mod certificate;
mod chunk;
mod draft;
pub mod laws;
mod layer;
mod line_columns;
mod lines;
mod member;
mod parts;
mod positions;
mod print;
mod proof_fault;
mod read;
mod reading;
mod row;
mod sets;
mod statement;
mod statement_form;

pub use block::{BlockRef, BlocksRef};
pub use certificate::Certificate;
pub use layer::{Layers, LayersRef};
pub use lines::HeldLines;
pub use member::{MemberRef, Members};
pub use positions::Positions;
pub use print::{write_block, write_member, write_row, write_set};
pub use proof_fault::ProofFault;
pub use read::read_certificate;
pub use row::{ProofRow, ProofRows, RowRef};
pub use sets::{LayerRef, Sets};
