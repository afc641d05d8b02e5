//! Pages: the next terms of the start of a rule book, each once, in order.
//!
//! - [`page`] gives a [`Page`] of the terms of any rule book after any term, or says that more terms would have to be
//!   held than are allowed.
//! - [`laws`] says that each request has its page, and a size that decides it.
//!
//! The algorithm is a bottom-up enumeration by size with hash-consing. Terms are made size after size, those of the
//! start first. The terms of one size of a node are found as spines over the numbers of a bank of terms, then put
//! into the bank, which has each term once, and sorted by their codes. A lower bound on the length prunes what leads
//! to no term that is short enough.
//!
//! Inside, `plan` has the rules with their costs, `find` and `fill` find the spines over a bank that doesn't change
//! meanwhile, `make` puts them into the bank and sorts them by code, `due` compares with the cursor, `bounds` cuts off
//! what leads to no term that is short enough, and `paging` goes from size to size. What travels together is in
//! `page_request`; `enumeration`, the terms that are made so far, with the step that makes those of one node and size;
//! `held`, the bank and the `cells` while terms are found; and `partial_term`, a head with the arguments that it has so
//! far.
#![tactic(auto)]

mod bounds;
mod cells;
mod due;
mod enumeration;
mod fault;
mod fill;
mod find;
mod held;
pub mod laws;
mod listed;
mod make;
mod page_request;
mod paging;
mod partial_term;
mod plan;

pub use fault::PageFault;
pub use listed::Page;
pub use paging::page;
