//! The ground that every other crate of clsynth stands on. A file has the type of its name, but for `measures`, which has the
//! measures of closed types, and `sure`, which has the source and the sink that never fail.
//!
//! - [`Ty`] is a closed type with its order and measures, [`Schema`] a type that may have variables, and [`Name`] the
//!   number of a name. What types, terms, subtyping, typing and pages mean is defined in `specs/`.
//! - [`Source`], [`Sink`] and [`Gate`] are the outside. [`MemorySource`] and [`MemorySink`] fail where a test wants it,
//!   [`SureSource`] and [`SureSink`] never do.
//! - [`Taxa`] is what the layers above ask of an order of names, [`Flat`] the order in which a name is below itself
//!   alone, and [`Key`] what serves as a key of a table.
//! - [`Rule`] is one way in which a goal can be met, with goals for arguments. [`Goals`] is a list of goals.
//! - [`RuleBook`] is what a listing of terms asks of a rule book. [`NodeRules`] are the rules of one node, in three flat columns:
//!   their heads, their arguments one after another, and where those of each rule end. [`RuleRef`] is one of them, and
//!   [`OmegaBook`] the rule book of omega, which every term meets; [`laws`] says what its language is.
//! - [`limits`] has the numbers that the language fixes.
//! - [`Numbers`] is a list of numbers, [`NumberLists`] a list of such lists, and [`start_of`] tells where one begins in its
//!   column. [`OutOfMemory`] is what a call answers that found no memory.
#![tactic(auto)]

mod gate;
mod key;
pub mod laws;
pub mod limits;
mod measures;
mod memory_sink;
mod memory_source;
mod node_rules;
mod number_lists;
mod numbers;
mod omega_book;
mod out_of_memory;
mod rule;
mod rule_book;
mod rule_ref;
mod schema;
mod sink;
mod source;
mod sure;
mod taxa;
mod ty;

pub use gate::{Gate, OpenGate};
pub use key::Key;
pub use memory_sink::MemorySink;
pub use memory_source::MemorySource;
pub use node_rules::NodeRules;
pub use number_lists::{NumberLists, start_of};
pub use numbers::Numbers;
pub use omega_book::OmegaBook;
pub use out_of_memory::OutOfMemory;
pub use rule::{Goals, Rule};
pub use rule_book::RuleBook;
pub use rule_ref::RuleRef;
pub use schema::Schema;
pub use sink::Sink;
pub use source::{Failed, Source};
pub use sure::{SureSink, SureSource};
pub use taxa::{Flat, Taxa, Variance};
pub use ty::{Name, Ty};
