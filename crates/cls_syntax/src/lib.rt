//! What lines and texts say: types, terms, and forms of lines, with the exact place of each fault.
//!
//! - From a slice of tokens a line form is read from the left by [`word_at`], [`name_at`], [`number_at`], [`numbers_at`],
//!   [`sign_at`], [`type_at`], [`types_at`], [`term_at`] and [`end_at`]. Each answers what stands there and what follows, or the
//!   [`Stop`]: the first token that can't follow.
//! - What spells a type is recognised with no memory, as [`SpelledType`]; [`SpelledType::schema`], [`SpelledType::ty`] and
//!   [`SpelledType::measured_ty`] build it, with a stack of their own, and [`SpelledTypes::types`] builds each of a list.
//!   [`read_measured_type`] builds over tokens that may spell a type. A [`MeasuredTy`] is a closed type with its measures.
//! - [`read_schema`] and [`read_type`] read a text that is one type, and [`print_type`] prints a type, [`write_type`] at the
//!   end of a text.
//! - [`laws`] holds what is true of every form of line and of every type.
//!
//! Inside, `type_shape` and `term_shape` recognise a type or a term in one pass with no memory, as state machines that
//! count parentheses. `schema_builder` builds a type that was recognised, by operator precedence (the shunting yard of
//! Dijkstra, 1961) over the stack of `waiting_stack`, and `tree` has the trees that it builds: schemas, or the closed
//! types of `measured`, which know their measures. `type_builder` builds closed types, also over tokens that may spell
//! none, and `type_list` those with bars between them. `interning` numbers the names of what is built, and `depth` counts
//! open parentheses.
//!
//! In `specs/`, `Forms` has the forms of lines and their parts, `Roles` which names may stand where, `LineReading` and
//! `LineGrammars` how a line is read, and `Faults` what the place of a fault is. A line of an own form is a constant of
//! type `Form` in the specs of the crate that knows it, and a short function over the cursor; `Reads` is its contract.
#![tactic(auto)]

mod cursor;
mod depth;
mod interning;
pub mod laws;
mod measured;
mod numeral_list;
mod print;
mod read;
mod role;
mod schema_builder;
mod sort;
mod spelled_term;
mod spelled_type;
mod spelled_types;
mod stop;
mod syntax_fault;
mod term_shape;
mod tree;
mod type_builder;
mod type_list;
mod type_shape;
mod waiting_stack;
mod word_list;

pub use cursor::{end_at, name_at, number_at, sign_at, term_at, type_at, types_at, word_at};
pub use depth::is_too_deep;
pub use measured::MeasuredTy;
pub use numeral_list::NumeralList;
pub use print::{print_type, write_type};
pub use read::{first_variable, read_schema, read_type};
pub use role::Role;
pub use sort::is_name;
pub use spelled_term::SpelledTerm;
pub use spelled_type::SpelledType;
pub use spelled_types::SpelledTypes;
pub use stop::Stop;
pub use syntax_fault::SyntaxFault;
pub use type_builder::read_measured_type;
pub use word_list::{names_at, numbers_at};
