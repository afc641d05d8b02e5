//! Templates of components, and the texts of terms that they make.
//!
//! - [`Template`] is what stands for a component: bytes, and holes for its arguments. [`Template::read`] reads it from
//!   its text, or answers a [`TemplateFault`]. [`Template::of_name`] is for a component that is given no template.
//! - [`Templates`] is a list with one template for each component, by number.
//! - [`text_of`] makes the text of a term, or answers a [`TextFault`]. How long it is, is known before it is made.
//! - [`laws`] says that a text is read in one way, and how long a filled template is.
//!
//! A term is gone down by calls that nest as deep as the term.
//!
//! Inside, `scan` finds the piece that a text begins with, and `template` reads a text piece by piece. `counts` has how
//! often each hole stands in a template, by which `length` tells how long the text of a term is, with the sums of
//! `capped`. `text` writes it, each argument once: where a hole has it again it is copied.
#![tactic(auto)]

mod capped;
mod counts;
mod fault;
pub mod laws;
mod length;
mod piece;
mod scan;
mod template;
mod templates;
mod text;

pub use fault::{TemplateFault, TextFault};
pub use piece::Piece;
pub use template::Template;
pub use templates::Templates;
pub use text::text_of;
