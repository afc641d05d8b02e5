//! Paths and normal forms of types: the exact test of subtyping.
//!
//! - [`Path`] is a type without intersections on its way to its end, and [`Form`] its seven kinds, two of which are kept
//!   in two ways.
//! - [`ArrowSource`] is what a path of functions takes, as the path keeps it.
//! - [`Nf`] is an intersection of paths, strictly sorted at every depth. It serves as a key of a table.
//! - `specs/` defines paths, the paths of a type, when a path is below another, the order of paths, and normal forms.
//!   What holds of them all stands in the calls of [`laws`].
//!
//! Inside, `below` decides subtyping of paths, `order` compares them, `meet` makes normal forms, and `name` compares a
//! path or a list with a bare name, which short paths hold without a box. `label` gives a path spans of the classes of
//! its names, and `groups` splits paths by the class of the head, by their stems (`stem`: the first names on the way) and by
//! those spans that are one number, so that a normal form compares only paths of one group. Where names are alone, which
//! `alone` asks, they count by themselves. Before a group is split, `clear` drops what is above one of its paths. Paths that
//! all differ in these are compared with none. `few` has at most 16 paths: once they are sorted, they are a normal form if
//! the classes of their heads rise. `key` has what makes an `Nf` a key of a table, and `feed` what a hash is made of.
//! Subtyping of types is decided in `cls_norm`, on the types themselves.
#![tactic(auto)]

mod alone;
mod below;
mod clear;
mod feed;
mod few;
mod groups;
mod key;
mod label;
pub mod laws;
mod list;
mod make;
mod meet;
mod name;
mod order;
mod path;
mod source;
mod stem;

pub use path::{Arrow, Form, Nf, Path};
pub use source::ArrowSource;
