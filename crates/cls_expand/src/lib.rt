//! The rules of a goal by a library, and memos of the goals that were worked on.
//!
//! - [`Expander`] gives the rules of a goal, component by component and cover by cover: [`Expander::rules_of`] those of all
//!   components, [`Expander::rules_by`] those of one, and [`Expander::rules_from`] those of all where those of the first ones
//!   are known. It is what the core machine works with.
//! - [`families_of`] gives the families of a goal's paths, and [`arguments_of`] the arguments that a cover makes.
//! - [`laws`] ties rules to typing.
//! - [`Memo`] holds the answers of goals, and [`Store`] is one that holds each goal once. [`Stored`] is an expander that
//!   asks a memo before it works on a goal. [`number_rows`] and [`name_goals`] are for other memos.
//!
//! Inside, `expander` goes from place to place, each a component and a number of arguments, as a `Finder` of
//! `cls_library` finds them for the goal. `arguments` makes the arguments of the rule of a cover, and `cover_rules`
//! puts these rules last, each once: equal ones are looked for among those of one place alone, by the `spine` of each.
//! `stored` asks a `memo` first; a `store` is one, in which `naming` puts goals in place of the numbers of an answer,
//! `renumbering` other numbers, and `additions` has what the store lacks.
#![tactic(auto)]

mod additions;
mod arguments;
mod cover_rules;
mod expander;
pub mod laws;
mod memo;
mod naming;
mod renumbering;
mod spine;
mod store;
mod stored;

pub use additions::number_rows;
pub use arguments::arguments as arguments_of;
pub use expander::{Expander, families_of};
pub use memo::Memo;
pub use naming::name_goals;
pub use store::Store;
pub use stored::Stored;
