//! The core machine: which goals were reached, who works on which, and what became of each.
//!
//! - [`Rule`] is one way in which a goal can be met, with goals for arguments. [`Goals`] is a list of goals, and
//!   [`GoalRules`] a list of rules in flat columns.
//! - [`Answer`] is what is known of a goal once it was worked on, and [`Expand`] is what works on it. Which answer a
//!   goal has is a relation, not a function. [`TypedExpand`] is an expander whose answers are the rules of a typing.
//! - [`Core`] has a row for each goal that was reached. A row is free, held by a worker, or filed with its answer.
//!   [`Core::claim`] and [`Core::file`] are its two events, and [`Entry`] and [`History`] record them. [`Filing`] says
//!   what became of a filing.
//! - [`Finished`] is a core whose rows are all filed: [`Rows`] and the history. [`Core::finish`] makes it of a core,
//!   and [`Core::read`] copies it out of one.
//! - [`laws`] holds what is true of every history: which goals it reaches, and that the rows of a complete history
//!   depend on the start goal alone, but for their order.
//!
//! Inside, `machine` has the rows and the two events, and `numbering` gives the goals of an answer the numbers of rows,
//! which puts new goals behind the others. `goal_rules` keeps rules over goals in flat columns, and `node_answer` an
//! answer in numbers. `state` says how far a row has come, and `copying` copies rows.
#![tactic(auto)]

mod answer;
mod copying;
mod entry;
mod expand;
mod filing;
mod finished;
mod goal_rules;
pub mod laws;
mod machine;
mod node_answer;
mod numbering;
mod state;
mod typed_expand;

pub use answer::Answer;
pub use cls_base::{Goals, Rule};
pub use entry::{Entry, History};
pub use expand::Expand;
pub use filing::Filing;
pub use finished::{Finished, Rows};
pub use goal_rules::GoalRules;
pub use machine::Core;
pub use node_answer::NodeAnswer;
pub use state::RowState;
pub use typed_expand::TypedExpand;
