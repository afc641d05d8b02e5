//! Checks against the typing rules, apart from what finds terms: with that it shares the library and what this stands on.
//!
//! - [`has_type`] says whether a term has a type.
//! - [`check`] accepts a certificate for a goal, or names the first row or member that fails a test, with the [`Reason`].
//! - `specs/` defines when a certificate is accepted and when it is refused. [`laws`] says that an accepted one is true by
//!   the typing rules, whoever made it.
//!
//! Inside, `typed` goes down a term: `asked` is what a term is asked for, and `reaching` finds which arrows of its head
//! lead there, and which of these are `kept` since the arguments have their sources.
//!
//! `checking` takes a certificate apart. `rows` tests its rows: `targets` looks whether arrows lead to a goal, and
//! `argument` makes the intersections of what they take. `members` tests its members: `layers` looks at the form of
//! their blocks, and `steps` goes from one layer of sets to the next. There `lack` says what one set of positions lacks
//! of another, for those sets that the index of `near` finds. `goals` is the table of the goals that are known, `known`
//! that of the sets that are known to be blocked or to lead to the next layer, or of the covers that are known to meet
//! their arguments, so that each is looked at once. `findings` has what is known of sets and of arguments while members
//! are tested, and `met` what is known of covers and of arguments while rows are. `place` is a component with a number of
//! arguments, and `positions` looks at sets of positions.
#![tactic(auto)]

mod argument;
mod asked;
mod checking;
mod fault;
mod findings;
mod found;
mod goals;
mod kept;
mod known;
mod lack;
pub mod laws;
mod layers;
mod members;
mod met;
mod near;
mod place;
mod positions;
mod reaching;
mod rows;
mod steps;
mod targets;
mod typed;

pub use checking::check;
pub use fault::{CheckFault, Reason};
pub use typed::has_type;
