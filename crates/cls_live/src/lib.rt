//! What is known of the goals of a library that changes, component by component.
//!
//! - [`Parts`] has goals, and for each of them an entry for each component: the arguments of the rules that the component
//!   makes for the goal, if they are known. It is a memo for the expander of its library, which is asked for the components
//!   that aren't known alone. [`Parts::keep`] makes the entries of rows known.
//! - [`Parts::add_component`] and [`Parts::drop_component`] change the library and the entries with it: what is known of the
//!   other components stays known.
//!
//! Inside, each component has a slot, a number that no later component gets, and rules are stored with slots in place of
//! components: so a component is dropped without a look at the goals, and its rules are passed over from then on. `slots`
//! has the slots in order, `known` what is stored of a goal. A component that is added comes last and gets the greatest
//! slot, so what is known of a goal is known of all slots below one, its end. `settling` puts slots in place of
//! components, `reading` components in place of slots, and `updates` has what becomes known by rows.
#![tactic(auto)]

mod known;
mod parts;
mod reading;
mod settling;
mod slots;
mod updates;

pub use parts::Parts;
