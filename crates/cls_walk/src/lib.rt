//! Pages by counting first: bounds of the numbers of terms by size and node, by arithmetic, before a term is made.
//!
//! - [`page`] gives a page of the terms of any rule book after any term, or says that more terms would have to be held
//!   than are allowed. If the bounds tell this, no term is made for it. If they tell that there are not too many, the
//!   page is listed by a walk over codes, and nothing is made that isn't listed. Where a code may have several
//!   derivations by the rules, the walk goes over frames, which say what the terms that are begun can become.
//! - If the bounds don't tell, the terms are counted exactly: each node's terms are listed over frames, size after size,
//!   until the page is known or there are too many. A term larger than 64 may be too long to be listed: if the page
//!   isn't known by this size, `cls_enum` makes it.
//! - [`laws`] says what the bounds are good for.
//!
//! Inside, for the bounds: `ways` counts in how many ways the sizes of arguments come to a sum, `upper` counts the ways
//! of all rules of a node, and `lower` those that surely make different terms, by `run`s of head rules with one
//! component and as many arguments; `order` tests whether head rules stand in such runs. `bounds` keeps both by size
//! and node in `table`s, as `numbers` that saturate, and `totals` adds numbers of a table up. `counted` counts the
//! upper bounds up to the size that decides, `refusal` refuses a page by the lower ones where the upper ones leave it
//! open, `apart` tests whether they are the same, as no two rules of a node make the same term, `ends` finds the size
//! at which the terms end, and `stage` is what travels together while one size is counted.
//!
//! The walk over codes is a depth-first search: `build` makes the `form`s of each node, `least` finds the least size of
//! each and what each form comes to, `walk` writes the codes of one size from the left in their order, past the
//! `cursor`, by a `plan`, and `attempt` goes from size to size and makes the page of the codes. `stretch` keeps where
//! the codes of a node's terms of one size stand, once they were listed whole, and `replay` copies them from there
//! behind the code so far.
//!
//! Where forms of a node begin alike, so that a code may have several derivations, or can't be made, `listing` takes
//! the walk over frames instead, which is a subset construction by the terms that are begun and not by whole stacks of
//! nodes. A frame is a component with those of its arguments that are read. `places` has what the term may become, and
//! moves on where an argument ends; `standing` keeps the frames, each on an earlier one, and ends arguments from the
//! innermost frame outwards. `aims` keeps of which nodes the next argument can be, with the least that is awaited
//! behind it, level by level of pairs, and `aiming` finds them. `offers` gathers each `opening` that can be completed
//! within the size, once for each stack, `ahead` keeps them in rising order beside the levels, `begin` gives the frame
//! behind one, and `stroll` is the depth-first search. `rules` has head rules and pairs by node, `smallest` the least
//! sizes by these, and `guide` what the walk goes by.
//!
//! For exact numbers, `exact` lists the due terms over frames, size after size, and the terms of all nodes are counted
//! the same way (`node_count`, `pool_count`). `paging` puts all this together.
#![tactic(auto)]

mod ahead;
mod aiming;
mod aims;
mod apart;
mod attempt;
mod begin;
mod bounds;
mod build;
mod counted;
mod cursor;
mod ends;
mod exact;
mod form;
mod guide;
pub mod laws;
mod least;
mod listing;
mod lower;
mod node_count;
mod numbers;
mod offers;
mod opening;
mod order;
mod paging;
mod places;
mod plan;
mod pool_count;
mod refusal;
mod replay;
mod rules;
mod run;
mod smallest;
mod stage;
mod standing;
mod stretch;
mod stroll;
mod table;
mod totals;
mod upper;
mod walk;
mod ways;

pub use paging::page;
