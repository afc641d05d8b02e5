//! Workers that work out the closure of a goal together.
//!
//! [`expand_all`] gives the rows and the history of a legal complete history. The caller works alone until there are
//! enough free rows to share, and then beside the others, each in a thread of its own if one can be made. Whatever the
//! schedule, the rows are the closure of the goal.
//!
//! A worker takes the lock of the table once for several goals. It files what it has done and claims what it does next,
//! and then works on its claims while others have the lock.
//!
//! Inside, `run` starts and joins workers, and `work` is what each does.
#![tactic(auto)]

mod run;
mod work;

pub use run::expand_all;
