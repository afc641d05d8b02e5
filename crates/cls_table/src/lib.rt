//! The table of goals that workers share.
//!
//! - [`SharedTable`] is the table under a spin lock, and [`TableSeat`] a worker's handle on it. What is done with the
//!   table while one seat has the lock is a holding.
//! - [`Batch`] is what a worker has at hand between two holdings: goals that it has claimed, and goals that it has
//!   worked on and not filed. [`SharedTable::exchange`] files the latter and claims several more at one holding, as
//!   [`Wanted`] says. [`Told`] is what it tells the worker: whether there is work. [`Batch::expand`] works on what was
//!   claimed. [`SharedTable::stop`] stops the table where a worker is out of memory, and spends what is at hand.
//! - [`Table`] is the locked value: the rows, the history, the count of claims made, and two marks. [`Table::claim`],
//!   [`Table::file`] and [`Table::stop`] are all that can happen to it, and say in full what it becomes.
//!   [`Table::facts`] says what holds of it at any time.
//! - [`Claim`] is a goal that a worker has, and [`Filed`] a claim with the goal's answer. Neither can be dropped.
//! - [`Tag`] is what a table means: the meaning of the expander, the start goal, the limits, the greatest number of a
//!   worker. A seat knows the tag of its table, which stays.
//!
//! The claims made are counted in a ledger. Its book lies in the table, and each seat has a share of it.
//!
//! Inside, `table` is the locked value over `progress`, which has the rows and the history; `shared` is the table under
//! the lock, `seat` a worker's handle on it, and `batch` what a worker has at hand between two holdings. `claim` has
//! what must be spent, and `origin` the tag as it lies in a table and in claims.
#![tactic(auto)]

mod batch;
mod claim;
mod fault;
mod limits;
mod origin;
mod progress;
mod seat;
mod shared;
mod table;
mod tag;

pub use batch::{Batch, Told, Wanted};
pub use claim::{Claim, ClaimAnswer, FileAnswer, Filed};
pub use fault::ExpandFault;
pub use limits::Limits;
pub use seat::TableSeat;
pub use shared::{SharedTable, Unfinished};
pub use table::Table;
pub use tag::Tag;
