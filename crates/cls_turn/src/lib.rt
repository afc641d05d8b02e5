//! A spin lock: one value that any number of threads take in turn.
//!
//! - [`Turn`] is the lock with its value. [`Turn::take`] acquires the lock and hands the value out. [`Turn::put`]
//!   puts a value back and releases the lock. What a thread does in between is a holding, the critical section.
//! - [`TurnSeat`] is a thread's handle on the lock. It knows something of the value: what was known of it when the seat
//!   last held it. That stays true of the value, whoever has changed it since.
//! - [`Known`] says what is known of a value, and how it may go on: in which ways it may change while what was known
//!   before stays true. Each holding puts back a value to which what was known of the one taken goes on.
//! - [`View`] is what a seat knows.
//!
//! The lock is one word and one slot of an `atomic_table`. The word is 0 if the lock is free, and 1 if a seat has it.
//! Taking is one compare-and-exchange of the word from 0 to 1, which takes the slot with the value in it. Putting is
//! one store of 0, which gives the slot back. The lock isn't fair: nothing says that a seat is ever served.
//!
//! Inside, `rule` is what each step of the lock does to the views, `turn` takes and puts by these steps, and `seat`,
//! `view` and `known` have the types of their names.
#![tactic(auto)]

mod known;
mod rule;
mod seat;
mod turn;
mod view;

pub use known::Known;
pub use seat::TurnSeat;
pub use turn::Turn;
pub use view::View;
