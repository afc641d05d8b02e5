use crate::view::View;
use atomic_table::Seat;

/// A thread's handle on the lock, which knows something of the value.
#[derive(Drop)]
pub struct TurnSeat<T, G> {
    pub(crate) seat: Seat<Option<T>, View<G>>,
}
