ghost use Rattle.std.specs.Prelude.{◌≡◌};

use crate::known::Known;
use crate::rule::{Growing, Put, SameView, Take};
use crate::seat::TurnSeat;
use crate::view::View;
use atomic_table::{Refused, Table};
use cls_base::OutOfMemory;
use std::alloc::Global;
use std::snapshot::Snapshot;
use std::sync::Wait;
use std::thread::yield_now;

/// A spin lock with the value that it guards.
///
/// Each call that takes a seat wants one of this lock: the first, or one that was split from such a seat.
#[derive(Drop)]
pub struct Turn<T: Known<G> + Drop, G> {
    table: Table<Option<T>, View<G>, Snapshot<T>, Growing<T, G>, Global>,
    ghost sized: { (table.shared.table_id.words ≡ 1) × (table.shared.table_id.slots ≡ 1) },
}

impl<G, T: Known<G> + Drop> Turn<T, G> {
    ghost use Rattle.std.specs.Prelude.{IfOk};
    ghost use Rattle.cls_turn.specs.Seats.{Knows, IsFree, HasTurn, IsSeatOf, IsOfSameTurn, IsSameSeat};

    /// A free lock with the value, and a seat that knows what is known of it. The only error is out of memory, which
    /// drops the value.
    pub fn new(alloc: Global, value: T) -> Result<(Turn<T, G>, TurnSeat<T, G>), OutOfMemory>
        ensures seat_of_this { IfOk result (λ r. IsSeatOf r.1 r.0) }
        ensures knows { IfOk result (λ r. Knows r.1 (T.known value)) }
    {
        let key = Snapshot::of(&value);
        let mut slots = Vec::with_capacity(alloc, 1)?;
        slots.push_reserved(Some(value));
        match Table::new(alloc, &[0], slots, &key) {
            Ok((table, seat)) => Ok((Turn { table }, TurnSeat { seat })),
            Err(Refused { slots: _ }) => Err(OutOfMemory),
        }
    }

    /// Acquires the lock: spins until it is free, and takes the value out. What the seat knew of the value goes on to
    /// what is known of it now.
    pub fn take<R: Wait>(&self, rt: &R, seat: &mut TurnSeat<T, G>) -> T
        requires seat_of_this { IsSeatOf seat.old self.now }
        requires free { IsFree seat.old }
        ensures same_turn { IsOfSameTurn seat.new seat.old }
        ensures taken { HasTurn seat.new (T.known result) }
        ensures before { (g : G) → Knows seat.old g → T.goes_on g (T.known result) }
    {
        let shared = &self.table.shared;
        for _ in rt.forever() {
            let found = shared.compare_exchange::<Take<T, G>>(&mut seat.seat, 0, 0, 1);
            if found == 0 {
                return shared.exchange(&mut seat.seat, 0, None).unwrap();
            }
            yield_now();
        }
        unreachable!()
    }

    /// Releases the lock that the seat has taken: puts a value back, to which what was known of the one taken goes on.
    pub fn put(&self, seat: &mut TurnSeat<T, G>, value: T)
        requires seat_of_this { IsSeatOf seat.old self.now }
        requires taken { (g : G) × HasTurn seat.old g × T.goes_on g (T.known value) }
        ensures same_turn { IsOfSameTurn seat.new seat.old }
        ensures knows { Knows seat.new (T.known value) }
    {
        let shared = &self.table.shared;
        drop(shared.exchange(&mut seat.seat, 0, Some(value)));
        shared.store::<Put<T, G>>(&mut seat.seat, 0, 0);
    }

    /// A new seat, which knows what the given one knows.
    pub fn split(&self, seat: &mut TurnSeat<T, G>) -> TurnSeat<T, G>
        requires seat_of_this { IsSeatOf seat.old self.now }
        requires free { IsFree seat.old }
        ensures same { IsSameSeat seat.new seat.old }
        ensures new { IsSameSeat result seat.old }
    {
        let new = self.table.shared.split_seat::<SameView>(&mut seat.seat);
        TurnSeat { seat: new }
    }

    /// Ends the other seat, which is in no holding.
    pub fn join(&self, seat: &mut TurnSeat<T, G>, other: TurnSeat<T, G>)
        requires seat_of_this { IsSeatOf seat.old self.now }
        requires other_of_this { IsSeatOf other self.now }
        requires free { IsFree other }
        ensures same { IsSameSeat seat.new seat.old }
    {
        let TurnSeat { seat: other } = other;
        self.table
            .shared
            .join_seat::<SameView>(&mut seat.seat, other);
    }

    /// Spins until the lock is free, and takes the value out for good. What the seat knew of the value goes on to what
    /// is known of it now.
    pub fn close<R: Wait>(self, rt: &R, seat: TurnSeat<T, G>) -> T
        requires seat_of_this { IsSeatOf seat self }
        requires free { IsFree seat }
        ensures before { (g : G) → Knows seat g → T.goes_on g (T.known result) }
    {
        let mut seat = seat;
        self.take(rt, &mut seat)
    }
}
