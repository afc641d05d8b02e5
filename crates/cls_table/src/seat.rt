use crate::table::Table;
use crate::tag::Tag;
use cls_core::Expand;
use cls_turn::TurnSeat;
use std::marker::Model;
use std::sync::ledger::{Ledger, Share};

/// A worker's handle on a shared table, with its share of the claims made.
#[derive(Drop)]
pub struct TableSeat<E: Expand, L: Ledger> {
    pub(crate) seat: TurnSeat<Table<E, L>, Tag<E::Tag, E::Goal>>,
    pub(crate) share: Share<L>,
    pub(crate) worker: u32,
}

impl<E: Expand, L: Ledger> Model for TableSeat<E, L> {
    ghost use Rattle.cls_table.specs.Seen.{SeatSeen};
    ghost use Rattle.cls_turn.specs.Seats.{turn_of, known_of};
    ghost use Rattle.cls_table.specs.Seating.{IsSeated};

    ghost Value = { SeatSeen E.Tag E.Goal };

    ghost view = { λ s. record {
      turn = turn_of s.seat;
      tag = known_of s.seat;
      worker = s.worker;
      parts = s.share.parts;
      amount = s.share.amount;
    } };

    ghost invariant = { λ s. IsSeated s.seat s.worker s.share.parts };
}
