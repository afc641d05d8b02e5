//! The rule of the lock: what each seat knows of the value goes on to what is known of it now.
ghost use Rattle.cls_turn.specs.Growing.{KeepsGrowing, TakeOutcome, PutOutcome};
ghost use Rattle.cls_turn.specs.Growing.{first_view, kept_view, joined_view, spent_view};

use crate::known::Known;
use crate::view::View;
use atomic_table::{Join, Play, Split, TableRule};
use std::marker::PhantomData;
use std::snapshot::Snapshot;

/// The rule as a type.
pub struct Growing<T, G> {
    marker: PhantomData<(T, G)>,
}

impl<G, T: Known<G>> TableRule<Option<T>, View<G>, Snapshot<T>> for Growing<T, G> {
    ghost holds = { λ _. KeepsGrowing T.goes_on T.known };

    ghost first = { λ key. first_view (T.known key.value) };
}

/// A compare-and-exchange of the word from 0 to 1. If it finds 0, the seat takes the slot.
pub struct Take<T, G> {
    marker: PhantomData<(T, G)>,
}

impl<G, T: Known<G>> Play<Option<T>, View<G>> for Take<T, G> {
    ghost then = { λ st m found n. TakeOutcome T.goes_on T.known m found n };
}

/// A store of 0 into the word, by which the seat gives the slot back.
pub struct Put<T, G> {
    marker: PhantomData<(T, G)>,
}

impl<G, T: Known<G>> Play<Option<T>, View<G>> for Put<T, G> {
    ghost then = { λ st m found n. PutOutcome T.known m n };
}

/// How one seat becomes two that know the same, and how two become one.
pub struct SameView;

impl<G> Split<View<G>> for SameView {
    ghost left = { kept_view };

    ghost right = { kept_view };
}

impl<G> Join<View<G>> for SameView {
    ghost both = { joined_view };

    ghost spent = { spent_view };
}
