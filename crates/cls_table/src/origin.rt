ghost use Rattle.std.specs.Prelude.{◌≡◌};

use crate::limits::Limits;
use cls_core::Expand;
use std::marker::Model;
use std::snapshot::Snapshot;

/// The tag as it lies in a table and in its claims: the expander and the start goal are there in proofs alone.
#[derive(Drop)]
pub struct Origin<E: Expand> {
    by: Snapshot<E>,
    start: Snapshot<E::Goal>,
    limits: Limits,
    workers: u32,
}

impl<E: Expand> Model for Origin<E> {
    ghost use Rattle.cls_table.specs.declared.tag.Tag.{Tag};
    ghost use Rattle.cls_table.specs.Tags.{tag_for};

    ghost Value = { Tag E.Tag E.Goal };

    ghost view = { λ o. tag_for (E.tag o.by.value) o.start.value o.limits o.workers };
}

impl<E: Expand> Origin<E> {
    ghost use Rattle.cls_table.specs.Tags.{tag_for};

    pub(crate) fn new(by: &E, start: &E::Goal, limits: Limits, workers: u32) -> Origin<E>
        ensures { result ≡ tag_for (E.tag by.now) start.now limits workers }
    {
        Origin {
            by: Snapshot::of(by),
            start: Snapshot::of(start),
            limits,
            workers,
        }
    }

    pub(crate) fn goals(&self) -> u32
        ensures { result ≡ self.now.goals }
    {
        self.limits.goals
    }

    pub(crate) fn rules(&self) -> u32
        ensures { result ≡ self.now.rules }
    {
        self.limits.rules
    }
}
