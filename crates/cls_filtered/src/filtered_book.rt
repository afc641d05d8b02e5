ghost use Rattle.std.specs.Prelude.{◌≡◌, ◌+◌, ◌*◌, ◌^◌, ◌<◌, ◌≤◌, IfErr, IfOk, length, map};
ghost use Rattle.cls_base.specs.Limits.{max_states};
ghost use Rattle.cls_filtered.specs.Faults.{IfTooManyRules};
ghost use Rattle.cls_filtered.specs.Filtered.{HasLargeFilter, IsFiltered, below, count_true, filtered_book, pairs_to, rule_total};

use crate::fault::FilterFault;
use crate::maker::{Draft, Maker};
use crate::states::states_of;
use crate::step_book::StepBook;
use cls_base::{NodeRules, RuleBook};
use cls_filter::Filter;
use std::alloc::Global;
use std::marker::Model;

/// A rule book of terms that a filter accepts, seen as the rules of each node.
#[derive(Drop)]
pub struct FilteredBook {
    nodes: Vec<NodeRules>,
}

impl Model for FilteredBook {
    ghost use Rattle.std.specs.Prelude.{ℕ, List};
    ghost use Rattle.cls_base.specs.declared.rule.Rule.{Rule};
    ghost use Rattle.cls_filtered.specs.Makings.{IsFilteredBook};

    ghost Value = { List (List (Rule ℕ)) };

    ghost view = { λ f. f.nodes.items };

    ghost invariant = { λ f. IsFilteredBook f.nodes.items };
}

impl RuleBook for FilteredBook {
    ghost book = { λ f. f };

    fn count(&self) -> u32 {
        self.nodes.len() as u32
    }

    fn rules(&self, i: u32) -> &NodeRules {
        &self.nodes[i as usize]
    }
}

/// The rule book of the terms of node 0 of the book that the filter accepts.
///
/// `TooManyRules` comes if and only if it has more rules than the limit, and then no more than so many were made. The other
/// error is out of memory, as which more nodes than a `u32` counts count.
pub fn filtered<B: RuleBook>(
    alloc: Global,
    book: &B,
    filter: &Filter,
    limit: u32,
) -> Result<FilteredBook, FilterFault>
    ensures book { IfOk result (λ filtered. IsFiltered (B.book book.now) filter.now filtered) }
    ensures within { IfOk result (λ filtered. rule_total filtered ≤ limit) }
    ensures large { IfErr result (λ fault. IfTooManyRules fault (HasLargeFilter (B.book book.now) filter.now limit)) }
{
    // For the prover: the states of the filter are below their limit.
    let _accepts = filter.is_accepting(0);
    let steps = StepBook::of_book(alloc, book)?;
    let flags = states_of(alloc, &steps, filter)?;
    let maker = Maker::new(alloc, filter, flags)?;
    book_of(alloc, &maker, &steps, filter, limit)
}

// The nodes that the maker makes of a book of steps.
fn book_of(
    alloc: Global,
    maker: &Maker,
    steps: &StepBook,
    filter: &Filter,
    limit: u32,
) -> Result<FilteredBook, FilterFault>
    requires some { 0 < length steps.now }
    requires leads { maker.now.leads.items ≡ map (pairs_to filter.now) (below max_states) }
    requires sized { length maker.now.kept ≡ length steps.now * max_states }
    requires few { count_true maker.now.kept + 1 < 2 ^ 32 }
    ensures book { IfOk result (λ filtered. filtered ≡ filtered_book filter.now maker.now.kept steps.now) }
    ensures within { IfOk result (λ filtered. rule_total filtered ≤ limit) }
    ensures large { IfErr result (λ fault. IfTooManyRules fault
        (limit < rule_total (filtered_book filter.now maker.now.kept steps.now))) }
{
    let mut draft = Draft::new(alloc, limit);
    let first = steps.steps(0);
    maker.put_start(alloc, filter, first, &mut draft)?;
    for node in 0..steps.count() {
        let own = steps.steps(node);
        maker.put_nodes(alloc, filter, node, own, &mut draft)?;
    }
    Ok(FilteredBook { nodes: draft.nodes })
}
