ghost use Rattle.std.specs.Prelude.{◌≡◌, ◌≤◌, ◌<◌, ◌^◌, IfOk, IfErr, IfSome, OnOk, option_copied};
ghost use Rattle.cls_base.specs.Limits.{max_term_size};
ghost use Rattle.cls_base.specs.Pages.{IsPage};
ghost use Rattle.cls_base.specs.Terms.{length_of};
ghost use Rattle.cls_base.specs.Ty.{type_of};
ghost use Rattle.cls_enum.specs.Requests.{request};
ghost use Rattle.cls_filter.specs.Automata.{Accepts};
ghost use Rattle.cls_filtered.specs.Faults.{IfTooManyRules};
ghost use Rattle.cls_filtered.specs.Filtered.{IsFiltered, HasLargeFilter, rule_total};
ghost use Rattle.cls_grammar.specs.Grammars.{book_of};
ghost use Rattle.cls_library.specs.Typing.{HasTypeIn};
ghost use Rattle.cls_engine.specs.Faults.{IsFaultOf, AreSilent, filter_faults};

use crate::engine::Engine;
use crate::fault::EngineFault;
use crate::host::Host;
use cls_base::{Gate, Ty};
use cls_enum::Page;
use cls_filter::Filter;
use cls_filtered::{FilterFault, FilteredBook, filtered};
use cls_grammar::Grammar;
use cls_term::Term;
use std::alloc::Global;
use std::sync::Wait;
use std::thread::Threads;

impl Engine {
    /// The rule book of the grammar's terms that the filter accepts, within the options.
    fn filtered_book(
        &self,
        alloc: Global,
        grammar: &Grammar,
        filter: &Filter,
    ) -> Result<FilteredBook, FilterFault>
        ensures book { IfOk result (IsFiltered (book_of grammar.now) filter.now) }
        ensures within { IfOk result (λ book. rule_total book ≤ self.now.options.rules) }
        ensures large { IfErr result (λ fault.
            IfTooManyRules fault (HasLargeFilter (book_of grammar.now) filter.now self.now.options.rules)) }
    {
        let limit = self.options.rules;
        filtered(alloc, grammar, filter, limit)
    }

    /// Of the terms of the type that the filter accepts the first `take` that come after the cursor, if there is one,
    /// and have at most the size `max` and the length 64, in the order by size and code; and whether there is a further
    /// one. The cursor needn't have the type or be accepted.
    ///
    /// Nothing is kept of the filtered grammar: each such query makes it anew, from the grammar, which is kept.
    pub fn filtered<R: Threads + Wait + Sync, T: Gate + Sync>(
        &mut self,
        host: &Host<R, T>,
        ty: &Ty,
        filter: &Filter,
        after: Option<&Term>,
        max: u32,
        take: u32,
    ) -> Result<Page, EngineFault>
        requires max { max ≤ max_term_size }
        requires some { 1 ≤ take }
        requires cursor { IfSome (option_copied after) (λ e. length_of e < 2 ^ 32) }
        ensures same { self.new ≡ self.old }
        ensures page { let r = request self.old.costs (option_copied after.entry) max take in
            IfOk result (λ p. IsPage (λ e. HasTypeIn self.old.library e (type_of ty.now) × Accepts filter.now e)
            r p.terms p.more) }
        ensures silent { let r = request self.old.costs (option_copied after.entry) max take in
            OnOk result (AreSilent
            (filter_faults self.old.library self.old.options (type_of ty.now) filter.now r)) }
        ensures fault { let r = request self.old.costs (option_copied after.entry) max take in
            IfErr result (IsFaultOf
            (filter_faults self.old.library self.old.options (type_of ty.now) filter.now r)) }
    {
        // For the prover: what a component costs, and that the states of the filter are below their limit.
        self.facts();
        let _accepts = filter.is_accepting(0);
        let grammar = self.closure(host, ty)?;
        let made = self.filtered_book(host.alloc, &grammar, filter);
        self.keep_recent(grammar);
        let book = made?;
        let page = self.page_of(host.alloc, &book, after, max, take)?;
        Ok(page)
    }
}
