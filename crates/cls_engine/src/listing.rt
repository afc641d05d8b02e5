ghost use Rattle.std.specs.Prelude.{◌≡◌, ◌<◌, ◌≤◌, ◌^◌, IfOk, IfErr, IfSome, OnOk, option_copied};
ghost use Rattle.cls_base.specs.Limits.{max_term_size};
ghost use Rattle.cls_base.specs.Languages.{IsGenerated};
ghost use Rattle.cls_base.specs.Pages.{IsPage};
ghost use Rattle.cls_base.specs.Terms.{length_of};
ghost use Rattle.cls_base.specs.Ty.{type_of};
ghost use Rattle.cls_enum.specs.Faults.{IfTooMany};
ghost use Rattle.cls_enum.specs.Requests.{request};
ghost use Rattle.cls_enum.specs.States.{ExceedsPool, FitsPool};
ghost use Rattle.cls_library.specs.Typing.{HasTypeIn};
ghost use Rattle.cls_engine.specs.Faults.{IsFaultOf, AreSilent, list_faults};

use crate::engine::Engine;
use crate::fault::EngineFault;
use crate::host::Host;
use cls_base::{Gate, RuleBook, Ty};
use cls_enum::{Page, PageFault};
use cls_term::Term;
use cls_walk::page;
use std::alloc::Global;
use std::sync::Wait;
use std::thread::Threads;

impl Engine {
    /// The page of the terms of the book's start.
    pub(crate) fn page_of<B: RuleBook>(
        &self,
        alloc: Global,
        book: &B,
        after: Option<&Term>,
        max: u32,
        take: u32,
    ) -> Result<Page, PageFault>
        requires max { max ≤ max_term_size }
        requires some { 1 ≤ take }
        requires cursor { IfSome (option_copied after) (λ e. length_of e < 2 ^ 32) }
        ensures page { let r = request self.now.costs (option_copied after.entry) max take in
            IfOk result (λ p. IsPage (IsGenerated (B.book book.now) 0) r p.terms p.more) }
        ensures within { let r = request self.now.costs (option_copied after.entry) max take in
            IfOk result (λ _. FitsPool (B.book book.now) r self.now.options.pool) }
        ensures over { let r = request self.now.costs (option_copied after.entry) max take in
            IfErr result (λ fault. IfTooMany fault (ExceedsPool (B.book book.now) r self.now.options.pool)) }
    {
        let pool = self.options.pool;
        page(alloc, book, &self.costs, after, max, take, pool)
    }

    /// The first `take` terms of the type that come after the cursor, if there is one, and have at most the size `max`
    /// and the length 64, in the order by size and code; and whether there is a further one. The cursor needn't have
    /// the type.
    pub fn list<R: Threads + Wait + Sync, T: Gate + Sync>(
        &mut self,
        host: &Host<R, T>,
        ty: &Ty,
        after: Option<&Term>,
        max: u32,
        take: u32,
    ) -> Result<Page, EngineFault>
        requires max { max ≤ max_term_size }
        requires some { 1 ≤ take }
        requires cursor { IfSome (option_copied after) (λ e. length_of e < 2 ^ 32) }
        ensures same { self.new ≡ self.old }
        ensures page { IfOk result (λ p. IsPage (λ e. HasTypeIn self.old.library e (type_of ty.now))
            (request self.old.costs (option_copied after.entry) max take) p.terms p.more) }
        ensures silent { OnOk result (AreSilent (list_faults self.old.library self.old.options (type_of ty.now)
            (request self.old.costs (option_copied after.entry) max take))) }
        ensures fault { IfErr result (IsFaultOf (list_faults self.old.library self.old.options (type_of ty.now)
            (request self.old.costs (option_copied after.entry) max take))) }
    {
        // For the prover: what a component costs.
        self.facts();
        let grammar = self.closure(host, ty)?;
        let page = self.page_of(host.alloc, &grammar, after, max, take);
        self.keep_recent(grammar);
        Ok(page?)
    }
}
