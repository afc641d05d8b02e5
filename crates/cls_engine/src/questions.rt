//! The queries that need the closure of a type's goal.
ghost use Rattle.std.specs.Prelude.{◌≡◌, ◌↔◌, IfOk, IfErr, OnOk, IsTrue};
ghost use Rattle.cls_base.specs.Ty.{type_of};
ghost use Rattle.cls_base.specs.Terms.{Applicative};
ghost use Rattle.cls_base.specs.Types.{ClosedType};
ghost use Rattle.cls_grammar.specs.Grammars.{book_of};
ghost use Rattle.cls_grammar.specs.Ranks.{IsProductiveIn};
ghost use Rattle.cls_library.specs.Typing.{HasTypeIn};
ghost use Rattle.cls_engine.specs.Faults.{IsFaultOf, AreSilent, closure_faults};
ghost use Rattle.cls_engine.specs.Goals.{IsClosed};
ghost use Rattle.cls_engine.specs.Histories.{IsHistoryOf};

use crate::engine::Engine;
use crate::fault::EngineFault;
use crate::host::Host;
use crate::outcomes::Outcome;
use cls_base::{Gate, OutOfMemory, Ty};
use cls_core::History;
use cls_grammar::Grammar;
use std::alloc::Global;
use std::sync::Wait;
use std::thread::Threads;

/// Whether the start of the grammar is productive.
fn is_productive(alloc: Global, grammar: &Grammar) -> Result<bool, OutOfMemory>
    ensures { IfOk result (λ yes. IsTrue yes ↔ IsProductiveIn (book_of grammar.now) 0) }
{
    // For the prover: there is a start.
    let _count = grammar.count();
    let flags = grammar.productive(alloc)?;
    Ok(flags.as_slice()[0])
}

impl Engine {
    /// Whether some term has the type.
    pub fn inhabit<R: Threads + Wait + Sync, T: Gate + Sync>(
        &mut self,
        host: &Host<R, T>,
        ty: &Ty,
    ) -> Result<bool, EngineFault>
        ensures same { self.new ≡ self.old }
        ensures exact { IfOk result
            (λ yes. IsTrue yes ↔ ((e : Applicative) × HasTypeIn self.old.library e (type_of ty.now))) }
        ensures silent { OnOk result (AreSilent (closure_faults self.old.library self.old.options (type_of ty.now))) }
        ensures fault { IfErr result
            (IsFaultOf (closure_faults self.old.library self.old.options (type_of ty.now))) }
    {
        let goal = self.goal(host.alloc, ty)?;
        if let Some(inhabited) = self.recent_verdict(&goal) {
            return Ok(inhabited);
        }
        let grammar = self.closure(host, ty)?;
        let inhabited = is_productive(host.alloc, &grammar)?;
        self.keep_outcome(host.alloc, &goal, Outcome::Inhabited(inhabited));
        self.keep_recent(grammar);
        Ok(inhabited)
    }

    /// The grammar of the type's goal. It is no longer kept then, unless it is given back by [`Engine::take_back`].
    pub fn grammar<R: Threads + Wait + Sync, T: Gate + Sync>(
        &mut self,
        host: &Host<R, T>,
        ty: &Ty,
    ) -> Result<Grammar, EngineFault>
        ensures same { self.new ≡ self.old }
        ensures closed { IfOk result (IsClosed self.old.library (type_of ty.now)) }
        ensures silent { OnOk result (AreSilent (closure_faults self.old.library self.old.options (type_of ty.now))) }
        ensures fault { IfErr result
            (IsFaultOf (closure_faults self.old.library self.old.options (type_of ty.now))) }
    {
        let grammar = self.closure(host, ty)?;
        Ok(grammar)
    }

    /// Takes back the grammar of a type's goal, and keeps it for later queries if there is memory for it.
    pub fn take_back(&mut self, grammar: Grammar)
        requires { (t : ClosedType) × IsClosed self.old.library t grammar
            × AreSilent (closure_faults self.old.library self.old.options t) }
        ensures same { self.new ≡ self.old }
    {
        // For the prover: what holds of each library.
        let _count = self.library().count();
        self.keep_recent(grammar);
    }

    /// The history of the work on the type's goal: one that is legal and complete.
    pub fn audit<R: Threads + Wait + Sync, T: Gate + Sync>(
        &mut self,
        host: &Host<R, T>,
        ty: &Ty,
    ) -> Result<History, EngineFault>
        ensures same { self.new ≡ self.old }
        ensures history { IfOk result
            (IsHistoryOf self.old.library self.old.options.workers (type_of ty.now)) }
        ensures silent { OnOk result (AreSilent (closure_faults self.old.library self.old.options (type_of ty.now))) }
        ensures fault { IfErr result
            (IsFaultOf (closure_faults self.old.library self.old.options (type_of ty.now))) }
    {
        let goal = self.goal(host.alloc, ty)?;
        // A history is of work done anew. The grammar that comes of it stands in place of the one that is kept.
        drop(self.take_recent(&goal));
        let closed = self.close(host, goal)?;
        self.keep_recent(closed.grammar);
        Ok(closed.history)
    }
}
