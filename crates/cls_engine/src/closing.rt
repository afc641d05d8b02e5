//! The closure of a goal, worked out by the workers unless it is kept why it isn't made.
ghost use Rattle.std.specs.Prelude.{◌≡◌, IfOk, IfErr};
ghost use Rattle.cls_core.specs.Rows.{Row};
ghost use Rattle.cls_expand.specs.Answers.{IsAnswer, IsReady};
ghost use Rattle.cls_expand.specs.Memos.{AreComplete, FitMemo};
ghost use Rattle.cls_table.specs.Completing.{IsComplete};
ghost use Rattle.cls_table.specs.declared.fault.ExpandFault.TheVariants.{TooLarge};
ghost use Rattle.cls_engine.specs.Closing.{tag_of, IsLargeFrom, IsKnown, IsClosingFault};
ghost use Rattle.cls_engine.specs.Goals.{same};
ghost use Rattle.cls_engine.specs.Histories.{IsHistoryFrom};

use crate::engine::Engine;
use crate::fault::EngineFault;
use crate::host::Host;
use crate::outcomes::Outcome;
use cls_base::{Gate, OutOfMemory};
use cls_core::laws::{complete_histories_make_grammars, renumbered_rows_are_canonical};
use cls_core::{Finished, History, Rows};
use cls_expand::{Expander, Stored};
use cls_grammar::Grammar;
use cls_path::Nf;
use cls_table::{ExpandFault, Limits};
use cls_workers::expand_all;
use std::alloc::Global;
use std::sync::Wait;
use std::thread::Threads;

/// What the workers found of a goal.
#[derive(Drop)]
pub(crate) struct Closed {
    /// The grammar of the goal: its closure in the canonical numbering.
    pub(crate) grammar: Grammar,
    /// Who claimed and filed which row, in turn.
    pub(crate) history: History,
}

impl Engine {
    /// Has the workers find the closure of the goal. What is kept of a goal is looked up first.
    fn expand<R: Threads + Wait + Sync, T: Gate + Sync>(
        &self,
        host: &Host<R, T>,
        goal: Nf,
    ) -> Result<Finished<Nf>, ExpandFault>
        requires ready { IsReady self.now.library goal }
        ensures complete { IfOk result (IsComplete same IsAnswer (tag_of self.now.library self.now.options goal)) }
        ensures large { IfErr result (λ e. e ≡ TooLarge → IsLargeFrom self.now.library self.now.options goal) }
    {
        let expander = Expander::new(&self.library);
        let by = Stored::new(&expander, &self.parts);
        let limits = Limits {
            goals: self.options.goals,
            rules: self.options.rules,
        };
        expand_all(
            host.rt,
            host.alloc,
            &by,
            goal,
            self.options.workers,
            limits,
            host.gate,
        )
    }

    /// Has the library keep its arrows by what their targets end in, for the workers. For the first closure after a
    /// change they do without: between two changes there is often one query, and most of the goals are known.
    pub(crate) fn index(&mut self, alloc: Global) -> Result<(), OutOfMemory>
        ensures { self.new ≡ self.old }
    {
        if self.changed {
            self.changed = false;
            return Ok(());
        }
        self.library.index(alloc)
    }

    /// Keeps what the components make for the goals of the rows, for later queries.
    fn keep(&mut self, alloc: Global, rows: &Rows<Nf>) -> Result<(), OutOfMemory>
        requires complete { AreComplete same (IsAnswer self.old.library) rows.now }
        requires fit { FitMemo rows.now }
        ensures { self.new ≡ self.old }
    {
        self.parts.keep(alloc, rows)
    }

    /// Works out the closure of the goal, and keeps its answers for later queries.
    fn work_out<R: Threads + Wait + Sync, T: Gate + Sync>(
        &mut self,
        host: &Host<R, T>,
        goal: Nf,
    ) -> Result<Closed, EngineFault>
        requires ready { IsReady self.old.library goal }
        ensures same { self.new ≡ self.old }
        ensures known { IfOk result (λ c. IsKnown self.old.library self.old.options goal c.grammar) }
        ensures history { IfOk result (λ c. IsHistoryFrom self.old.library self.old.options.workers goal c.history) }
        ensures fault { IfErr result (IsClosingFault self.old.library self.old.options goal) }
    {
        // For the prover: what the rows of a complete history are, and what holds of each engine.
        complete_histories_make_grammars::<Expander>();
        renumbered_rows_are_canonical::<Expander>();
        self.facts();
        self.index(host.alloc)?;
        let finished = self.expand(host, goal)?;
        let Finished { rows, history } = finished;
        let made = Grammar::of(host.alloc, &rows);
        self.keep(host.alloc, &rows)?;
        let grammar = made?;
        Ok(Closed { grammar, history })
    }

    /// Keeps the fault of the goal's closure for later queries, if it is the goal's own and there is memory for it.
    fn keep_fault(&mut self, alloc: Global, goal: &Nf, fault: &EngineFault)
        requires { IsClosingFault self.old.library self.old.options goal.now fault.now }
        ensures same { self.new ≡ self.old }
    {
        let Some(outcome) = Outcome::of(alloc, fault) else {
            return;
        };
        self.keep_outcome(alloc, goal, outcome);
    }

    /// Works out the closure of the goal, unless it is kept why it isn't made. Keeps its answers, or why it isn't made,
    /// for later queries.
    pub(crate) fn close<R: Threads + Wait + Sync, T: Gate + Sync>(
        &mut self,
        host: &Host<R, T>,
        goal: Nf,
    ) -> Result<Closed, EngineFault>
        requires ready { IsReady self.old.library goal }
        ensures same { self.new ≡ self.old }
        ensures known { IfOk result (λ c. IsKnown self.old.library self.old.options goal c.grammar) }
        ensures history { IfOk result (λ c. IsHistoryFrom self.old.library self.old.options.workers goal c.history) }
        ensures fault { IfErr result (IsClosingFault self.old.library self.old.options goal) }
    {
        self.recall(host.alloc, &goal)?;
        let asked = goal.copy(host.alloc)?;
        match self.work_out(host, goal) {
            Ok(closed) => Ok(closed),
            Err(fault) => {
                self.keep_fault(host.alloc, &asked, &fault);
                Err(fault)
            }
        }
    }
}
