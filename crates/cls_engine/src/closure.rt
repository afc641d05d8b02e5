ghost use Rattle.std.specs.Prelude.{◌≡◌, IfOk, IfErr};
ghost use Rattle.cls_base.specs.Ty.{type_of};
ghost use Rattle.cls_engine.specs.Closing.{IsKnownOf};
ghost use Rattle.cls_engine.specs.Faults.{IsFaultOf, closure_faults};

use crate::engine::Engine;
use crate::fault::EngineFault;
use crate::host::Host;
use cls_base::{Gate, Ty};
use cls_grammar::Grammar;
use std::sync::Wait;
use std::thread::Threads;

impl Engine {
    /// The grammar of the type's goal. It is at hand if the goal is one of those that were asked for last.
    pub(crate) fn closure<R: Threads + Wait + Sync, T: Gate + Sync>(
        &mut self,
        host: &Host<R, T>,
        ty: &Ty,
    ) -> Result<Grammar, EngineFault>
        ensures same { self.new ≡ self.old }
        ensures known { IfOk result (IsKnownOf self.old.library self.old.options (type_of ty.now)) }
        ensures fault { IfErr result
            (IsFaultOf (closure_faults self.old.library self.old.options (type_of ty.now))) }
    {
        let goal = self.goal(host.alloc, ty)?;
        if let Some(grammar) = self.take_recent(&goal) {
            return Ok(grammar);
        }
        Ok(self.close(host, goal)?.grammar)
    }
}
