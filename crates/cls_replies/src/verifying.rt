//! Queries about a certificate.
ghost use Rattle.std.specs.Prelude.{◌≡◌, ◌<◌, ◌^◌, length, IfOk, OnOk, string_bytes};
ghost use Rattle.cls_base.specs.Ty.{type_of};
ghost use Rattle.cls_query.specs.Queries.{verify};
ghost use Rattle.cls_query.specs.Readable.{IsVerify};
ghost use Rattle.cls_query.specs.ReadQueries.{asked_of};
ghost use Rattle.cls_replies.specs.Answering.{Verified};
ghost use Rattle.cls_replies.specs.LineKinds.{Opens};

use crate::faults::{line_fault, proof_fault};
use crate::responder::Responder;
use cls_base::{OutOfMemory, Ty};
use cls_lexer::Line;
use cls_proof::{HeldLines, read_certificate};
use cls_query::{BuiltQuery, Query, read_query};
use std::alloc::Global;

impl Responder {
    /// What is written for a line that opens a certificate, and the lines of the certificate.
    pub(crate) fn verify(
        &mut self,
        alloc: Global,
        line: &Line,
        certificate: HeldLines,
    ) -> Result<String, OutOfMemory>
        requires opens { Opens line.now }
        requires few { length certificate < 2 ^ 32 }
        ensures verified { IfOk result (λ text.
            Verified self.old line.now certificate (string_bytes text) self.new) }
        ensures same_held { OnOk result (self.new.held ≡ self.old.held) }
    {
        let mut room = Vec::new(alloc);
        let goal = match read_query(
            alloc,
            &mut self.names,
            &mut self.variables,
            &self.components,
            &self.filter_names,
            line,
            &mut room,
        ) {
            Ok(query) => verified(query),
            Err(fault) => return line_fault(alloc, &fault),
        };
        match read_certificate(alloc, &mut self.names, &self.components, certificate) {
            Ok(read) => self.judge(alloc, &goal, &read),
            Err(fault) => proof_fault(alloc, &fault),
        }
    }
}

/// The type of a query that asks for a verification.
fn verified(query: BuiltQuery) -> Ty
    requires { IsVerify (asked_of query) }
    ensures { asked_of query ≡ verify (type_of result) }
{
    match query {
        Query::About(_, goal) => goal,
        Query::Sub(..) => unreachable!(),
        Query::Paths(_) => unreachable!(),
        Query::Typed(..) => unreachable!(),
        Query::Page(..) => unreachable!(),
        Query::Filtered(..) => unreachable!(),
        Query::Batch(_) => unreachable!(),
    }
}
