//! A certificate that is read up to some line, and grows by a statement at a time.
ghost use Rattle.std.specs.Prelude.{◌≡◌, [], false, IfOk, MatchOption};
ghost use Rattle.std.specs.List.{list_any};
ghost use Rattle.cls_proof.specs.Drafts.{GoesOn, IsAdded, said_in, place_in, place_in_members, members_said, rows_said, at_start, in_rows};
ghost use Rattle.cls_proof.specs.Said.{statement_of};
ghost use Rattle.cls_proof.specs.Seen.{certificate_of};
ghost use Rattle.cls_proof.specs.Statements.{block, layer, set, statements_of, is_qed};

use crate::certificate::Certificate;
use crate::member::Members;
use crate::row::ProofRows;
use crate::statement::Statement;
use cls_base::OutOfMemory;
use std::alloc::Global;
use std::mem::replace;

/// A certificate up to some line.
#[derive(Drop)]
pub(crate) enum Draft {
    /// Up to no line.
    Start,
    /// Up to `inhabited`, or the last of these rows.
    Rows(ProofRows),
    /// Up to `empty`, or the last member, with its last block, layer and set.
    Members(Members),
    /// Up to `qed`.
    Whole(Certificate),
}

impl Draft {
    /// The draft with the statement as its next one, or None if it isn't allowed there.
    pub(crate) fn with(
        self,
        alloc: Global,
        statement: Statement,
    ) -> Result<Option<Draft>, OutOfMemory>
        ensures { IfOk result (GoesOn (said_in self) (place_in self) (statement_of statement)) }
    {
        match self {
            Draft::Start => Ok(begun(alloc, &statement)),
            Draft::Rows(rows) => after_rows(rows, statement),
            Draft::Members(members) => after_members(members, statement),
            Draft::Whole(_) => Ok(None),
        }
    }

    /// Puts the statement last, and tells whether it is allowed there. Where it isn't, and after an error, the draft may say
    /// anything.
    ///
    /// Nearly every statement is a row behind rows, or one behind a member: these are put in place.
    pub(crate) fn add(&mut self, alloc: Global, statement: Statement) -> Result<bool, OutOfMemory>
        ensures { IfOk result (λ allowed.
            IsAdded (said_in self.old) (place_in self.old) (statement_of statement) (said_in self.new) allowed) }
    {
        let statement = match (&mut *self, statement) {
            (Draft::Rows(rows), Statement::Row(row)) => {
                rows.push(row)?;
                return Ok(true);
            }
            (Draft::Members(members), Statement::Block { component, n }) => {
                return add_block(members, component, n);
            }
            (Draft::Members(members), Statement::Layer) => return add_layer(members),
            (Draft::Members(members), Statement::Set(set)) => {
                return add_set(members, set.as_slice());
            }
            (_, other) => other,
        };
        let Some(next) = replace(self, Draft::Start).with(alloc, statement)? else {
            return Ok(false);
        };
        *self = next;
        Ok(true)
    }

    /// The certificate, if the draft is up to `qed`.
    pub(crate) fn finish(self) -> Option<Certificate>
        ensures { MatchOption result (list_any is_qed (said_in self) ≡ false)
            (λ certificate. statements_of (certificate_of certificate) ≡ said_in self) }
    {
        match self {
            Draft::Whole(certificate) => Some(certificate),
            _ => None,
        }
    }
}

fn begun(alloc: Global, statement: &Statement) -> Option<Draft>
    ensures { GoesOn [] at_start (statement_of statement.now) result }
{
    match statement {
        Statement::Inhabited => Some(Draft::Rows(ProofRows::new(alloc))),
        Statement::Empty => Some(Draft::Members(Members::new(alloc))),
        _ => None,
    }
}

fn after_rows(mut rows: ProofRows, statement: Statement) -> Result<Option<Draft>, OutOfMemory>
    ensures { IfOk result (GoesOn (rows_said rows) in_rows (statement_of statement)) }
{
    match statement {
        Statement::Row(row) => {
            rows.push(row)?;
            Ok(Some(Draft::Rows(rows)))
        }
        Statement::Qed => Ok(Some(Draft::Whole(Certificate::Inhabited(rows)))),
        _ => Ok(None),
    }
}

#[tactic(auto, using(crate::proofs::DraftLists::drafting))]
fn after_members(mut members: Members, statement: Statement) -> Result<Option<Draft>, OutOfMemory>
    ensures { IfOk result (GoesOn (members_said members) (place_in_members members) (statement_of statement)) }
{
    match statement {
        Statement::Member(goal) => {
            members.push_member(goal)?;
            Ok(Some(Draft::Members(members)))
        }
        Statement::Block { component, n } => {
            if !add_block(&mut members, component, n)? {
                return Ok(None);
            }
            Ok(Some(Draft::Members(members)))
        }
        Statement::Layer => {
            if !add_layer(&mut members)? {
                return Ok(None);
            }
            Ok(Some(Draft::Members(members)))
        }
        Statement::Set(set) => {
            if !add_set(&mut members, set.as_slice())? {
                return Ok(None);
            }
            Ok(Some(Draft::Members(members)))
        }
        Statement::Qed => Ok(Some(Draft::Whole(Certificate::Empty(members)))),
        _ => Ok(None),
    }
}

/// Puts a block last, and tells whether it is allowed there, as it is if there is a member.
#[tactic(auto, using(crate::proofs::DraftLists::drafting))]
fn add_block(members: &mut Members, component: u32, n: u32) -> Result<bool, OutOfMemory>
    ensures { IfOk result (λ allowed. IsAdded (members_said members.old) (place_in_members members.old)
        (block component n) (members_said members.new) allowed) }
{
    if members.len() == 0 {
        return Ok(false);
    }
    members.push_block(component, n)?;
    Ok(true)
}

/// Puts a layer last, and tells whether it is allowed there, as it is if the last member has a block.
#[tactic(auto, using(crate::proofs::DraftLists::drafting))]
fn add_layer(members: &mut Members) -> Result<bool, OutOfMemory>
    ensures { IfOk result (λ allowed. IsAdded (members_said members.old) (place_in_members members.old)
        layer (members_said members.new) allowed) }
{
    if !members.has_block() {
        return Ok(false);
    }
    members.push_layer()?;
    Ok(true)
}

/// Puts a set last, and tells whether it is allowed there, as it is if the last block has a layer.
#[tactic(auto, using(crate::proofs::DraftLists::drafting))]
fn add_set(members: &mut Members, positions: &[u32]) -> Result<bool, OutOfMemory>
    ensures { IfOk result (λ allowed. IsAdded (members_said members.old) (place_in_members members.old)
        (set positions.now) (members_said members.new) allowed) }
{
    if !members.has_layer() {
        return Ok(false);
    }
    members.push_set(positions)?;
    Ok(true)
}
