//! What a worker has at hand between two holdings.
ghost use Rattle.std.specs.Prelude.{◌≡◌, ◌⊎◌, ◌↔◌, ◌<◌, ◌≤◌, ◌+◌, ◌++◌, ◌∷◌, [], ℕ, List, All, IfErr, IfOk, IsTrue, OnErr, OnOk, length, reverse, true};
ghost use Rattle.cls_table.specs.declared.tag.Tag.{Tag};
ghost use Rattle.cls_table.specs.Batches.{Files, FilesEach, HasNothing, IsBatchFor, IsClaimBy, KeepsWork};
ghost use Rattle.cls_table.specs.Lawful.{IsLarge};
ghost use Rattle.cls_table.specs.Seen.{FiledSeen};

use crate::claim::{Claim, ClaimAnswer, FileAnswer, Filed};
use crate::table::Table;
use cls_base::{Gate, Goals, OutOfMemory};
use cls_core::Expand;
use std::alloc::Global;
use std::marker::Model;
use std::sync::ledger::{Ledger, Share};

/// So many rows have to be free for each goal that is claimed at one holding.
const ROWS_FOR_ONE_CLAIM: u64 = 8;

/// Goals that a worker has claimed and not worked on, and goals that it has worked on and not filed. It has to be
/// ended.
pub struct Batch<E: Expand> {
    claims: Vec<Claim<E>>,
    filings: Vec<Filed<E>>,
    // The arguments of answers that were filed. They are dropped while nobody waits for the table.
    spent: Vec<Goals<E::Goal>>,
}

impl<E: Expand> Model for Batch<E> {
    ghost use Rattle.cls_table.specs.Seen.{BatchSeen};

    ghost Value = { BatchSeen E.Tag E.Goal };

    ghost view = { λ b. record { claims = b.claims.items; filings = b.filings.items } };
}

/// What a worker wants of a holding.
#[derive(Drop, Clone, Copy, Debug)]
pub struct Wanted {
    /// At most so many goals.
    pub most: u32,
    /// None if at least so many rows are free: others are to be started first.
    pub below: u64,
}

/// What a worker that asks for goals is told.
#[derive(Drop, Clone, Copy, Debug, PartialEq, Eq)]
pub enum Told {
    /// There are goals to work on.
    Work,
    /// So many rows are free that others are to be started first: nothing was claimed.
    Many,
    /// All goals are taken, but some aren't filed: ask again. It comes too where no goal may be claimed.
    Again,
    /// All goals are filed.
    Finished,
    /// The closure is too large.
    TooLarge,
    /// Memory ran out, here or before: the table is stopped.
    NoMemory,
}

impl<E: Expand> Batch<E> {
    /// Nothing at hand. It takes no memory.
    pub fn new(alloc: Global) -> Batch<E>
        ensures { HasNothing result }
    {
        Batch {
            claims: Vec::new(alloc),
            filings: Vec::new(alloc),
            spent: Vec::new(alloc),
        }
    }

    /// Whether nothing is at hand.
    pub fn is_empty(&self) -> bool
        ensures { IsTrue result ↔ HasNothing self.now }
    {
        self.claims.is_empty() && self.filings.is_empty()
    }

    /// Ends it. Nothing is at hand.
    pub fn end(self)
        requires { HasNothing self }
    {
        let Batch {
            claims,
            filings,
            spent: _,
        } = self;
        claims.destroy_empty();
        filings.destroy_empty();
    }

    /// Works on the goals that were claimed, the last one first, by an expander that means what their tag says, and
    /// tells the gate of each. The only error is out of memory. The goals that weren't worked on stay claimed then.
    pub fn expand<T: Gate>(&mut self, alloc: Global, by: &E, gate: &T) -> Result<(), OutOfMemory>
        requires { All (λ c. E.tag by.now ≡ c.tag.by) self.old.claims }
        ensures all { OnOk result (self.new.claims ≡ []) }
        ensures work { KeepsWork self.old self.new }
        ensures batch { (t : Tag E.Tag E.Goal) (worker : ℕ)
            → IsBatchFor t worker self.old → IsBatchFor t worker self.new }
    {
        self.spent.clear();
        self.filings.reserve(self.claims.len())?;
        while let Some(claim) = self.claims.pop() {
            gate.at_claim(claim.worker(), claim.number());
            match claim.expand(alloc, by) {
                Ok(filed) => self.filings.push_reserved(filed),
                Err(claim) => {
                    self.claims.push_reserved(claim);
                    return Err(OutOfMemory);
                }
            }
        }
        Ok(())
    }

    // Files what was worked on, the last one first. What isn't held stays at hand. Where memory runs out for a filing, it
    // is spent and the table is stopped.
    pub(crate) fn file<L: Ledger>(&mut self, alloc: Global, table: &mut Table<E, L>)
        requires { All (λ f. f.claim.tag ≡ table.old.tag) self.old.filings }
        ensures batch { (worker : ℕ)
            → IsBatchFor table.old.tag worker self.old → IsBatchFor table.old.tag worker self.new }
        ensures claims { self.new.claims ≡ self.old.claims }
        ensures files { (table.new.stopped ≡ true)
            ⊎ FilesEach E.Goal.eq table.old (reverse self.old.filings) self.new.filings table.new }
        ensures tag { table.new.tag ≡ table.old.tag }
    {
        let mut others = Vec::new(alloc);
        while let Some(filed) = self.filings.pop() {
            file_one(alloc, table, filed, &mut others, &mut self.spent);
        }
        std::mem::replace(&mut self.filings, others).destroy_empty();
    }

    // Claims what the worker wants, and fewer goals where few rows are free, so that others find some, too. Where memory
    // runs out, the table is stopped.
    pub(crate) fn claim<L: Ledger>(
        &mut self,
        alloc: Global,
        table: &mut Table<E, L>,
        share: &mut Share<L>,
        worker: u32,
        wanted: Wanted,
    ) -> Told
        requires worker { worker ≤ table.old.tag.workers }
        requires part { 0 < share.old.parts }
        requires batch { IsBatchFor table.old.tag worker self.old }
        requires no_claims { self.old.claims ≡ [] }
        ensures batch { IsBatchFor table.old.tag worker self.new }
        ensures filings { self.new.filings ≡ self.old.filings }
        ensures stopped { table.old.stopped ≡ true → result ≡ Told.NoMemory }
        ensures large { result ≡ Told.TooLarge → IsLarge E.answers table.old.tag }
        ensures many { result ≡ Told.Many → self.new.claims ≡ [] }
        ensures tag { table.new.tag ≡ table.old.tag }
        ensures parts { share.new.parts ≡ share.old.parts }
        ensures amount { share.new.amount ≡ share.old.amount + length self.new.claims }
        ensures most { length self.new.claims ≤ wanted.most }
    {
        if table.stopped() {
            return Told::NoMemory;
        }
        if table.large() {
            return Told::TooLarge;
        }
        let free = table.unclaimed();
        if free >= wanted.below {
            return Told::Many;
        }
        let count = u64::from(wanted.most).min((free / ROWS_FOR_ONE_CLAIM).max(1));
        let Ok(()) = self.claims.reserve(count as usize) else {
            table.stop();
            return Told::NoMemory;
        };
        for _ in 0..count {
            match claim_one(alloc, table, share, worker) {
                Ok(claim) => self.claims.push_reserved(claim),
                Err(why) => return ends_with(&self.claims, why),
            }
        }
        ends_with(&self.claims, Told::Again)
    }

    // Spends all that is at hand.
    pub(crate) fn spend(&mut self)
        ensures { HasNothing self.new }
    {
        spend_claims(&mut self.claims);
        spend_filings(&mut self.filings);
    }
}

// Files one filing. What isn't held is put behind the others. Where memory runs out, the filing is spent and the table is
// stopped.
fn file_one<E: Expand, L: Ledger>(
    alloc: Global,
    table: &mut Table<E, L>,
    filed: Filed<E>,
    others: &mut Vec<Filed<E>>,
    spent: &mut Vec<Goals<E::Goal>>,
)
    requires { filed.claim.tag ≡ table.old.tag }
    ensures files { (table.new.stopped ≡ true) ⊎ ((left : List (FiledSeen E.Tag E.Goal))
        × Files E.Goal.eq table.old filed left table.new × (others.new.items ≡ others.old.items ++ left)) }
    ensures others { (others.new.items ≡ others.old.items) ⊎ (others.new.items ≡ others.old.items ++ filed ∷ []) }
    ensures stays_stopped { table.old.stopped ≡ true → table.new.stopped ≡ true }
    ensures tag { table.new.tag ≡ table.old.tag }
{
    match table.file(alloc, filed) {
        Ok(FileAnswer::Kept(goals)) => {
            // Where there is no memory to keep them, they are dropped here.
            let _ = spent.push(goals);
        }
        Ok(FileAnswer::TooLarge) => {}
        Ok(FileAnswer::NotHeld(filed)) => {
            if let Err(full) = others.push(filed) {
                table.stop();
                full.value.spend();
            }
        }
        Err(filed) => {
            table.stop();
            filed.spend();
        }
    }
}

// Claims one goal for the worker. The Err says why there is none. Where memory runs out, the table is stopped.
fn claim_one<E: Expand, L: Ledger>(
    alloc: Global,
    table: &mut Table<E, L>,
    share: &mut Share<L>,
    worker: u32,
) -> Result<Claim<E>, Told>
    requires worker { worker ≤ table.old.tag.workers }
    requires part { 0 < share.old.parts }
    ensures claim { IfOk result (IsClaimBy table.old.tag worker) }
    ensures large { IfErr result (λ told. told ≡ Told.TooLarge → IsLarge E.answers table.old.tag) }
    ensures few { IfErr result (λ told. told ≡ Told.Many → ⊥) }
    ensures tag { table.new.tag ≡ table.old.tag }
    ensures parts { share.new.parts ≡ share.old.parts }
    ensures one { OnOk result (share.new.amount ≡ share.old.amount + 1) }
    ensures none { OnErr result (share.new.amount ≡ share.old.amount) }
{
    match table.claim(alloc, share, worker) {
        Ok(ClaimAnswer::Job(claim)) => Ok(claim),
        Ok(ClaimAnswer::Again) => Err(Told::Again),
        Ok(ClaimAnswer::Finished) => Err(Told::Finished),
        Ok(ClaimAnswer::TooLarge) => Err(Told::TooLarge),
        Err(_) => {
            table.stop();
            Err(Told::NoMemory)
        }
    }
}

// That there is work, or why the worker has none.
fn ends_with<E: Expand>(claims: &Vec<Claim<E>>, why: Told) -> Told
    ensures large { result ≡ Told.TooLarge → why ≡ Told.TooLarge }
    ensures many { result ≡ Told.Many → why ≡ Told.Many }
{
    if claims.is_empty() { why } else { Told::Work }
}

fn spend_claims<E: Expand>(claims: &mut Vec<Claim<E>>)
    ensures { claims.new.items ≡ [] }
{
    while let Some(claim) = claims.pop() {
        claim.spend();
    }
}

fn spend_filings<E: Expand>(filings: &mut Vec<Filed<E>>)
    ensures { filings.new.items ≡ [] }
{
    while let Some(filed) = filings.pop() {
        filed.spend();
    }
}
