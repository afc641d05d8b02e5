//! The replies to queries: what the engine answers, in lines.
ghost use Rattle.std.specs.Prelude.{◌≡◌, ◌<◌, ◌≤◌, ◌^◌, All, length, map, IfOk, IfErr, OnOk, OnErr, string_bytes};
ghost use Rattle.cls_base.specs.Firsts.{First, IsSilent};
ghost use Rattle.cls_base.specs.Terms.{IsTermOver};
ghost use Rattle.cls_base.specs.Ty.{type_of};
ghost use Rattle.cls_syntax.specs.MeasuredTypes.{measured_type};
ghost use Rattle.cls_proof.specs.Seen.{certificate_of};
ghost use Rattle.cls_check.specs.Verdicts.{rows_in};
ghost use Rattle.cls_query.specs.declared.query.Query.TheVariants as queries;
ghost use Rattle.cls_query.specs.Queries.{sub, typed, inhabit, grammar, audit, certify, finite, list, texts, filtered, batch};
ghost use Rattle.cls_query.specs.QueryForms.{max_batch_types};
ghost use Rattle.cls_query.specs.Readable.{IsPageAsked, IsVerify};
ghost use Rattle.cls_query.specs.ReadQueries.{listing_of, asked_of};
ghost use Rattle.cls_engine.specs.Faults.{IsFaultOf};
ghost use Rattle.cls_replies.specs.Answering.{Answers, Judges};
ghost use Rattle.cls_replies.specs.Errors.{faults_of};
ghost use Rattle.cls_replies.specs.Printing.{IsPrintable, left_of};
ghost use Rattle.cls_replies.specs.Steps.{IsAnswerTo, IsPageOf, IsFilteredPageOf, IsReadableBy};

use crate::batches::batch_lines;
use crate::faults::engine_fault;
use crate::printing::{
    Printing, certificate_printing, fault_printing, grammar_printing, history_printing,
    paths_printing, sizes_printing, terms_printing, text_printing, texts_printing,
};
use crate::responder::Responder;
use crate::words::{says, verdict_line};
use cls_base::{Gate, Name, OutOfMemory, Ty};
use cls_engine::{EngineFault, Host};
use cls_enum::Page;
use cls_proof::Certificate;
use cls_query::{BuiltListing, BuiltQuery, GoalWord, Listing, ListingWord, Query};
use cls_syntax::MeasuredTy;
use cls_term::CodedTerm;
use std::alloc::Global;
use std::sync::Wait;
use std::thread::Threads;

impl Responder {
    /// What is written for a query that is one by itself.
    pub(crate) fn answer<R: Threads + Wait + Sync, G: Gate + Sync>(
        &mut self,
        host: &Host<R, G>,
        query: &BuiltQuery,
    ) -> Result<Printing, OutOfMemory>
        requires readable { IsReadableBy self.old (asked_of query.now) }
        requires not_verify { IsVerify (asked_of query.now) → ⊥ }
        ensures answers { IfOk result (λ p. Answers self.old (asked_of query.now) (left_of self.new p) self.new) }
        ensures printable { IfOk result (IsPrintable self.new) }
        ensures same_held { OnOk result (self.new.held ≡ self.old.held) }
        ensures unchanged { OnErr result (self.new ≡ self.old) }
    {
        match query {
            Query::Sub(lower, upper) => text_printing(self.sub(host.alloc, lower, upper)),
            Query::Paths(name) => Ok(paths_printing(name.0)),
            Query::Typed(term, ty) => text_printing(self.typed(host.alloc, term, ty)),
            Query::About(asks, ty) => self.about(host, *asks, ty),
            Query::Page(asks, listing) => self.show(host, *asks, listing),
            Query::Filtered(filter, listing) => self.filtered(host, *filter, listing),
            Query::Batch(types) => text_printing(self.batch(host, types.as_slice())),
        }
    }

    /// What is written for a query about the type.
    fn about<R: Threads + Wait + Sync, G: Gate + Sync>(
        &mut self,
        host: &Host<R, G>,
        asks: GoalWord,
        ty: &Ty,
    ) -> Result<Printing, OutOfMemory>
        requires { IsVerify (queries.About asks (type_of ty.now)) → ⊥ }
        ensures answers { IfOk result (IsAnswerTo self.old (queries.About asks (type_of ty.now))) }
        ensures printable { IfOk result (IsPrintable self.old) }
        ensures same { self.new ≡ self.old }
    {
        match asks {
            GoalWord::Inhabit => text_printing(self.inhabit(host, ty)),
            GoalWord::Grammar => self.grammar(host, ty),
            GoalWord::Audit => self.audit(host, ty),
            GoalWord::Certify => self.certify(host, ty),
            GoalWord::Verify => unreachable!(),
            GoalWord::Finite => self.finite(host, ty),
        }
    }

    /// What is written for a query for the page.
    fn show<R: Threads + Wait + Sync, G: Gate + Sync>(
        &mut self,
        host: &Host<R, G>,
        asks: ListingWord,
        listing: &BuiltListing,
    ) -> Result<Printing, OutOfMemory>
        requires { IsPageAsked (length self.old.components) (listing_of listing.now) }
        ensures answers { IfOk result (IsAnswerTo self.old (queries.Page asks (listing_of listing.now))) }
        ensures printable { IfOk result (IsPrintable self.old) }
        ensures same { self.new ≡ self.old }
    {
        match asks {
            ListingWord::List => self.list(host, listing),
            ListingWord::Texts => self.texts(host, listing),
        }
    }

    fn sub(
        &mut self,
        alloc: Global,
        lower: &MeasuredTy,
        upper: &MeasuredTy,
    ) -> Result<String, OutOfMemory>
        ensures answers { IfOk result (λ text.
            Answers self.old (sub (measured_type lower.now) (measured_type upper.now)) (string_bytes text) self.old) }
        ensures same { self.new ≡ self.old }
    {
        match self.engine.subtype(alloc, lower, upper) {
            Ok(yes) => says(self.empty_text(alloc), yes, "yes", "no"),
            Err(fault) => engine_fault(alloc, &self.names, fault),
        }
    }

    fn typed(&mut self, alloc: Global, term: &CodedTerm, ty: &Ty) -> Result<String, OutOfMemory>
        requires { IsTermOver (length self.old.components) term.now }
        ensures answers { IfOk result (λ text.
            Answers self.old (typed term.now (type_of ty.now)) (string_bytes text) self.old) }
        ensures same { self.new ≡ self.old }
    {
        match self.engine.typed(alloc, term, ty) {
            Ok(yes) => says(self.empty_text(alloc), yes, "yes", "no"),
            Err(fault) => engine_fault(alloc, &self.names, fault),
        }
    }

    fn inhabit<R: Threads + Wait + Sync, G: Gate + Sync>(
        &mut self,
        host: &Host<R, G>,
        ty: &Ty,
    ) -> Result<String, OutOfMemory>
        ensures answers { IfOk result (λ text.
            Answers self.old (inhabit (type_of ty.now)) (string_bytes text) self.old) }
        ensures same { self.new ≡ self.old }
    {
        match self.engine.inhabit(host, ty) {
            Ok(yes) => says(self.empty_text(host.alloc), yes, "inhabited", "uninhabited"),
            Err(fault) => engine_fault(host.alloc, &self.names, fault),
        }
    }

    fn grammar<R: Threads + Wait + Sync, G: Gate + Sync>(
        &mut self,
        host: &Host<R, G>,
        ty: &Ty,
    ) -> Result<Printing, OutOfMemory>
        ensures answers { IfOk result (IsAnswerTo self.old (grammar (type_of ty.now))) }
        ensures printable { IfOk result (IsPrintable self.old) }
        ensures same { self.new ≡ self.old }
    {
        match self.engine.grammar(host, ty) {
            Ok(grammar) => grammar_printing(host.alloc, grammar),
            Err(fault) => fault_printing(host.alloc, &self.names, fault),
        }
    }

    fn audit<R: Threads + Wait + Sync, G: Gate + Sync>(
        &mut self,
        host: &Host<R, G>,
        ty: &Ty,
    ) -> Result<Printing, OutOfMemory>
        ensures answers { IfOk result (IsAnswerTo self.old (audit (type_of ty.now))) }
        ensures printable { IfOk result (IsPrintable self.old) }
        ensures same { self.new ≡ self.old }
    {
        match self.engine.audit(host, ty) {
            Ok(history) => Ok(history_printing(history)),
            Err(fault) => fault_printing(host.alloc, &self.names, fault),
        }
    }

    fn certify<R: Threads + Wait + Sync, G: Gate + Sync>(
        &mut self,
        host: &Host<R, G>,
        ty: &Ty,
    ) -> Result<Printing, OutOfMemory>
        ensures answers { IfOk result (IsAnswerTo self.old (certify (type_of ty.now))) }
        ensures printable { IfOk result (IsPrintable self.old) }
        ensures same { self.new ≡ self.old }
    {
        match self.engine.grammar(host, ty) {
            Ok(grammar) => {
                let lib = self.engine.library();
                // For the prover: what holds of each library.
                let _count = lib.count();
                certificate_printing(host.alloc, lib, grammar)
            }
            Err(fault) => fault_printing(host.alloc, &self.names, fault),
        }
    }

    fn finite<R: Threads + Wait + Sync, G: Gate + Sync>(
        &mut self,
        host: &Host<R, G>,
        ty: &Ty,
    ) -> Result<Printing, OutOfMemory>
        ensures answers { IfOk result (IsAnswerTo self.old (finite (type_of ty.now))) }
        ensures printable { IfOk result (IsPrintable self.old) }
        ensures same { self.new ≡ self.old }
    {
        match self.engine.finite(host, ty) {
            Ok(sizes) => sizes_printing(host.alloc, sizes),
            Err(fault) => fault_printing(host.alloc, &self.names, fault),
        }
    }

    fn list<R: Threads + Wait + Sync, G: Gate + Sync>(
        &mut self,
        host: &Host<R, G>,
        listing: &BuiltListing,
    ) -> Result<Printing, OutOfMemory>
        requires { IsPageAsked (length self.old.components) (listing_of listing.now) }
        ensures answers { IfOk result (IsAnswerTo self.old (list (listing_of listing.now))) }
        ensures printable { IfOk result (IsPrintable self.old) }
        ensures same { self.new ≡ self.old }
    {
        match self.page(host, listing) {
            Ok(page) => Ok(terms_printing(page)),
            Err(fault) => fault_printing(host.alloc, &self.names, fault),
        }
    }

    fn texts<R: Threads + Wait + Sync, G: Gate + Sync>(
        &mut self,
        host: &Host<R, G>,
        listing: &BuiltListing,
    ) -> Result<Printing, OutOfMemory>
        requires { IsPageAsked (length self.old.components) (listing_of listing.now) }
        ensures answers { IfOk result (IsAnswerTo self.old (texts (listing_of listing.now))) }
        ensures printable { IfOk result (IsPrintable self.old) }
        ensures same { self.new ≡ self.old }
    {
        match self.page(host, listing) {
            Ok(page) => Ok(texts_printing(page)),
            Err(fault) => fault_printing(host.alloc, &self.names, fault),
        }
    }

    /// The page that is asked for.
    fn page<R: Threads + Wait + Sync, G: Gate + Sync>(
        &mut self,
        host: &Host<R, G>,
        listing: &BuiltListing,
    ) -> Result<Page, EngineFault>
        requires { IsPageAsked (length self.old.components) (listing_of listing.now) }
        ensures page { IfOk result (IsPageOf self.old (listing_of listing.now)) }
        ensures over { IfOk result (λ page. All (IsTermOver (length self.old.components)) page.terms) }
        ensures silent { OnOk result (IsSilent (First (faults_of self.old (list (listing_of listing.now))))) }
        ensures fault { IfErr result (IsFaultOf (faults_of self.old (list (listing_of listing.now)))) }
        ensures same { self.new ≡ self.old }
    {
        let Listing {
            goal,
            max,
            take,
            after,
        } = listing;
        self.engine.list(host, goal, after.as_ref(), *max, *take)
    }

    fn filtered<R: Threads + Wait + Sync, G: Gate + Sync>(
        &mut self,
        host: &Host<R, G>,
        filter: Name,
        listing: &BuiltListing,
    ) -> Result<Printing, OutOfMemory>
        requires there { filter.0 < length self.old.filter_names }
        requires asked { IsPageAsked (length self.old.components) (listing_of listing.now) }
        ensures answers { IfOk result (IsAnswerTo self.old (filtered filter.0 (listing_of listing.now))) }
        ensures printable { IfOk result (IsPrintable self.old) }
        ensures same { self.new ≡ self.old }
    {
        match self.filtered_page(host, filter, listing) {
            Ok(page) => Ok(terms_printing(page)),
            Err(fault) => fault_printing(host.alloc, &self.names, fault),
        }
    }

    /// The page that is asked for, of the terms that the filter accepts.
    fn filtered_page<R: Threads + Wait + Sync, G: Gate + Sync>(
        &mut self,
        host: &Host<R, G>,
        filter: Name,
        listing: &BuiltListing,
    ) -> Result<Page, EngineFault>
        requires there { filter.0 < length self.old.filter_names }
        requires asked { IsPageAsked (length self.old.components) (listing_of listing.now) }
        ensures page { IfOk result (IsFilteredPageOf self.old filter.0 (listing_of listing.now)) }
        ensures silent { OnOk result
            (IsSilent (First (faults_of self.old (filtered filter.0 (listing_of listing.now))))) }
        ensures fault { IfErr result (IsFaultOf (faults_of self.old (filtered filter.0 (listing_of listing.now)))) }
        ensures same { self.new ≡ self.old }
    {
        let Listing {
            goal,
            max,
            take,
            after,
        } = listing;
        let by = self.filters.filter(filter.0);
        self.engine
            .filtered(host, goal, by, after.as_ref(), *max, *take)
    }

    fn batch<R: Threads + Wait + Sync, G: Gate + Sync>(
        &mut self,
        host: &Host<R, G>,
        types: &[Ty],
    ) -> Result<String, OutOfMemory>
        requires some { 1 ≤ length types.now }
        requires few { length types.now ≤ max_batch_types }
        ensures answers { IfOk result (λ text.
            Answers self.old (batch (map type_of types.now)) (string_bytes text) self.old) }
        ensures same { self.new ≡ self.old }
    {
        match self.engine.batch(host, types) {
            Ok(says) => batch_lines(self.empty_text(host.alloc), says),
            Err(fault) => engine_fault(host.alloc, &self.names, fault),
        }
    }

    /// What is written for a certificate of the goal.
    pub(crate) fn judge(
        &self,
        alloc: Global,
        goal: &Ty,
        certificate: &Certificate,
    ) -> Result<String, OutOfMemory>
        requires { rows_in (certificate_of certificate.now) < 2 ^ 32 }
        ensures { IfOk result (λ text.
            Judges self.now (type_of goal.now) (certificate_of certificate.now) (string_bytes text)) }
    {
        match self.engine.verify(alloc, goal, certificate) {
            Ok(verdict) => verdict_line(alloc, verdict),
            Err(fault) => engine_fault(alloc, &self.names, fault),
        }
    }
}
