//! Types, terms and numbers in place of the texts of a query.
ghost use Rattle.std.specs.Prelude.{◌≡◌, false, [], IfOk, OnOk, OnErr, map};
ghost use Rattle.std.specs.List.{AllByRecursion};
ghost use Rattle.std.specs.Option.{option_map};
ghost use Rattle.cls_base.specs.Ty.{type_of};
ghost use Rattle.cls_lexer.specs.declared.token.TokenKind.TheVariants.{Bar};
ghost use Rattle.cls_lexer.specs.Names.{with_texts};
ghost use Rattle.cls_syntax.specs.ClosedTypes.{HasNoDollar};
ghost use Rattle.cls_syntax.specs.Forms.{types_parts, constructors_named};
ghost use Rattle.cls_syntax.specs.MeasuredTypes.{measured_type};
ghost use Rattle.cls_syntax.specs.SpelledTypes.{type_text, types_text, words_in};
ghost use Rattle.cls_syntax.specs.TypeLists.{types_words};
ghost use Rattle.cls_syntax.specs.TypeSchemas.{with_constructors};
ghost use Rattle.cls_syntax.specs.TypeTexts.{type_words};
ghost use Rattle.cls_query.specs.FormAnswers.{AreInRange, listing_text, query_text, term_spelled, spelled_in};
ghost use Rattle.cls_query.specs.Queries.{query_parts, tables_of, with_names, type_in, types_in, listing_of, query_of};
ghost use Rattle.cls_query.specs.QueryErrors.{query_types, is_excessive};
ghost use Rattle.cls_query.specs.ReadQueries.{asked_of};
ghost use Rattle.cls_query.specs.ReadQueries as answers;

use crate::checks::numbers;
use crate::query::{BuiltListing, BuiltQuery, Listing, Query, SpelledListing, SpelledQuery};
use cls_base::{OutOfMemory, Ty};
use cls_lexer::Names;
use cls_syntax::{MeasuredTy, SpelledType, SpelledTypes};
use cls_term::{CodedTerm, Term};
use std::alloc::Global;

/// The query with types, terms and numbers in place of its texts. Its term is this one. The names of its constructors are
/// numbered in the order of its tokens. The only error is out of memory, and leaves the table as before.
pub(crate) fn build(
    alloc: Global,
    query: &SpelledQuery,
    constructors: &mut Names,
    components: &Names,
    filters: &Names,
    term: Option<CodedTerm>,
) -> Result<BuiltQuery, OutOfMemory>
    requires closed { AllByRecursion (λ t. HasNoDollar (type_words t)) (query_types (query_text query.now)) }
    requires in_range { is_excessive (query_text query.now) ≡ false }
    requires term { term ≡ option_map (spelled_in components.now) (term_spelled query.now) }
    ensures query { IfOk result (λ built. asked_of built
        ≡ query_of (tables_of constructors.new [] components.now filters.now) (query_text query.now)) }
    ensures constructors { OnOk result (constructors.new
        ≡ with_names constructors.old (query_parts (query_text query.now))) }
    ensures stay { OnErr result (constructors.new ≡ constructors.old) }
{
    match query {
        Query::Sub(lower, upper) => {
            let (lower, upper) = both_types(alloc, constructors, lower, upper)?;
            Ok(Query::Sub(lower, upper))
        }
        Query::Paths(name) => Ok(Query::Paths(components.number(name))),
        Query::Typed(_, spelled) => {
            let Some(term) = term else { unreachable!() };
            let ty = closed(alloc, constructors, spelled)?;
            Ok(Query::Typed(term, ty))
        }
        Query::About(asks, spelled) => {
            let goal = closed(alloc, constructors, spelled)?;
            Ok(Query::About(*asks, goal))
        }
        Query::Page(asks, spelled) => {
            let page = page(alloc, constructors, spelled, term)?;
            Ok(Query::Page(*asks, page))
        }
        Query::Filtered(name, spelled) => {
            let page = page(alloc, constructors, spelled, term)?;
            Ok(Query::Filtered(filters.number(name), page))
        }
        Query::Batch(spelled) => {
            let types = all_types(alloc, constructors, spelled)?;
            Ok(Query::Batch(types))
        }
    }
}

/// The type that is spelled. Its names are numbered in the order of its tokens. The only error is out of memory, and leaves
/// the table as before.
fn closed(alloc: Global, constructors: &mut Names, spelled: &SpelledType) -> Result<Ty, OutOfMemory>
    requires { HasNoDollar (words_in spelled.now) }
    ensures ty { IfOk result (λ ty. type_of ty ≡ type_in constructors.new (type_text spelled.now)) }
    ensures constructors { OnOk result
        (constructors.new ≡ with_constructors constructors.old (words_in spelled.now)) }
    ensures stay { OnErr result (constructors.new ≡ constructors.old) }
{
    let ty = spelled.ty(alloc, constructors)?;
    Ok(ty)
}

/// The types that are spelled. Their names are numbered in the order of their tokens. The only error is out of
/// memory, and leaves the table as before.
fn all_types(
    alloc: Global,
    constructors: &mut Names,
    spelled: &SpelledTypes,
) -> Result<Vec<Ty>, OutOfMemory>
    requires { HasNoDollar (types_words Bar (types_text spelled.now)) }
    ensures types { IfOk result (λ types.
        map type_of types.items ≡ types_in constructors.new (types_text spelled.now)) }
    ensures constructors { OnOk result (constructors.new
        ≡ with_texts constructors.old (constructors_named (types_parts (types_text spelled.now)))) }
    ensures stay { OnErr result (constructors.new ≡ constructors.old) }
{
    let before = constructors.len();
    match spelled.types(alloc, constructors) {
        Ok(types) => Ok(types),
        Err(fault) => {
            constructors.cut(before);
            Err(fault)
        }
    }
}

/// The term as a tree, if there is one. The only error is out of memory.
fn tree(alloc: Global, term: Option<CodedTerm>) -> Result<Option<Term>, OutOfMemory>
    ensures { IfOk result (λ tree. tree ≡ term) }
{
    match term {
        Some(term) => Ok(Some(term.term(alloc)?)),
        None => Ok(None),
    }
}

/// The page that is asked for, after this term. The names of its type are numbered in the order of its tokens. The only
/// error is out of memory, and leaves the table as before.
fn page(
    alloc: Global,
    constructors: &mut Names,
    spelled: &SpelledListing,
    term: Option<CodedTerm>,
) -> Result<BuiltListing, OutOfMemory>
    requires closed { HasNoDollar (words_in spelled.now.goal) }
    requires in_range { AreInRange spelled.now.max.text.now spelled.now.take.text.now }
    ensures page { IfOk result (λ page. (components : _)
        → term ≡ option_map (spelled_in components) spelled.now.after
        → answers.listing_of page
        ≡ listing_of (tables_of constructors.new [] components []) (listing_text spelled.now)) }
    ensures constructors { OnOk result (constructors.new
        ≡ with_constructors constructors.old (words_in spelled.now.goal)) }
    ensures stay { OnErr result (constructors.new ≡ constructors.old) }
{
    let Some((max, take)) = numbers(spelled) else {
        unreachable!()
    };
    let after = tree(alloc, term)?;
    let goal = closed(alloc, constructors, &spelled.goal)?;
    Ok(Listing {
        goal,
        max,
        take,
        after,
    })
}

/// Both types, with the names of the first one numbered first. The only error is out of memory, and leaves the table as
/// before.
fn both_types(
    alloc: Global,
    constructors: &mut Names,
    lower: &SpelledType,
    upper: &SpelledType,
) -> Result<(MeasuredTy, MeasuredTy), OutOfMemory>
    requires lower { HasNoDollar (words_in lower.now) }
    requires upper { HasNoDollar (words_in upper.now) }
    ensures lower { IfOk result (λ r. measured_type r.0 ≡ type_in constructors.new (type_text lower.now)) }
    ensures upper { IfOk result (λ r. measured_type r.1 ≡ type_in constructors.new (type_text upper.now)) }
    ensures constructors { OnOk result (constructors.new
        ≡ with_constructors (with_constructors constructors.old (words_in lower.now)) (words_in upper.now)) }
    ensures stay { OnErr result (constructors.new ≡ constructors.old) }
{
    let count = constructors.len();
    let lower = lower.measured_ty(alloc, constructors)?;
    match upper.measured_ty(alloc, constructors) {
        Ok(upper) => Ok((lower, upper)),
        Err(fault) => {
            constructors.cut(count);
            Err(fault)
        }
    }
}
