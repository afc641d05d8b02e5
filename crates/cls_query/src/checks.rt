//! The errors of a line that is a query: what its types, its numbers and the names of components decide.
ghost use Rattle.std.specs.Prelude.{◌≡◌, true, false, ◌+◌, ◌<◌, ◌≤◌, ◌^◌, None, Some, length, find, position, IfOk, IfSome, MatchOption, OnOk};
ghost use Rattle.std.specs.List.{list_any};
ghost use Rattle.std.specs.Option.{option_map, SomeIff};
ghost use Rattle.cls_lexer.specs.Numerals.{number_value};
ghost use Rattle.cls_lexer.specs.Words.{words_of};
ghost use Rattle.cls_syntax.specs.declared.role.Role.{Role};
ghost use Rattle.cls_syntax.specs.ClosedTypes.{HasNoDollar};
ghost use Rattle.cls_syntax.specs.Faults.{Says};
ghost use Rattle.cls_syntax.specs.Forms.{naming};
ghost use Rattle.cls_syntax.specs.SpelledTerms.{term_text};
ghost use Rattle.cls_syntax.specs.SpelledTypes.{type_text, types_text};
ghost use Rattle.cls_syntax.specs.TermTexts.{term_words};
ghost use Rattle.cls_term.specs.TokenFaults as faults;
ghost use Rattle.cls_query.specs.FormAnswers.{IsWithin, AreInRange, query_text, term_spelled, spelled_in, place_behind};
ghost use Rattle.cls_query.specs.Queries.{query_words, query_parts, QueryStands};
ghost use Rattle.cls_query.specs.QueryErrors.{query_types, list_of, is_large, is_excessive, is_absent, is_unknown, is_unknown_in_term};
ghost use Rattle.cls_query.specs.Steps.{type_errors, value_errors, Tests};

use crate::fault::LineFault;
use crate::greatest::greatest;
use crate::line::CutLine;
use crate::query::{Query, SpelledListing, SpelledQuery};
use crate::type_count::has_too_many_types;
use cls_base::limits::{MAX_PAGE_TERMS, MAX_TERM_SIZE};
use cls_lexer::{Names, Numeral};
use cls_syntax::{SpelledTerm, SpelledType, SpelledTypes, first_variable};
use cls_term::{CodedTerm, first_unknown, spelled_term};
use std::alloc::Global;

/// Whether the types of the query are small and without variables.
pub(crate) fn check_types<'t, 'a>(
    query: &SpelledQuery<'t, 'a>,
    line: &CutLine<'t, 'a>,
) -> Result<(), LineFault<'a>>
    requires { Says query_words QueryStands (query_text query.now) (words_of line.now.text.now) }
    ensures tested { Tests (type_errors line.now.text.now) result }
    ensures closed { OnOk result (HasNoDollar (words_of line.now.text.now)) }
{
    if has_large_type(query) {
        return Err(LineFault::TooManyNodes);
    }
    match first_variable(line.tokens) {
        Some(place) => Err(LineFault::Variable(line.byte(place))),
        None => Ok(()),
    }
}

/// Whether the numbers of the query are in their ranges and its names known, and then its term, if it has one. Each
/// name of the term is looked up once, or once more where one is unknown, to find the first of these.
pub(crate) fn check_values<'t, 'a>(
    alloc: Global,
    query: &SpelledQuery<'t, 'a>,
    components: &Names,
    filters: &Names,
    line: &CutLine<'t, 'a>,
) -> Result<Option<CodedTerm>, LineFault<'a>>
    requires { Says query_words QueryStands (query_text query.now) (words_of line.now.text.now) }
    ensures tested { Tests (value_errors line.now.text.now components.now filters.now) result }
    ensures in_range { OnOk result (is_excessive (query_text query.now) ≡ false) }
    ensures term { IfOk result (λ term. term ≡ option_map (spelled_in components.now) (term_spelled query.now)) }
{
    if is_excessive(query, line) {
        return Err(LineFault::OutOfRange);
    }
    if let Some(name) = unknown(query, components, filters) {
        return Err(LineFault::UnknownName(name));
    }
    let Some(spelled) = term(query) else {
        return Ok(None);
    };
    // An unknown name gets the number of components, which no component has.
    let term = spelled_term(alloc, components, &spelled)?;
    if greatest(&term) < components.len() {
        return Ok(Some(term));
    }
    match unknown_in_term(query, components, line.tokens.len()) {
        Some(place) => Err(LineFault::UnknownInTerm(line.byte(place))),
        None => Ok(Some(term)),
    }
}

/// The term of the query, if it has one.
fn term<'t, 'a>(query: &SpelledQuery<'t, 'a>) -> Option<SpelledTerm<'t, 'a>>
    ensures { result ≡ term_spelled query.now }
{
    match query {
        Query::Typed(term, _) => Some(*term),
        Query::Page(_, listing) => listing.after,
        Query::Filtered(_, listing) => listing.after,
        _ => None,
    }
}

/// Whether one of the types of the query has too many nodes.
fn has_large_type(query: &SpelledQuery) -> bool
    ensures { result ≡ list_any is_large (query_types (query_text query.now)) }
{
    match query {
        Query::Sub(lower, upper) => is_large(lower) || is_large(upper),
        Query::Paths(_) => false,
        Query::Typed(_, ty) => is_large(ty),
        Query::About(_, goal) => is_large(goal),
        Query::Page(_, listing) => has_large_goal(listing),
        Query::Filtered(_, listing) => has_large_goal(listing),
        Query::Batch(types) => has_large_among(types),
    }
}

/// Whether one of the types has too many nodes.
fn has_large_among(types: &SpelledTypes) -> bool
    ensures { result ≡ list_any is_large (list_of (types_text types.now)) }
{
    !types.are_small()
}

/// Whether the type of the listing has too many nodes.
fn has_large_goal(listing: &SpelledListing) -> bool
    ensures { result ≡ is_large (type_text listing.now.goal) }
{
    is_large(&listing.goal)
}

/// Whether one of the numbers of the query isn't in its range, or it is a batch of too many types.
fn is_excessive(query: &SpelledQuery, line: &CutLine) -> bool
    requires { Says query_words QueryStands (query_text query.now) (words_of line.now.text.now) }
    ensures { result ≡ is_excessive (query_text query.now) }
{
    match query {
        Query::Sub(..) => false,
        Query::Paths(_) => false,
        Query::Typed(..) => false,
        Query::About(..) => false,
        Query::Page(_, listing) => numbers(listing).is_none(),
        Query::Filtered(_, listing) => numbers(listing).is_none(),
        Query::Batch(_) => has_too_many_types(line.tokens),
    }
}

/// The name outside of terms that the query has of a component or a filter, if there is none of this name.
fn unknown<'a>(query: &SpelledQuery<'_, 'a>, components: &Names, filters: &Names) -> Option<&'a str>
    ensures { let found = find (is_unknown components.now filters.now) (query_parts (query_text query.now)) in
        MatchOption result (found ≡ None) (λ name. (role : Role) × (found ≡ Some (naming role name.now))) }
{
    match query {
        Query::Sub(..) => None,
        Query::Paths(name) => absent(components, name),
        Query::Typed(..) => None,
        Query::About(..) => None,
        Query::Page(..) => None,
        Query::Filtered(name, _) => absent(filters, name),
        Query::Batch(_) => None,
    }
}

/// The name, if it isn't in the table.
pub(crate) fn absent<'a>(table: &Names, name: &'a str) -> Option<&'a str>
    ensures { MatchOption result (is_absent table.now name.now ≡ false)
        (λ absent. (is_absent table.now name.now ≡ true) × (absent.now ≡ name.now)) }
{
    match table.find(name) {
        Some(_) => None,
        None => Some(name),
    }
}

/// The place of the first name in the term of the query that is no component. The line has so many tokens.
fn unknown_in_term(query: &SpelledQuery, components: &Names, count: usize) -> Option<usize>
    requires { length (query_parts (query_text query.now)) ≡ count }
    ensures { result ≡ position (is_unknown_in_term components.now) (query_parts (query_text query.now)) }
{
    match query {
        Query::Sub(..) => None,
        Query::Paths(_) => None,
        Query::Typed(term, _) => unknown_behind(components, term, 1),
        Query::About(..) => None,
        Query::Page(_, listing) => unknown_in_cursor(components, &listing.after, count),
        Query::Filtered(_, listing) => unknown_in_cursor(components, &listing.after, count),
        Query::Batch(_) => None,
    }
}

/// The place of the first name of the cursor, if there is one, that is no component. It ends a line of so many tokens.
fn unknown_in_cursor(components: &Names, after: &Option<SpelledTerm>, count: usize) -> Option<usize>
    requires { IfSome after.now (λ term. length (term_words (term_text term)) ≤ count) }
    ensures { result ≡ place_behind components.now count after.now }
{
    match after {
        Some(term) => unknown_behind(components, term, count - term.as_slice().len()),
        None => None,
    }
}

/// The numbers behind `max` and `take`, if both are in their ranges.
pub(crate) fn numbers(listing: &SpelledListing) -> Option<(u32, u32)>
    ensures { SomeIff result (AreInRange listing.now.max.text.now listing.now.take.text.now)
        (number_value listing.now.max.text.now, number_value listing.now.take.text.now) }
{
    let max = number_within(&listing.max, MAX_TERM_SIZE)?;
    let take = number_within(&listing.take, MAX_PAGE_TERMS)?;
    Some((max, take))
}

/// The number, if it is from 1 to the greatest one.
fn number_within(numeral: &Numeral, greatest: u32) -> Option<u32>
    ensures { SomeIff result (IsWithin greatest numeral.now.text.now) (number_value numeral.now.text.now) }
{
    match numeral.value() {
        Some(number) if 1 <= number && number <= greatest => Some(number),
        _ => None,
    }
}

/// Whether the type has too many nodes.
fn is_large(spelled: &SpelledType) -> bool
    ensures { result ≡ is_large (type_text spelled.now) }
{
    !spelled.is_small()
}

/// The place of the first name of the term that is no component, where so many tokens stand before the term.
fn unknown_behind(components: &Names, term: &SpelledTerm, before: usize) -> Option<usize>
    requires { before + length (term_words (term_text term.now)) < 2 ^ 64 }
    ensures { result ≡ option_map (λ place. before + place)
        (position (faults.is_unknown components.now) (term_words (term_text term.now))) }
{
    let place = first_unknown(components, term.as_slice())?;
    Some(before + place)
}
