//! Queries, as they are spelled and as they are built.
use crate::word::{GoalWord, ListingWord};
use cls_base::{Name, Ty};
use cls_lexer::Numeral;
use cls_syntax::{MeasuredTy, SpelledTerm, SpelledType, SpelledTypes};
use cls_term::{CodedTerm, Term};

/// The most types that a batch may have.
pub const MAX_BATCH_TYPES: usize = 64;

/// A page that is asked for: its type is a `T`, its numbers are of type `D`, and its cursor is an `E`.
#[derive(Drop)]
pub struct Listing<T, D, E> {
    /// The type of its terms.
    pub goal: T,
    /// Their greatest size, from 1 to [`MAX_TERM_SIZE`](cls_base::limits::MAX_TERM_SIZE).
    pub max: D,
    /// How many there may be, from 1 to [`MAX_PAGE_TERMS`](cls_base::limits::MAX_PAGE_TERMS).
    pub take: D,
    /// The term after which the page begins.
    pub after: Option<E>,
}

/// What a line asks. Types that are compared are of type `C`, names of type `N`, terms of type `E`, other types of
/// type `T`, listings of type `L` and lists of types of type `S`.
#[derive(Drop)]
pub enum Query<C, N, E, T, L, S> {
    /// `sub TYPE <= TYPE`: whether the first type is below the second.
    Sub(C, C),
    /// `paths NAME`: the paths of the component.
    Paths(N),
    /// `typed TERM : TYPE`: whether the term has the type.
    Typed(E, T),
    /// `WORD TYPE`: what the word asks of the type.
    About(GoalWord, T),
    /// `WORD TYPE max N take K`, with `after TERM` at will: the page, as the word shows it.
    Page(ListingWord, L),
    /// `filtered NAME TYPE max N take K`, with `after TERM` at will: the page of the terms that the filter accepts.
    Filtered(N, L),
    /// `batch TYPE | TYPE ..`: of each type in turn whether some term has it. There are at most [`MAX_BATCH_TYPES`]
    /// of them.
    Batch(S),
}

/// A listing as it is spelled. Its numbers are any numerals.
pub type SpelledListing<'t, 'a> = Listing<SpelledType<'t, 'a>, Numeral<'a>, SpelledTerm<'t, 'a>>;

/// A query as it is spelled.
pub type SpelledQuery<'t, 'a> = Query<
    SpelledType<'t, 'a>,
    &'a str,
    SpelledTerm<'t, 'a>,
    SpelledType<'t, 'a>,
    SpelledListing<'t, 'a>,
    SpelledTypes<'t, 'a>,
>;

/// A listing with a type and a term in place of their texts. Its numbers are within their ranges.
pub type BuiltListing = Listing<Ty, u32, Term>;

/// A query with types and terms in place of their texts, and numbers in place of names.
pub type BuiltQuery = Query<MeasuredTy, Name, CodedTerm, Ty, BuiltListing, Vec<Ty>>;
