//! The words that queries begin with.
ghost use Rattle.std.specs.Prelude.{◌≡◌, None, Some, MatchOption};
ghost use Rattle.cls_lexer.specs.Words.{words};
ghost use Rattle.cls_query.specs.QueryReading.{goal_front, listing_front, query_front};

use cls_lexer::Token;
use cls_syntax::word_at;

/// A word that stands before one type.
#[derive(Clone, Copy, Debug)]
pub enum GoalWord {
    /// Whether a term has the type.
    Inhabit,
    /// The tree grammar of the terms of the type.
    Grammar,
    /// Which worker took and stored which row.
    Audit,
    /// A certificate that a term has the type, or that none has.
    Certify,
    /// Whether the certificate that follows is one for the type.
    Verify,
    /// How large the terms of the type are.
    Finite,
}

/// A word that stands before a listing.
#[derive(Clone, Copy, Debug)]
pub enum ListingWord {
    /// A page of terms.
    List,
    /// A page of terms with their texts.
    Texts,
}

/// The first word of a query. It decides what follows.
#[derive(Clone, Copy, Debug)]
pub enum QueryWord {
    /// Two types follow, with `<=` between them.
    Sub,
    /// The name of a component follows.
    Paths,
    /// A term and a type follow, with `:` between them.
    Typed,
    /// The name of a filter and a listing follow.
    Filtered,
    /// Types follow, with `|` between them.
    Batch,
    /// A type follows.
    About(GoalWord),
    /// A listing follows.
    Page(ListingWord),
}

/// The word of a query that the tokens begin with, and the tokens after it.
pub(crate) fn query_word<'t, 'a>(tokens: &'t [Token<'a>]) -> Option<(QueryWord, &'t [Token<'a>])>
    ensures { MatchOption result (query_front (words tokens.now) ≡ None)
        (λ x. query_front (words tokens.now) ≡ Some (x.0, words x.1.now)) }
{
    if let Ok(rest) = word_at(tokens, "sub") {
        return Some((QueryWord::Sub, rest));
    }
    if let Ok(rest) = word_at(tokens, "paths") {
        return Some((QueryWord::Paths, rest));
    }
    if let Ok(rest) = word_at(tokens, "typed") {
        return Some((QueryWord::Typed, rest));
    }
    if let Ok(rest) = word_at(tokens, "filtered") {
        return Some((QueryWord::Filtered, rest));
    }
    if let Ok(rest) = word_at(tokens, "batch") {
        return Some((QueryWord::Batch, rest));
    }
    match goal_word(tokens) {
        Some((word, rest)) => Some((QueryWord::About(word), rest)),
        None => match listing_word(tokens) {
            Some((word, rest)) => Some((QueryWord::Page(word), rest)),
            None => None,
        },
    }
}

/// The same for a word that stands before a type.
fn goal_word<'t, 'a>(tokens: &'t [Token<'a>]) -> Option<(GoalWord, &'t [Token<'a>])>
    ensures { MatchOption result (goal_front (words tokens.now) ≡ None)
        (λ x. goal_front (words tokens.now) ≡ Some (x.0, words x.1.now)) }
{
    if let Ok(rest) = word_at(tokens, "inhabit") {
        return Some((GoalWord::Inhabit, rest));
    }
    if let Ok(rest) = word_at(tokens, "grammar") {
        return Some((GoalWord::Grammar, rest));
    }
    if let Ok(rest) = word_at(tokens, "audit") {
        return Some((GoalWord::Audit, rest));
    }
    if let Ok(rest) = word_at(tokens, "certify") {
        return Some((GoalWord::Certify, rest));
    }
    if let Ok(rest) = word_at(tokens, "verify") {
        return Some((GoalWord::Verify, rest));
    }
    if let Ok(rest) = word_at(tokens, "finite") {
        return Some((GoalWord::Finite, rest));
    }
    None
}

/// The same for a word that stands before a listing.
fn listing_word<'t, 'a>(tokens: &'t [Token<'a>]) -> Option<(ListingWord, &'t [Token<'a>])>
    ensures { MatchOption result (listing_front (words tokens.now) ≡ None)
        (λ x. listing_front (words tokens.now) ≡ Some (x.0, words x.1.now)) }
{
    if let Ok(rest) = word_at(tokens, "list") {
        return Some((ListingWord::List, rest));
    }
    if let Ok(rest) = word_at(tokens, "texts") {
        return Some((ListingWord::Texts, rest));
    }
    None
}
