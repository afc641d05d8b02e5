//! Queries as they are spelled. Each is read from the left, by the form of its first word.
ghost use Rattle.std.specs.Option.{option_map};
ghost use Rattle.cls_lexer.specs.Words.{words};
ghost use Rattle.cls_syntax.specs.Forms.{perhaps};
ghost use Rattle.cls_syntax.specs.Readings.{Reads};
ghost use Rattle.cls_syntax.specs.SpelledTerms.{term_text};
ghost use Rattle.cls_syntax.specs.SpelledTypes.{type_text};
ghost use Rattle.cls_query.specs.QueryForms.{comparison_form, component_form, typing_form, goal_form, cursor_form, listing_form, filtered_form};
ghost use Rattle.cls_query.specs.QueryReading.{query_after, query_read, Gives};

use crate::query::{Listing, Query, SpelledListing, SpelledQuery};
use crate::word::{QueryWord, query_word};
use cls_lexer::{Token, TokenKind};
use cls_syntax::{
    Role, SpelledTerm, SpelledType, Stop, end_at, name_at, number_at, sign_at, term_at, type_at,
    types_at, word_at,
};

/// Reads a query.
pub(crate) fn spelled_query<'t, 'a>(
    tokens: &'t [Token<'a>],
) -> Result<SpelledQuery<'t, 'a>, Stop<'t, 'a>>
    ensures { Gives (query_read (words tokens.now)) result }
{
    match query_word(tokens) {
        Some((word, rest)) => query_after(word, rest),
        None => Err(Stop {
            rest: tokens,
            wants_name: false,
        }),
    }
}

/// Reads what follows the word of a query.
fn query_after<'t, 'a>(
    word: QueryWord,
    tokens: &'t [Token<'a>],
) -> Result<SpelledQuery<'t, 'a>, Stop<'t, 'a>>
    ensures { Gives (query_after word (words tokens.now)) result }
{
    match word {
        QueryWord::Sub => {
            let (lower, upper) = comparison(tokens)?;
            Ok(Query::Sub(lower, upper))
        }
        QueryWord::Paths => {
            let name = component(tokens)?;
            Ok(Query::Paths(name))
        }
        QueryWord::Typed => {
            let (term, ty) = typing(tokens)?;
            Ok(Query::Typed(term, ty))
        }
        QueryWord::Filtered => {
            let (filter, page) = filtered(tokens)?;
            Ok(Query::Filtered(filter, page))
        }
        QueryWord::Batch => {
            let types = types_at(tokens)?;
            Ok(Query::Batch(types))
        }
        QueryWord::About(asks) => {
            let goal = goal(tokens)?;
            Ok(Query::About(asks, goal))
        }
        QueryWord::Page(asks) => {
            let page = page(tokens)?;
            Ok(Query::Page(asks, page))
        }
    }
}

fn comparison<'t, 'a>(
    tokens: &'t [Token<'a>],
) -> Result<(SpelledType<'t, 'a>, SpelledType<'t, 'a>), Stop<'t, 'a>>
    ensures { Reads comparison_form tokens.now result (λ x. (type_text x.0, (type_text x.1, tt))) }
{
    let (lower, rest) = type_at(tokens)?;
    let rest = sign_at(rest, TokenKind::AtMost)?;
    let (upper, rest) = type_at(rest)?;
    end_at(rest)?;
    Ok((lower, upper))
}

fn component<'t, 'a>(tokens: &'t [Token<'a>]) -> Result<&'a str, Stop<'t, 'a>>
    ensures { Reads component_form tokens.now result (λ x. (x.now, tt)) }
{
    let (name, rest) = name_at(tokens, Role::Component)?;
    end_at(rest)?;
    Ok(name)
}

fn typing<'t, 'a>(
    tokens: &'t [Token<'a>],
) -> Result<(SpelledTerm<'t, 'a>, SpelledType<'t, 'a>), Stop<'t, 'a>>
    ensures { Reads typing_form tokens.now result (λ x. (term_text x.0, (type_text x.1, tt))) }
{
    let (term, rest) = term_at(tokens)?;
    let rest = sign_at(rest, TokenKind::Colon)?;
    let (ty, rest) = type_at(rest)?;
    end_at(rest)?;
    Ok((term, ty))
}

fn goal<'t, 'a>(tokens: &'t [Token<'a>]) -> Result<SpelledType<'t, 'a>, Stop<'t, 'a>>
    ensures { Reads goal_form tokens.now result (λ x. (type_text x, tt)) }
{
    let (goal, rest) = type_at(tokens)?;
    end_at(rest)?;
    Ok(goal)
}

fn filtered<'t, 'a>(
    tokens: &'t [Token<'a>],
) -> Result<(&'a str, SpelledListing<'t, 'a>), Stop<'t, 'a>>
    ensures { Reads filtered_form tokens.now result (λ x. (
      x.0.now,
      (
        type_text x.1.goal,
        (x.1.max.text.now, (x.1.take.text.now, option_map (λ e. (term_text e, tt)) x.1.after)),
      ),
    )) }
{
    let (filter, rest) = name_at(tokens, Role::Filter)?;
    let listing = page(rest)?;
    Ok((filter, listing))
}

fn page<'t, 'a>(tokens: &'t [Token<'a>]) -> Result<SpelledListing<'t, 'a>, Stop<'t, 'a>>
    ensures { Reads listing_form tokens.now result (λ x. (
      type_text x.goal,
      (x.max.text.now, (x.take.text.now, option_map (λ e. (term_text e, tt)) x.after)),
    )) }
{
    let (goal, rest) = type_at(tokens)?;
    let rest = word_at(rest, "max")?;
    let (max, rest) = number_at(rest)?;
    let rest = word_at(rest, "take")?;
    let (take, rest) = number_at(rest)?;
    let after = cursor(rest)?;
    Ok(Listing {
        goal,
        max,
        take,
        after,
    })
}

/// The term behind `after`, if anything is left.
#[tactic(auto, using(cls_syntax::proofs::Tails::tails))]
fn cursor<'t, 'a>(tokens: &'t [Token<'a>]) -> Result<Option<SpelledTerm<'t, 'a>>, Stop<'t, 'a>>
    ensures { Reads (perhaps cursor_form) tokens.now result (λ x. option_map (λ e. (term_text e, tt)) x) }
{
    if tokens.is_empty() {
        return Ok(None);
    }
    let rest = word_at(tokens, "after")?;
    let (term, rest) = term_at(rest)?;
    end_at(rest)?;
    Ok(Some(term))
}
