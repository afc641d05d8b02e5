//! A line of tokens, read from the left with one token of sight. Each call answers what stands in front and the tokens after
//! it, or where the reading stops.
ghost use Rattle.std.specs.Prelude.{◌≡◌, Ok, Err, MatchResult, nat_le};
ghost use Rattle.cls_lexer.specs.declared.token.TokenKind.TheVariants.{Bar};
ghost use Rattle.cls_lexer.specs.Words.{words, word_of};
ghost use Rattle.cls_syntax.specs.Fronts.{kind_place, is_word};
ghost use Rattle.cls_syntax.specs.Forms.{the_word, the_sign, a_name, a_number, a_type, a_term, nothing, types};
ghost use Rattle.cls_syntax.specs.Readings.{Takes, Reads};
ghost use Rattle.cls_syntax.specs.TypeLists.{types_front};
ghost use Rattle.cls_syntax.specs.Stops.{stop_of};
ghost use Rattle.cls_syntax.specs.SpelledTypes.{type_text, types_text};
ghost use Rattle.cls_syntax.specs.SpelledTerms.{term_text};

use crate::role::Role;
use crate::sort::is_name;
use crate::spelled_term::SpelledTerm;
use crate::spelled_type::SpelledType;
use crate::spelled_types::SpelledTypes;
use crate::stop::Stop;
use crate::term_shape::term_end;
use crate::type_shape::type_end;
use cls_lexer::{Numeral, Token, TokenKind};

/// The text of the name in this role that the tokens begin with, and the tokens after it. `omega` is no name.
#[tactic(auto, using(crate::proofs::TokenFronts::name_fronts))]
pub fn name_at<'t, 'a>(
    tokens: &'t [Token<'a>],
    role: Role,
) -> Result<(&'a str, &'t [Token<'a>]), Stop<'t, 'a>>
    ensures { Takes (a_name role) tokens.now result (λ x. (x.0.now, words x.1.now)) }
{
    match tokens {
        [first, rest @ ..] if is_name(first) && role.allows(first.text) => Ok((first.text, rest)),
        _ => Err(Stop {
            rest: tokens,
            wants_name: role.takes_names(),
        }),
    }
}

/// The number that the tokens begin with, whatever its value, and the tokens after it.
pub fn number_at<'t, 'a>(
    tokens: &'t [Token<'a>],
) -> Result<(Numeral<'a>, &'t [Token<'a>]), Stop<'t, 'a>>
    ensures { Takes (a_number 0 0) tokens.now result (λ x. (x.0.text.now, words x.1.now)) }
{
    match tokens {
        [first, rest @ ..] if first.kind == TokenKind::Number => {
            Ok((Numeral { text: first.text }, rest))
        }
        _ => Err(Stop {
            rest: tokens,
            wants_name: false,
        }),
    }
}

/// The tokens after this very word, which isn't `omega`.
#[tactic(auto, using(crate::proofs::TokenFronts::word_fronts))]
pub fn word_at<'t, 'a>(tokens: &'t [Token<'a>], word: &str) -> Result<&'t [Token<'a>], Stop<'t, 'a>>
    ensures { Takes (the_word word.now) tokens.now result (λ rest. (tt, words rest.now)) }
{
    match tokens {
        [first, rest @ ..] if is_word(first, word) => Ok(rest),
        _ => Err(Stop {
            rest: tokens,
            wants_name: false,
        }),
    }
}

/// The tokens after the sign of this kind, which is neither `Name` nor `Number`.
pub fn sign_at<'t, 'a>(
    tokens: &'t [Token<'a>],
    kind: TokenKind,
) -> Result<&'t [Token<'a>], Stop<'t, 'a>>
    ensures { Takes (the_sign kind) tokens.now result (λ rest. (tt, words rest.now)) }
{
    match tokens {
        [first, rest @ ..] if first.kind == kind && is_sign(kind) => Ok(rest),
        _ => Err(Stop {
            rest: tokens,
            wants_name: false,
        }),
    }
}

/// The type that the tokens begin with, and the tokens after it.
#[tactic(auto, using(crate::proofs::TypeSpans::type_spans))]
pub fn type_at<'t, 'a>(
    tokens: &'t [Token<'a>],
) -> Result<(SpelledType<'t, 'a>, &'t [Token<'a>]), Stop<'t, 'a>>
    ensures { Takes a_type tokens.now result (λ x. (type_text x.0, words x.1.now)) }
{
    match type_end(tokens) {
        Ok((end, nodes)) => {
            let (front, rest) = tokens.split_at(end);
            let spelled = SpelledType {
                tokens: front,
                nodes,
            };
            Ok((spelled, rest))
        }
        Err((place, wants_name)) => Err(Stop {
            rest: tokens.split_at(place).1,
            wants_name,
        }),
    }
}

/// The term that the tokens begin with, and the tokens after it.
#[tactic(auto, using(crate::proofs::TermSpans::term_spans))]
pub fn term_at<'t, 'a>(
    tokens: &'t [Token<'a>],
) -> Result<(SpelledTerm<'t, 'a>, &'t [Token<'a>]), Stop<'t, 'a>>
    ensures { Takes a_term tokens.now result (λ x. (term_text x.0, words x.1.now)) }
{
    match term_end(tokens) {
        Ok(end) => {
            let (front, rest) = tokens.split_at(end);
            Ok((SpelledTerm { tokens: front }, rest))
        }
        Err((place, wants_name)) => Err(Stop {
            rest: tokens.split_at(place).1,
            wants_name,
        }),
    }
}

/// Nothing, if no token is left.
pub fn end_at<'t, 'a>(tokens: &'t [Token<'a>]) -> Result<(), Stop<'t, 'a>>
    ensures { Reads nothing tokens.now result (λ _. tt) }
{
    if tokens.is_empty() {
        Ok(())
    } else {
        Err(Stop {
            rest: tokens,
            wants_name: false,
        })
    }
}

/// The types, one or more with bars between them, that all the tokens are.
pub fn types_at<'t, 'a>(tokens: &'t [Token<'a>]) -> Result<SpelledTypes<'t, 'a>, Stop<'t, 'a>>
    ensures { Reads types tokens.now result types_text }
{
    let (types, rest) = some_types(tokens)?;
    end_at(rest)?;
    Ok(types)
}

/// The types that the tokens begin with, and the tokens after them.
#[tactic(auto, using(crate::proofs::TypeListSpans::types_spans))]
pub(crate) fn some_types<'t, 'a>(
    tokens: &'t [Token<'a>],
) -> Result<(SpelledTypes<'t, 'a>, &'t [Token<'a>]), Stop<'t, 'a>>
    ensures { MatchResult result (λ x. types_front Bar (words tokens.now) ≡ Ok (types_text x.0, words x.1.now))
        (λ s. types_front Bar (words tokens.now) ≡ Err (stop_of s)) }
{
    let (first, mut rest) = type_at(tokens)?;
    let mut most_nodes = first.nodes;
    while let Ok(next) = sign_at(rest, TokenKind::Bar) {
        let (spelled, after) = type_at(next)?;
        most_nodes = most_nodes.max(spelled.nodes);
        rest = after;
    }
    let (front, _) = tokens.split_at(tokens.len() - rest.len());
    let spelled = SpelledTypes {
        tokens: front,
        most_nodes,
    };
    Ok((spelled, rest))
}

#[tactic(auto, using(crate::proofs::TokenFronts::word_tests))]
fn is_word(token: &Token, word: &str) -> bool
    ensures { result ≡ is_word word.now (word_of token.now) }
{
    token.text.len() == word.len() && is_name(token) && token.text == word
}

fn is_sign(kind: TokenKind) -> bool
    ensures { result ≡ (nat_le 2 (kind_place kind)) }
{
    !matches!(kind, TokenKind::Name | TokenKind::Number)
}
