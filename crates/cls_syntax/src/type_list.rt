//! Types with bars between them, built over their tokens in one pass.
ghost use Rattle.std.specs.Prelude.{◌≡◌, ◌<◌, length, take, IsTrue, IfOk, IfSome, OnOk, map, option_copied, position};
ghost use Rattle.cls_base.specs.Ty.{type_of};
ghost use Rattle.cls_lexer.specs.declared.token.TokenKind.TheVariants.{Bar};
ghost use Rattle.cls_lexer.specs.Names.{number_of, with_texts};
ghost use Rattle.cls_lexer.specs.Words.{words, word_of};
ghost use Rattle.cls_syntax.specs.ClosedTypes.{AreSpelled, HasNoDollar};
ghost use Rattle.cls_syntax.specs.FirstTypes.{FirstType};
ghost use Rattle.cls_syntax.specs.Forms.{types_parts, constructors_named};
ghost use Rattle.cls_syntax.specs.Spans.{is_whole, types_in};
ghost use Rattle.cls_syntax.specs.TypeLists.{types_front, is_the_sign};

use crate::type_builder::closed_type;
use cls_base::{OutOfMemory, Ty};
use cls_lexer::{Names, Token, TokenKind};
use std::alloc::Global;

/// The types, one or more with bars between them, that the tokens spell. They have no variable. Their names are
/// numbered in the order of their tokens. The only error is out of memory, after which the table may have grown.
pub(crate) fn read_types(
    alloc: Global,
    names: &mut Names,
    tokens: &[Token],
) -> Result<Vec<Ty>, OutOfMemory>
    requires whole { IsTrue (is_whole (types_front Bar (words tokens.now))) }
    requires closed { HasNoDollar (words tokens.now) }
    ensures types { IfOk result (λ types.
        AreSpelled (number_of names.new) (types_in Bar (words tokens.now)) (map type_of types.items)) }
    ensures table { let texts = constructors_named (types_parts (types_in Bar (words tokens.now))) in
        OnOk result (names.new ≡ with_texts names.old texts) }
    ensures kept { take (length names.old) names.new ≡ names.old }
{
    let mut types = Vec::new(alloc);
    let mut left = Some(tokens);
    while let Some(current) = left {
        let (ty, rest) = first_type(alloc, names, current)?;
        types.push(ty)?;
        left = rest;
    }
    Ok(types)
}

/// The first of the types that the tokens spell, and the tokens behind the bar after it where there is one. No type has a
/// bar in it, so it ends in front of the first bar.
fn first_type<'t, 'a>(
    alloc: Global,
    names: &mut Names,
    tokens: &'t [Token<'a>],
) -> Result<(Ty, Option<&'t [Token<'a>]>), OutOfMemory>
    requires whole { IsTrue (is_whole (types_front Bar (words tokens.now))) }
    requires closed { HasNoDollar (words tokens.now) }
    ensures first { IfOk result (λ x. FirstType tokens.now names.old (type_of x.0) (option_copied x.1) names.new) }
    ensures kept { take (length names.old) names.new ≡ names.old }
{
    match bar_at(tokens) {
        Some(place) => {
            let ty = closed_type(alloc, names, &tokens[..place])?;
            Ok((ty, Some(&tokens[place + 1..])))
        }
        None => {
            let ty = closed_type(alloc, names, tokens)?;
            Ok((ty, None))
        }
    }
}

/// The place of the first bar.
fn bar_at(tokens: &[Token]) -> Option<usize>
    ensures first { result ≡ position (λ token. is_the_sign Bar (word_of token)) tokens.now }
    ensures within { IfSome result (λ place. place < length tokens.now) }
{
    tokens.iter().position(|token| is_bar(token))
}

/// Whether the token is a bar.
#[tactic(auto, using(crate::proofs::FirstTypes::bar_kind))]
fn is_bar(token: &Token) -> bool
    ensures { result ≡ is_the_sign Bar (word_of token.now) }
{
    matches!(token.kind, TokenKind::Bar)
}
