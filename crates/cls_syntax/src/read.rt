//! Reads a text that is one type.
ghost use Rattle.std.specs.Prelude.{◌≡◌, ◌<◌, ◌≤◌, ◌^◌, ◌-◌, ◌&&◌, map, length, MatchResult, IfOk, OnOk, OnErr, position};
ghost use Rattle.cls_base.specs.Schemas.{schema_of};
ghost use Rattle.cls_base.specs.Ty.{type_of};
ghost use Rattle.cls_lexer.specs.Tokens.{tokens_of, located};
ghost use Rattle.cls_lexer.specs.Words.{words, word_of, words_of};
ghost use Rattle.cls_syntax.specs.ClosedTypes.{HasNoDollar, IsTypeIn, IsNoClosedType};
ghost use Rattle.cls_syntax.specs.Forms.{a_type, nothing, ◌⨾◌};
ghost use Rattle.cls_syntax.specs.Readings.{Reads};
ghost use Rattle.cls_syntax.specs.Sorts.{begins_reserved};
ghost use Rattle.cls_syntax.specs.SpelledTypes.{type_text};
ghost use Rattle.cls_syntax.specs.SyntaxFaults.{IsWholeType, IsSchemaIn, IsNoType, fault_from};
ghost use Rattle.cls_syntax.specs.TypePrinting.{HasNamesBelow};
ghost use Rattle.cls_syntax.specs.TypeSchemas.{is_dollar, with_constructors, with_variables};

use crate::cursor::{end_at, type_at};
use crate::depth::is_too_deep;
use crate::sort::is_dollar;
use crate::spelled_type::SpelledType;
use crate::stop::Stop;
use crate::syntax_fault::SyntaxFault;
use cls_base::{Schema, Ty};
use cls_lexer::{Names, Token, byte_at, tokens};
use std::alloc::Global;

/// The schema that the whole text spells. Its names are numbered in the order of their tokens, constructors and
/// variables in tables of their own. After a refusal the tables are as before.
///
/// The error is `TooDeep` if more than [`MAX_TYPE_DEPTH`] parentheses are open at once; otherwise, at the first token with
/// which no type goes on, or at the text's length, `ReservedName` if `omega` stands there and a name could, and
/// `Unexpected` if not; otherwise `TooManyNodes` if the type has more than 1,024 nodes.
pub fn read_schema(
    alloc: Global,
    constructors: &mut Names,
    variables: &mut Names,
    text: &str,
) -> Result<Schema, SyntaxFault>
    requires { length text.now < 2 ^ 32 }
    ensures exact { MatchResult result (λ s. IsSchemaIn constructors.new variables.new text.now (schema_of s))
        (IsNoType text.now) }
    ensures constructors { OnOk result (constructors.new ≡ with_constructors constructors.old (words_of text.now)) }
    ensures variables { OnOk result (variables.new ≡ with_variables variables.old (words_of text.now)) }
    ensures constructors_stay { OnErr result (constructors.new ≡ constructors.old) }
    ensures variables_stay { OnErr result (variables.new ≡ variables.old) }
{
    let tokens = tokens(alloc, text)?;
    let spelled = whole_type(text, &tokens)?;
    let schema = spelled.schema(alloc, constructors, variables)?;
    Ok(schema)
}

/// The type that the whole text spells, which has no variable. Its names are numbered in the order of their tokens.
/// After a refusal the table is as before.
///
/// The errors are those of [`read_schema`], and after them `Variable` with the byte of the first `$`.
pub fn read_type(alloc: Global, constructors: &mut Names, text: &str) -> Result<Ty, SyntaxFault>
    requires { length text.now < 2 ^ 32 }
    ensures exact { MatchResult result (λ ty. IsTypeIn constructors.new text.now (type_of ty))
        (IsNoClosedType text.now) }
    ensures closed { OnOk result (HasNoDollar (words_of text.now)) }
    ensures held { IfOk result (λ ty. HasNamesBelow (length constructors.new) (type_of ty)) }
    ensures constructors { OnOk result (constructors.new ≡ with_constructors constructors.old (words_of text.now)) }
    ensures constructors_stay { OnErr result (constructors.new ≡ constructors.old) }
{
    let tokens = tokens(alloc, text)?;
    let spelled = whole_type(text, &tokens)?;
    if let Some(place) = first_variable(&tokens) {
        return Err(SyntaxFault::Variable(byte_at(text, &tokens, place)));
    }
    let ty = spelled.ty(alloc, constructors)?;
    Ok(ty)
}

/// The place of the first `$`.
pub fn first_variable(tokens: &[Token]) -> Option<usize>
    ensures { result ≡ position is_dollar (words tokens.now) }
{
    first_dollar(tokens)
}

fn first_dollar(tokens: &[Token]) -> Option<usize>
    ensures { result ≡ position (λ l. is_dollar (word_of l)) tokens.now }
{
    tokens.iter().position(|token| is_dollar(token))
}

/// The type that the tokens of the text spell.
#[tactic(auto, using(crate::proofs::TypeFaults::whole_types))]
fn whole_type<'t, 'a>(
    text: &str,
    tokens: &'t [Token<'a>],
) -> Result<SpelledType<'t, 'a>, SyntaxFault>
    requires few { length text.now < 2 ^ 32 }
    requires tokens { map located tokens.now ≡ tokens_of text.now }
    requires words { words tokens.now ≡ words_of text.now }
    ensures { MatchResult result (λ spelled. IsWholeType text.now (type_text spelled)) (IsNoType text.now) }
{
    if is_too_deep(tokens) {
        return Err(SyntaxFault::TooDeep);
    }
    match type_line(tokens) {
        Ok(spelled) if spelled.is_small() => Ok(spelled),
        Ok(_) => Err(SyntaxFault::TooManyNodes),
        Err(stop) => Err(fault_at(text, tokens, stop)),
    }
}

/// A type and nothing after it.
fn type_line<'t, 'a>(tokens: &'t [Token<'a>]) -> Result<SpelledType<'t, 'a>, Stop<'t, 'a>>
    ensures { Reads (a_type ⨾ nothing) tokens.now result (λ x. (type_text x, tt)) }
{
    let (spelled, rest) = type_at(tokens)?;
    end_at(rest)?;
    Ok(spelled)
}

/// The fault of a text that is no type.
fn fault_at(text: &str, tokens: &[Token], stop: Stop) -> SyntaxFault
    requires few { length text.now < 2 ^ 32 }
    requires tokens { map located tokens.now ≡ tokens_of text.now }
    ensures { result ≡ fault_from text.now (length tokens.now - length stop.entry.rest.now)
        (stop.entry.wants_name && begins_reserved (words stop.entry.rest.now)) }
{
    let byte = stop.byte(text, tokens);
    if stop.is_reserved() {
        SyntaxFault::ReservedName(byte)
    } else {
        SyntaxFault::Unexpected(byte)
    }
}
