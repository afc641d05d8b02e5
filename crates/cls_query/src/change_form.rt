//! Changes as they are spelled.
ghost use Rattle.cls_syntax.specs.Readings.{Reads, ReadsLine};
ghost use Rattle.cls_syntax.specs.SpelledTypes.{type_text};
ghost use Rattle.cls_query.specs.Changes.{addition_form, change_rows, removal_form, row_of};
ghost use Rattle.cls_query.specs.ReadChanges.{change_text};

use crate::change::{Change, SpelledChange};
use cls_lexer::{Token, TokenKind};
use cls_syntax::{Role, SpelledType, Stop, end_at, name_at, sign_at, type_at, word_at};

/// Reads a change.
pub(crate) fn spelled_change<'t, 'a>(
    tokens: &'t [Token<'a>],
) -> Result<SpelledChange<'t, 'a>, Stop<'t, 'a>>
    ensures { ReadsLine change_rows tokens.now result (λ c. row_of (change_text c)) }
{
    if let Ok(rest) = word_at(tokens, "add") {
        let (component, spelled) = addition(rest)?;
        return Ok(Change::Add(component, spelled));
    }
    if let Ok(rest) = word_at(tokens, "drop") {
        let component = removal(rest)?;
        return Ok(Change::Remove(component));
    }
    Err(Stop {
        rest: tokens,
        wants_name: false,
    })
}

fn addition<'t, 'a>(tokens: &'t [Token<'a>]) -> Result<(&'a str, SpelledType<'t, 'a>), Stop<'t, 'a>>
    ensures { Reads addition_form tokens.now result (λ x. (x.0.now, (type_text x.1, tt))) }
{
    let (component, rest) = name_at(tokens, Role::NewComponent)?;
    let rest = sign_at(rest, TokenKind::Colon)?;
    let (spelled, rest) = type_at(rest)?;
    end_at(rest)?;
    Ok((component, spelled))
}

fn removal<'t, 'a>(tokens: &'t [Token<'a>]) -> Result<&'a str, Stop<'t, 'a>>
    ensures { Reads removal_form tokens.now result (λ x. (x.now, tt)) }
{
    let (component, rest) = name_at(tokens, Role::Component)?;
    end_at(rest)?;
    Ok(component)
}
