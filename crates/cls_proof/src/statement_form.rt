//! The forms of the lines of a certificate, read from the left.
ghost use Rattle.cls_syntax.specs.Readings.{Reads, ReadsLine};
ghost use Rattle.cls_proof.specs.Forms.{certificate_rows, row_form, block_form, line_of};
ghost use Rattle.cls_proof.specs.Said.{row_values, block_values, written};

use cls_lexer::{Numeral, Token, TokenKind};
use cls_syntax::{
    NumeralList, Role, SpelledType, Stop, end_at, name_at, number_at, numbers_at, sign_at, type_at,
    word_at,
};

/// A line of a certificate as it is written.
#[derive(Clone, Copy, Debug)]
pub(crate) enum StatementForm<'t, 'a> {
    /// `inhabited`
    Inhabited,
    /// `row TYPE by NAME N : I J ..`
    Row(RowForm<'t, 'a>),
    /// `empty`
    Empty,
    /// `member TYPE`
    Member(SpelledType<'t, 'a>),
    /// `block NAME N`
    Block(BlockForm<'a>),
    /// `layer`
    Layer,
    /// `set I J ..`
    Set(NumeralList<'t, 'a>),
    /// `qed`
    Qed,
}

/// What follows the word `row`: `TYPE by NAME N : I J ..`
#[derive(Clone, Copy, Debug)]
pub(crate) struct RowForm<'t, 'a> {
    pub(crate) goal: SpelledType<'t, 'a>,
    pub(crate) component: &'a str,
    pub(crate) n: Numeral<'a>,
    pub(crate) cover: NumeralList<'t, 'a>,
}

/// What follows the word `block`: `NAME N`
#[derive(Clone, Copy, Debug)]
pub(crate) struct BlockForm<'a> {
    pub(crate) component: &'a str,
    pub(crate) n: Numeral<'a>,
}

/// A line of a certificate.
pub(crate) fn statement_form<'t, 'a>(
    tokens: &'t [Token<'a>],
) -> Result<StatementForm<'t, 'a>, Stop<'t, 'a>>
    ensures { ReadsLine certificate_rows tokens.now result (λ form. line_of (written form)) }
{
    if let Ok(rest) = word_at(tokens, "inhabited") {
        end_at(rest)?;
        return Ok(StatementForm::Inhabited);
    }
    if let Ok(rest) = word_at(tokens, "row") {
        return Ok(StatementForm::Row(row_form(rest)?));
    }
    if let Ok(rest) = word_at(tokens, "empty") {
        end_at(rest)?;
        return Ok(StatementForm::Empty);
    }
    if let Ok(rest) = word_at(tokens, "member") {
        let (goal, rest) = type_at(rest)?;
        end_at(rest)?;
        return Ok(StatementForm::Member(goal));
    }
    if let Ok(rest) = word_at(tokens, "block") {
        return Ok(StatementForm::Block(block_form(rest)?));
    }
    if let Ok(rest) = word_at(tokens, "layer") {
        end_at(rest)?;
        return Ok(StatementForm::Layer);
    }
    if let Ok(rest) = word_at(tokens, "set") {
        return Ok(StatementForm::Set(numbers_at(rest)?));
    }
    let rest = word_at(tokens, "qed")?;
    end_at(rest)?;
    Ok(StatementForm::Qed)
}

fn row_form<'t, 'a>(tokens: &'t [Token<'a>]) -> Result<RowForm<'t, 'a>, Stop<'t, 'a>>
    ensures { Reads row_form tokens.now result row_values }
{
    let (goal, rest) = type_at(tokens)?;
    let rest = word_at(rest, "by")?;
    let (component, rest) = name_at(rest, Role::Component)?;
    let (n, rest) = number_at(rest)?;
    let rest = sign_at(rest, TokenKind::Colon)?;
    let cover = numbers_at(rest)?;
    Ok(RowForm {
        goal,
        component,
        n,
        cover,
    })
}

fn block_form<'t, 'a>(tokens: &'t [Token<'a>]) -> Result<BlockForm<'a>, Stop<'t, 'a>>
    ensures { Reads block_form tokens.now result block_values }
{
    let (component, rest) = name_at(tokens, Role::Component)?;
    let (n, rest) = number_at(rest)?;
    end_at(rest)?;
    Ok(BlockForm { component, n })
}
