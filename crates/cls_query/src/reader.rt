//! Reads the line of a query.
ghost use Rattle.std.specs.Prelude.{◌≡◌, ◌↔◌, true, [], length, codes, IfOk, IfErr, IfSome, OnOk, OnErr};
ghost use Rattle.cls_base.specs.Firsts.{First};
ghost use Rattle.cls_lexer.specs.Skipped.{IsText};
ghost use Rattle.cls_lexer.specs.Words.{words_of};
ghost use Rattle.cls_query.specs.Queries.{tables_of};
ghost use Rattle.cls_query.specs.QueryErrors.{line_errors};
ghost use Rattle.cls_query.specs.ReadQueries.{fault_words, asked_of, ReadsQuery};
ghost use Rattle.cls_query.specs.Readable.{IsReadable, IsVerify, begins_with};
ghost use Rattle.cls_query.specs.Steps.{text_errors, Tests};

use crate::build::build;
use crate::checks::{check_types, check_values};
use crate::fault::LineFault;
use crate::line::CutLine;
use crate::query::BuiltQuery;
use cls_lexer::{Line, Names, TextFault, Token};
use std::alloc::Global;

/// The query that the line is. Its types and terms have the numbers that the tables give their names. New names of
/// constructors are numbered in the order of the line's tokens. No query has a variable: their table isn't read, and
/// stays. After any error the tables are as before. The buffer `room` may be reused for the tokens; its content is
/// ignored.
///
/// The error is the first that applies, in the order of [`LineFault`].
pub fn read_query<'a, 'p>(
    alloc: Global,
    constructors: &mut Names,
    variables: &mut Names,
    components: &Names,
    filters: &Names,
    line: &'a Line<'p>,
    room: &mut Vec<Token<'p>>,
) -> Result<BuiltQuery, LineFault<'a>>
    ensures query { IfOk result (λ query.
        ReadsQuery (tables_of constructors.old variables.old components.now filters.now) line.now (asked_of query)
        (tables_of constructors.new variables.new components.now filters.now)) }
    ensures fault { IfErr result (λ fault. IfSome (fault_words fault)
        (First (line_errors (tables_of constructors.old variables.old components.now filters.now) line.now))) }
    ensures stay { OnErr result (constructors.new ≡ constructors.old) }
    ensures variables_stay { OnErr result (variables.new ≡ variables.old) }
    ensures readable { IfOk result (λ query.
        IsReadable (length components.now) (length filters.now) (asked_of query)) }
    ensures verify { IfOk result (λ query.
        IsVerify (asked_of query) ↔ (begins_with (codes "verify") (words_of line.now) ≡ true)) }
    ensures text { OnOk result (IsText line.now) }
{
    let text = text_of(line)?;
    let tokens = line.tokens(alloc, room)?;
    let cut = CutLine {
        text,
        tokens: tokens.as_slice(),
    };
    if let Some(comparison) = cut.comparison(alloc, constructors)? {
        return Ok(comparison);
    }
    by_form(alloc, constructors, components, filters, &cut)
}

/// The query that the line is, or its first error, by one reading after another. After any error the table is as before.
// Not inlined: a frame is cleared whenever its function is called, and this one's is large.
#[inline(never)]
fn by_form<'a>(
    alloc: Global,
    constructors: &mut Names,
    components: &Names,
    filters: &Names,
    line: &CutLine<'_, 'a>,
) -> Result<BuiltQuery, LineFault<'a>>
    requires { IsText line.now.text.now }
    ensures query { IfOk result (λ query. (variables : _)
        → ReadsQuery (tables_of constructors.old variables components.now filters.now) line.now.text.now
        (asked_of query) (tables_of constructors.new variables components.now filters.now)) }
    ensures fault { IfErr result (λ fault. IfSome (fault_words fault)
        (First (line_errors (tables_of constructors.old [] components.now filters.now) line.now.text.now))) }
    ensures stay { OnErr result (constructors.new ≡ constructors.old) }
{
    let spelled = line.spelled()?;
    check_types(&spelled, line)?;
    let term = check_values(alloc, &spelled, components, filters, line)?;
    Ok(build(alloc, &spelled, constructors, components, filters, term)?)
}

/// The line as a text.
pub(crate) fn text_of<'a>(line: &'a Line) -> Result<&'a str, LineFault<'a>>
    ensures same { IfOk result (λ text. text.now ≡ line.now) }
    ensures text { OnOk result (IsText line.now) }
    ensures tested { Tests (text_errors line.now) result }
{
    match line.text() {
        Ok(text) => Ok(text),
        Err(TextFault::TooLong) => Err(LineFault::TooLong),
        Err(TextFault::NotUtf8) => Err(LineFault::NotUtf8),
    }
}
