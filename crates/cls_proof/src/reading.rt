//! What a line of a certificate means, by the tables of names.
ghost use Rattle.std.specs.Prelude.{◌≡◌, ℕ, List, Some, IfOk, IfSome, OnSome, MatchOption, length};
ghost use Rattle.cls_base.specs.Ty.{type_of};
ghost use Rattle.cls_base.specs.Types.{ClosedType};
ghost use Rattle.cls_lexer.specs.Names.{number_of, with_texts};
ghost use Rattle.cls_syntax.specs.ClosedTypes.{HasNoDollar};
ghost use Rattle.cls_syntax.specs.SpelledNumbers.{numerals_of};
ghost use Rattle.cls_syntax.specs.SpelledTypes.{type_text, words_in};
ghost use Rattle.cls_syntax.specs.TypePrinting.{HasNamesBelow};
ghost use Rattle.cls_syntax.specs.TypeSchemas.{with_constructors};
ghost use Rattle.cls_proof.specs.Reading.{IsGoal, AreNumbers};
ghost use Rattle.cls_proof.specs.Forms.{goal_words};
ghost use Rattle.cls_proof.specs.Rows.{row_of};
ghost use Rattle.cls_proof.specs.Statements.{row};
ghost use Rattle.cls_proof.specs.Said.{statement_of, written, written_row, written_block, IsMeant, IsMeaningless, IsReadAs, HasGrown};

use crate::positions::Positions;
use crate::row::ProofRow;
use crate::statement::Statement;
use crate::statement_form::{BlockForm, RowForm, StatementForm, statement_form};
use cls_base::limits::MAX_TYPE_SPREAD;
use cls_base::{OutOfMemory, Ty};
use cls_lexer::{Line, Names, Token};
use cls_syntax::{NumeralList, SpelledType, first_variable, is_too_deep};
use std::alloc::Global;

/// What a line is read as.
#[derive(Drop)]
pub(crate) enum ReadLine {
    /// It is skipped.
    Skipped,
    /// It is bad, wherever it stands.
    Bad,
    /// It says this.
    Says(Statement),
}

/// Reads a line. The constructors of its type are numbered. The buffer `room` may be reused for the tokens of the
/// line; its content is ignored.
pub(crate) fn read_line<'p>(
    alloc: Global,
    names: &mut Names,
    components: &Names,
    line: &Line<'p>,
    room: &mut Vec<Token<'p>>,
) -> Result<ReadLine, OutOfMemory>
    ensures read { IfOk result (IsReadAs components.now names.old names.new line.now) }
    ensures grown { HasGrown names.old names.new }
{
    match line.content() {
        Ok(None) => return Ok(ReadLine::Skipped),
        Ok(Some(_)) => {}
        Err(_) => return Ok(ReadLine::Bad),
    }
    let list = line.tokens(alloc, room)?;
    let tokens = list.as_slice();
    if is_too_deep(tokens) {
        return Ok(ReadLine::Bad);
    }
    if first_variable(tokens).is_some() {
        return Ok(ReadLine::Bad);
    }
    let Ok(form) = statement_form(tokens) else {
        return Ok(ReadLine::Bad);
    };
    match statement(alloc, names, components, &form)? {
        Some(statement) => Ok(ReadLine::Says(statement)),
        None => Ok(ReadLine::Bad),
    }
}

/// What the line means, or None if something in it is over its limit, or it names no component that is there.
fn statement(
    alloc: Global,
    names: &mut Names,
    components: &Names,
    form: &StatementForm,
) -> Result<Option<Statement>, OutOfMemory>
    requires { HasNoDollar (goal_words (written form.now)) }
    ensures meant { IfOk result (λ meant. MatchOption meant (IsMeaningless components.now (written form.now))
        (λ s. IsMeant components.now names.old names.new (written form.now) (statement_of s))) }
    ensures grown { HasGrown names.old names.new }
{
    match form {
        StatementForm::Inhabited => Ok(Some(Statement::Inhabited)),
        StatementForm::Row(form) => Ok(row(alloc, names, components, form)?.map(Statement::Row)),
        StatementForm::Empty => Ok(Some(Statement::Empty)),
        StatementForm::Member(text) => Ok(goal(alloc, names, text)?.map(Statement::Member)),
        StatementForm::Block(form) => Ok(block(components, form)),
        StatementForm::Layer => Ok(Some(Statement::Layer)),
        StatementForm::Set(numerals) => Ok(numbers(alloc, *numerals)?.map(Statement::Set)),
        StatementForm::Qed => Ok(Some(Statement::Qed)),
    }
}

fn row(
    alloc: Global,
    names: &mut Names,
    components: &Names,
    form: &RowForm,
) -> Result<Option<ProofRow>, OutOfMemory>
    requires { HasNoDollar (words_in form.now.goal) }
    ensures meant { IfOk result (λ meant. MatchOption meant (IsMeaningless components.now (written_row form.now))
        (λ r. IsMeant components.now names.old names.new (written_row form.now) (row (row_of r)))) }
    ensures grown { HasGrown names.old names.new }
{
    let Some(component) = components.find(form.component) else {
        return Ok(None);
    };
    let Some(n) = form.n.value() else {
        return Ok(None);
    };
    let Some(cover) = numbers(alloc, form.cover)? else {
        return Ok(None);
    };
    let Some(goal) = goal(alloc, names, &form.goal)? else {
        return Ok(None);
    };
    Ok(Some(ProofRow {
        goal,
        component: component.0,
        n,
        cover,
    }))
}

#[tactic(auto, using(crate::proofs::Meanings::parts))]
fn block(components: &Names, form: &BlockForm) -> Option<Statement>
    ensures { MatchOption result (IsMeaningless components.now (written_block form.now))
        (λ s. (names : List (List ℕ)) → IsMeant components.now names names (written_block form.now) (statement_of s)) }
{
    let component = components.find(form.component)?.0;
    let n = form.n.value()?;
    Some(Statement::Block { component, n })
}

/// The goal that the text spells, or None if it is over a limit. Its constructors are numbered.
#[tactic(auto, using(crate::proofs::Meanings::goals))]
fn goal(alloc: Global, names: &mut Names, text: &SpelledType) -> Result<Option<Ty>, OutOfMemory>
    requires { HasNoDollar (words_in text.now) }
    ensures spelled { IfOk result (λ goal. MatchOption goal
        ((number : List ℕ → ℕ) (t : ClosedType) → IsGoal number (type_text text.now) t → ⊥)
        (λ ty. (later : List (List ℕ))
        → IsGoal (number_of (with_texts names.new later)) (type_text text.now) (type_of ty))) }
    ensures numbered { IfOk result (λ goal. OnSome goal
        (names.new ≡ with_constructors names.old (words_in text.now))) }
    ensures held { IfOk result (λ goal. IfSome goal (λ ty. HasNamesBelow (length names.new) (type_of ty))) }
    ensures grown { HasGrown names.old names.new }
{
    if !text.is_small() {
        return Ok(None);
    }
    let goal = text.ty(alloc, names)?;
    if goal.spread() > MAX_TYPE_SPREAD {
        return Ok(None);
    }
    Ok(Some(goal))
}

/// The numbers, or None if one is over the limit.
#[tactic(auto, using(crate::proofs::NumberLists::number_lists))]
fn numbers(alloc: Global, numerals: NumeralList) -> Result<Option<Positions>, OutOfMemory>
    ensures { IfOk result (λ numbers. MatchOption numbers
        ((ns : List ℕ) → AreNumbers (numerals_of numerals.entry) ns → ⊥) (AreNumbers (numerals_of numerals.entry))) }
{
    let mut rest = numerals;
    let mut numbers = Positions::new(alloc);
    while let Some((numeral, others)) = rest.split_first() {
        let Some(number) = numeral.value() else {
            return Ok(None);
        };
        numbers.push(number)?;
        rest = others;
    }
    Ok(Some(numbers))
}
