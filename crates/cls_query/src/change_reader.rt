//! Reads the line of a change.
ghost use Rattle.std.specs.Prelude.{◌≡◌, ℕ, true, false, List, IfOk, IfErr, IfSome, OnOk, OnErr};
ghost use Rattle.cls_base.specs.Firsts.{First};
ghost use Rattle.cls_lexer.specs.Skipped.{IsText};
ghost use Rattle.cls_lexer.specs.Words.{words_of};
ghost use Rattle.cls_syntax.specs.SpelledTypes.{type_text};
ghost use Rattle.cls_query.specs.declared.change.Change.TheVariants.{Add, Remove};
ghost use Rattle.cls_query.specs.Changes.{WordsSay, change_of, change_parts};
ghost use Rattle.cls_query.specs.ChangeErrors.{change_errors};
ghost use Rattle.cls_query.specs.ChangeSteps.{IsNamed, naming_errors, spelling_errors};
ghost use Rattle.cls_query.specs.Queries.{tables_of, with_names, with_variables};
ghost use Rattle.cls_query.specs.QueryErrors.{is_absent};
ghost use Rattle.cls_query.specs.ReadChanges.{ReadsChange, MayChange, change_in, change_text};
ghost use Rattle.cls_query.specs.ReadQueries.{fault_words};
ghost use Rattle.cls_query.specs.Steps.{Tests};

use crate::change::{BuiltChange, Change, SpelledChange};
use crate::change_form::spelled_change;
use crate::checks::absent;
use crate::fault::LineFault;
use crate::line::CutLine;
use crate::reader::text_of;
use cls_base::OutOfMemory;
use cls_lexer::{Line, Names, Token};
use cls_syntax::{SpelledType, is_too_deep};
use std::alloc::Global;

/// The change that the line is. Its schema has the numbers that the tables give its names. New names of constructors
/// and of variables are numbered in the order of the line's tokens. After any error the tables are as before. The
/// buffer `room` may be reused for the tokens; its content is ignored.
///
/// The error is the first that applies, in the order of [`LineFault`].
pub fn read_change<'a, 'p>(
    alloc: Global,
    constructors: &mut Names,
    variables: &mut Names,
    components: &Names,
    line: &'a Line<'p>,
    room: &mut Vec<Token<'p>>,
) -> Result<BuiltChange, LineFault<'a>>
    ensures change { IfOk result (λ change. (filters : List (List ℕ))
        → ReadsChange (tables_of constructors.old variables.old components.now filters) line.now (change_in change)
        (tables_of constructors.new variables.new components.now filters)) }
    ensures fault { IfErr result (λ fault. IfSome (fault_words fault)
        (First (change_errors components.now line.now))) }
    ensures stay { OnErr result (constructors.new ≡ constructors.old) }
    ensures variables_stay { OnErr result (variables.new ≡ variables.old) }
    ensures may { IfOk result (λ change. MayChange components.now (change_in change)) }
{
    let text = text_of(line)?;
    let tokens = line.tokens(alloc, room)?;
    let cut = CutLine {
        text,
        tokens: tokens.as_slice(),
    };
    by_rows(alloc, constructors, variables, components, &cut)
}

/// The change that the line is, or its first error, by one reading after another. After any error the tables are as
/// before.
fn by_rows<'a>(
    alloc: Global,
    constructors: &mut Names,
    variables: &mut Names,
    components: &Names,
    line: &CutLine<'_, 'a>,
) -> Result<BuiltChange, LineFault<'a>>
    requires { IsText line.now.text.now }
    ensures change { IfOk result (λ change. (filters : List (List ℕ))
        → ReadsChange (tables_of constructors.old variables.old components.now filters) line.now.text.now
        (change_in change) (tables_of constructors.new variables.new components.now filters)) }
    ensures fault { IfErr result (λ fault. IfSome (fault_words fault)
        (First (change_errors components.now line.now.text.now))) }
    ensures stay { OnErr result (constructors.new ≡ constructors.old) }
    ensures variables_stay { OnErr result (variables.new ≡ variables.old) }
    ensures may { IfOk result (λ change. MayChange components.now (change_in change)) }
{
    let spelled = line.change()?;
    check(&spelled, components)?;
    Ok(build(alloc, &spelled, constructors, variables, components)?)
}

impl<'t, 'a> CutLine<'t, 'a> {
    /// The change as it is spelled.
    fn change(&self) -> Result<SpelledChange<'t, 'a>, LineFault<'a>>
        ensures tested { Tests (spelling_errors self.now.text.now) result }
        ensures says { IfOk result (λ change. WordsSay (change_text change) (words_of self.now.text.now)) }
    {
        if is_too_deep(self.tokens) {
            return Err(LineFault::TooDeep);
        }
        match spelled_change(self.tokens) {
            Ok(change) => Ok(change),
            Err(stop) => Err(self.left_at(&stop)),
        }
    }
}

/// Whether the type of the change is small, and whether there is a component of its name where there is to be one, and
/// none where it gives one more.
fn check<'a>(change: &SpelledChange<'_, 'a>, components: &Names) -> Result<(), LineFault<'a>>
    ensures tested { (line : List ℕ) → WordsSay (change_text change.now) (words_of line)
        → Tests (naming_errors line components.now) result }
    ensures named { OnOk result (IsNamed components.now (change_text change.now)) }
{
    match change {
        Change::Add(component, spelled) => check_addition(component, spelled, components),
        Change::Remove(component) => check_removal(component, components),
    }
}

/// Whether the type of the new component is small and its name new.
fn check_addition<'a>(
    component: &'a str,
    spelled: &SpelledType,
    components: &Names,
) -> Result<(), LineFault<'a>>
    ensures tested { (line : List ℕ) → WordsSay (Add component.now (type_text spelled.now)) (words_of line)
        → Tests (naming_errors line components.now) result }
    ensures named { OnOk result (is_absent components.now component.now ≡ true) }
{
    if !spelled.is_small() {
        return Err(LineFault::TooManyNodes);
    }
    match absent(components, component) {
        Some(_) => Ok(()),
        None => Err(LineFault::Duplicate(component)),
    }
}

/// Whether there is a component of the name.
fn check_removal<'a>(component: &'a str, components: &Names) -> Result<(), LineFault<'a>>
    ensures tested { (line : List ℕ) → WordsSay (Remove component.now) (words_of line)
        → Tests (naming_errors line components.now) result }
    ensures named { OnOk result (is_absent components.now component.now ≡ false) }
{
    match absent(components, component) {
        Some(name) => Err(LineFault::UnknownName(name)),
        None => Ok(()),
    }
}

/// The change with a schema and a number in place of its texts. The names of its type are numbered in the order of its
/// tokens. The only error is out of memory, and leaves the tables as before.
fn build(
    alloc: Global,
    change: &SpelledChange,
    constructors: &mut Names,
    variables: &mut Names,
    components: &Names,
) -> Result<BuiltChange, OutOfMemory>
    ensures change { IfOk result (λ built. (filters : List (List ℕ)) → change_in built
        ≡ change_of (tables_of constructors.new variables.new components.now filters) (change_text change.now)) }
    ensures constructors { OnOk result
        (constructors.new ≡ with_names constructors.old (change_parts (change_text change.now))) }
    ensures variables { OnOk result
        (variables.new ≡ with_variables variables.old (change_parts (change_text change.now))) }
    ensures stay { OnErr result (constructors.new ≡ constructors.old) }
    ensures variables_stay { OnErr result (variables.new ≡ variables.old) }
{
    match change {
        Change::Add(component, spelled) => {
            let name = String::from_str(alloc, component)?;
            let schema = spelled.schema(alloc, constructors, variables)?;
            Ok(Change::Add(name, schema))
        }
        Change::Remove(component) => Ok(Change::Remove(components.number(component))),
    }
}
