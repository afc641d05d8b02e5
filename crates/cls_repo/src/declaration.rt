//! What the lines of a repository declare, and what is wrong with what they say.
ghost use Rattle.std.specs.Prelude.{◌≡◌, ◌+◌, ◌<◌, ◌≤◌, ◌^◌, List, length, map, Some, IfErr, OnOk, OnErr};
ghost use Rattle.cls_assemble.specs.Faults.{IsFaultOf};
ghost use Rattle.std.specs.Option.{SomeIff, option_map};
ghost use Rattle.cls_base.specs.Limits.{max_cost};
ghost use Rattle.cls_lexer.specs.Numerals.{number_value};
ghost use Rattle.cls_lexer.specs.Tokens.{tokens_of, located};
ghost use Rattle.cls_lexer.specs.Words.{Word, words, words_of};
ghost use Rattle.cls_syntax.specs.SpelledTypes.{type_text, types_text};
ghost use Rattle.cls_syntax.specs.TokenTexts.{texts};
ghost use Rattle.cls_repo.specs.Declarations.{filter_of, template_text, without_blank};
ghost use Rattle.cls_repo.specs.Directives.{WordsSay, kind, comp, text, cost, variance, filter, leaf, app, other};
ghost use Rattle.cls_repo.specs.FaultWords.{IsFirst, IsTemplateFault};
ghost use Rattle.cls_repo.specs.LineFaults.{directive_faults};
ghost use Rattle.cls_repo.specs.Written.{directive_of, draft_of, TakesDirective, TakesFilterLine, own_faults};

use crate::directive::Directive;
use crate::draft::Draft;
use crate::fault::FaultKind;
use cls_assemble::{Template, TemplateFault};
use cls_base::limits::MAX_COST;
use cls_lexer::{Numeral, Token, byte_at};
use cls_syntax::{SpelledType, SpelledTypes, first_variable};
use std::alloc::Global;

/// A line of a repository with its number, from 1, and its tokens.
#[derive(Clone, Copy, Debug)]
pub(crate) struct CutLine<'t, 'a> {
    /// The number of the line.
    pub(crate) number: u32,
    /// The line.
    pub(crate) text: &'a str,
    /// Its tokens.
    pub(crate) tokens: &'t [Token<'a>],
    // The line is short enough for its bytes to be counted.
    ghost few: { length text.now < 2 ^ 32 },
    // The tokens are those of the line,
    ghost cut: { map located tokens.now ≡ tokens_of text.now },
    // and say what the line says.
    ghost says: { words tokens.now ≡ words_of text.now },
}

/// Declares what the line says. The faults are those of the kinds from `TooManyNodes` to `TooManyStates`, in their
/// order. After a fault the draft is as before.
pub(crate) fn declare(
    alloc: Global,
    draft: &mut Draft,
    line: &CutLine,
    said: Directive,
) -> Result<(), FaultKind>
    requires { WordsSay (directive_of said) (words_of line.now.text.now) }
    ensures taken { let says = directive_of said.entry in OnOk result
        (TakesDirective (draft_of draft.old) line.now.number line.now.text.now says (draft_of draft.new)) }
    ensures fault { IfErr result
        (IsFirst (directive_faults (draft_of draft.old) line.now.text.now (directive_of said.entry))) }
    ensures unchanged { OnErr result (draft_of draft.new ≡ draft_of draft.old) }
{
    match said {
        Directive::Sub(lower, upper) => Ok(draft.put_pair(alloc, lower, upper)?),
        Directive::Kind(variable, types) => declare_choices(alloc, draft, line, variable, types),
        Directive::Comp(component, spelled) => {
            declare_component(alloc, draft, line, component, spelled)
        }
        Directive::Text(component, _) => declare_template(alloc, draft, line, component),
        Directive::End => Ok(()),
        Directive::Cost(component, cost) => declare_cost(alloc, draft, line, component, cost),
        Directive::Variance(constructor, word) => {
            declare_variance(alloc, draft, line, constructor, word)
        }
        Directive::Filter(filter, first, others) => {
            declare_filter(alloc, draft, line, filter, first, others)
        }
        Directive::Leaf(filter, component, state) => {
            declare_leaf(alloc, draft, line, filter, component, state)
        }
        Directive::App(filter, left, right, state) => {
            declare_app(alloc, draft, line, filter, left, right, state)
        }
        Directive::Other(filter, state) => declare_other(alloc, draft, line, filter, state),
    }
}

/// Declares the kind of a variable, if there is a type.
fn declare_choices(
    alloc: Global,
    draft: &mut Draft,
    line: &CutLine,
    variable: &str,
    types: Option<SpelledTypes>,
) -> Result<(), FaultKind>
    requires { WordsSay (kind variable.now (option_map types_text types)) (words_of line.now.text.now) }
    ensures taken { let said = kind variable.now (option_map types_text types.entry) in OnOk result
        (TakesDirective (draft_of draft.old) line.now.number line.now.text.now said (draft_of draft.new)) }
    ensures fault { let said = kind variable.now (option_map types_text types.entry) in IfErr result
        (IsFirst (directive_faults (draft_of draft.old) line.now.text.now said)) }
    ensures unchanged { OnErr result (draft_of draft.new ≡ draft_of draft.old) }
{
    match types {
        None => Err(empty_kind(alloc, draft, line, variable)),
        Some(types) => declare_kind(alloc, draft, line, variable, types),
    }
}

/// The fault of a `kind` line without a type.
fn empty_kind(alloc: Global, draft: &Draft, line: &CutLine, variable: &str) -> FaultKind
    ensures { IsFirst (directive_faults (draft_of draft.now) line.now.text.now (kind variable.now None)) result }
{
    let Ok(name) = String::from_str(alloc, variable) else {
        return FaultKind::OutOfMemory;
    };
    if draft.kinds.lacks(draft.variables.number(variable)) {
        FaultKind::EmptyKind(name)
    } else {
        FaultKind::DuplicateKind(name)
    }
}

/// Declares the kind of a variable.
fn declare_kind(
    alloc: Global,
    draft: &mut Draft,
    line: &CutLine,
    variable: &str,
    types: SpelledTypes,
) -> Result<(), FaultKind>
    requires { WordsSay (kind variable.now (Some (types_text types))) (words_of line.now.text.now) }
    ensures taken { let said = kind variable.now (Some (types_text types.entry)) in OnOk result
        (TakesDirective (draft_of draft.old) line.now.number line.now.text.now said (draft_of draft.new)) }
    ensures fault { let said = kind variable.now (Some (types_text types.entry)) in IfErr result
        (IsFirst (directive_faults (draft_of draft.old) line.now.text.now said)) }
    ensures unchanged { OnErr result (draft_of draft.new ≡ draft_of draft.old) }
{
    if !types.are_small() {
        return Err(FaultKind::TooManyNodes);
    }
    if !draft.kinds.lacks(draft.variables.number(variable)) {
        return Err(FaultKind::DuplicateKind(String::from_str(alloc, variable)?));
    }
    if let Some(place) = first_variable(line.tokens) {
        return Err(FaultKind::KindHasVariable(byte_at(line.text, line.tokens, place)));
    }
    Ok(draft.put_kind(alloc, variable, &types)?)
}

/// Declares a component.
fn declare_component(
    alloc: Global,
    draft: &mut Draft,
    line: &CutLine,
    component: &str,
    spelled: SpelledType,
) -> Result<(), FaultKind>
    ensures taken { let said = comp component.now (type_text spelled.entry) in OnOk result
        (TakesDirective (draft_of draft.old) line.now.number line.now.text.now said (draft_of draft.new)) }
    ensures fault { let said = comp component.now (type_text spelled.entry) in IfErr result
        (IsFirst (directive_faults (draft_of draft.old) line.now.text.now said)) }
    ensures unchanged { OnErr result (draft_of draft.new ≡ draft_of draft.old) }
{
    if !spelled.is_small() {
        return Err(FaultKind::TooManyNodes);
    }
    if draft.component_names.find(component).is_some() {
        return Err(FaultKind::DuplicateComponent(String::from_str(alloc, component)?));
    }
    Ok(draft.put_component(alloc, line.number, component, spelled)?)
}

/// Sets the template of a component.
fn declare_template(
    alloc: Global,
    draft: &mut Draft,
    line: &CutLine,
    component: &str,
) -> Result<(), FaultKind>
    ensures taken { (ws : List Word) → let said = text component.now ws in OnOk result
        (TakesDirective (draft_of draft.old) line.now.number line.now.text.now said (draft_of draft.new)) }
    ensures fault { (ws : List Word) → IfErr result
        (IsFirst (directive_faults (draft_of draft.old) line.now.text.now (text component.now ws))) }
    ensures unchanged { OnErr result (draft_of draft.new ≡ draft_of draft.old) }
{
    let Some(number) = draft.component_names.find(component) else {
        return Err(FaultKind::UnknownComponent(String::from_str(alloc, component)?));
    };
    let template = template_text(line.text, line.tokens);
    match Template::read(alloc, template) {
        Ok(template) => {
            draft.set_template(number, template);
            Ok(())
        }
        Err(fault) => Err(template_fault(fault, template, line.text.len() - template.len())),
    }
}

/// The text of the template of a line with these tokens: what stands behind the third one, without one space or tab in
/// front.
fn template_text<'a>(line: &'a str, tokens: &[Token]) -> &'a str
    requires { map located tokens.now ≡ tokens_of line.now }
    ensures { result.now ≡ template_text line.now }
{
    match tokens.get(2) {
        Some(sign) => without_blank(&line[sign.start as usize + sign.text.len()..]),
        None => "",
    }
}

/// The text without one space or tab in front.
fn without_blank(text: &str) -> &str
    ensures { result.now ≡ without_blank text.now }
{
    if let Some(rest) = text.strip_prefix(' ') {
        return rest;
    }
    text.strip_prefix('\t').unwrap_or(text)
}

/// The fault of a template, in front of which stand so many bytes of its line.
fn template_fault(fault: TemplateFault, text: &str, start: usize) -> FaultKind
    requires few { start + length text.now < 2 ^ 32 }
    requires fault { IsFaultOf text.now fault }
    ensures { IsTemplateFault start fault result }
{
    match fault {
        TemplateFault::BadHole(byte) => FaultKind::BadHole(start as u32 + byte),
        TemplateFault::HoleZero(byte) => FaultKind::HoleZero(start as u32 + byte),
        TemplateFault::HoleOver16(byte) => FaultKind::HoleOver16(start as u32 + byte),
        TemplateFault::OutOfMemory => FaultKind::OutOfMemory,
    }
}

/// Sets the cost of a component.
fn declare_cost(
    alloc: Global,
    draft: &mut Draft,
    line: &CutLine,
    component: &str,
    digits: Numeral,
) -> Result<(), FaultKind>
    ensures taken { let said = cost component.now digits.entry.text.now in OnOk result
        (TakesDirective (draft_of draft.old) line.now.number line.now.text.now said (draft_of draft.new)) }
    ensures fault { let said = cost component.now digits.entry.text.now in IfErr result
        (IsFirst (directive_faults (draft_of draft.old) line.now.text.now said)) }
    ensures unchanged { OnErr result (draft_of draft.new ≡ draft_of draft.old) }
{
    let Some(number) = draft.component_names.find(component) else {
        return Err(FaultKind::UnknownComponent(String::from_str(alloc, component)?));
    };
    let Some(cost) = cost_in(&digits) else {
        return Err(FaultKind::CostOutOfRange(String::from_str(alloc, component)?));
    };
    draft.set_cost(number, cost);
    Ok(())
}

/// The number, if it is from 1 to the greatest cost.
fn cost_in(digits: &Numeral) -> Option<u32>
    ensures { SomeIff result
        ((1 ≤ number_value digits.now.text.now) × (number_value digits.now.text.now ≤ max_cost))
        (number_value digits.now.text.now) }
{
    match digits.value() {
        Some(cost) if 1 <= cost && cost <= MAX_COST => Some(cost),
        _ => None,
    }
}

/// Declares the variance of a constructor.
fn declare_variance(
    alloc: Global,
    draft: &mut Draft,
    line: &CutLine,
    constructor: &str,
    word: &str,
) -> Result<(), FaultKind>
    ensures taken { let said = variance constructor.now word.now in OnOk result
        (TakesDirective (draft_of draft.old) line.now.number line.now.text.now said (draft_of draft.new)) }
    ensures fault { let said = variance constructor.now word.now in IfErr result
        (IsFirst (directive_faults (draft_of draft.old) line.now.text.now said)) }
    ensures unchanged { OnErr result (draft_of draft.new ≡ draft_of draft.old) }
{
    if draft.has_variance(constructor) {
        return Err(FaultKind::DuplicateVariance(String::from_str(alloc, constructor)?));
    }
    Ok(draft.put_variance(alloc, constructor, word)?)
}

/// Declares a filter, with its accepting states.
fn declare_filter<'t, 'a>(
    alloc: Global,
    draft: &mut Draft,
    line: &CutLine,
    name: &'a str,
    first: &'a str,
    others: &'t [Token<'a>],
) -> Result<(), FaultKind>
    ensures taken { let said = filter name.now first.now (texts others.now) in OnOk result
        (TakesDirective (draft_of draft.old) line.now.number line.now.text.now said (draft_of draft.new)) }
    ensures fault { let said = filter name.now first.now (texts others.now) in IfErr result
        (IsFirst (directive_faults (draft_of draft.old) line.now.text.now said)) }
    ensures unchanged { OnErr result (draft_of draft.new ≡ draft_of draft.old) }
{
    if draft.has_filter(name) {
        return Err(FaultKind::DuplicateFilter(String::from_str(alloc, name)?));
    }
    draft.put_filter(alloc, name, Directive::Filter(name, first, others))
}

/// Declares the state of a component by a filter.
fn declare_leaf<'a>(
    alloc: Global,
    draft: &mut Draft,
    line: &CutLine,
    name: &'a str,
    component: &'a str,
    state: &'a str,
) -> Result<(), FaultKind>
    ensures taken { let said = leaf name.now component.now state.now in OnOk result
        (TakesDirective (draft_of draft.old) line.now.number line.now.text.now said (draft_of draft.new)) }
    ensures fault { let said = leaf name.now component.now state.now in IfErr result
        (IsFirst (directive_faults (draft_of draft.old) line.now.text.now said)) }
    ensures unchanged { OnErr result (draft_of draft.new ≡ draft_of draft.old) }
{
    if !draft.has_component(component) {
        return Err(FaultKind::UnknownComponent(String::from_str(alloc, component)?));
    }
    declare_own(alloc, draft, name, Directive::Leaf(name, component, state))
}

/// Declares the state of an application by a filter.
fn declare_app<'a>(
    alloc: Global,
    draft: &mut Draft,
    line: &CutLine,
    name: &'a str,
    left: &'a str,
    right: &'a str,
    state: &'a str,
) -> Result<(), FaultKind>
    ensures taken { let said = app name.now left.now right.now state.now in OnOk result
        (TakesDirective (draft_of draft.old) line.now.number line.now.text.now said (draft_of draft.new)) }
    ensures fault { let said = app name.now left.now right.now state.now in IfErr result
        (IsFirst (directive_faults (draft_of draft.old) line.now.text.now said)) }
    ensures unchanged { OnErr result (draft_of draft.new ≡ draft_of draft.old) }
{
    declare_own(alloc, draft, name, Directive::App(name, left, right, state))
}

/// Declares the state of what no line of a filter speaks of.
fn declare_other<'a>(
    alloc: Global,
    draft: &mut Draft,
    line: &CutLine,
    name: &'a str,
    state: &'a str,
) -> Result<(), FaultKind>
    ensures taken { let said = other name.now state.now in OnOk result
        (TakesDirective (draft_of draft.old) line.now.number line.now.text.now said (draft_of draft.new)) }
    ensures fault { let said = other name.now state.now in IfErr result
        (IsFirst (directive_faults (draft_of draft.old) line.now.text.now said)) }
    ensures unchanged { OnErr result (draft_of draft.new ≡ draft_of draft.old) }
{
    declare_own(alloc, draft, name, Directive::Other(name, state))
}

/// Takes a line of a filter that is to be declared.
fn declare_own(
    alloc: Global,
    draft: &mut Draft,
    name: &str,
    said: Directive,
) -> Result<(), FaultKind>
    requires { filter_of (directive_of said) ≡ Some name.now }
    ensures taken { OnOk result
        (TakesFilterLine (draft_of draft.old) (directive_of said.entry) name.now (draft_of draft.new)) }
    ensures fault { IfErr result (IsFirst (own_faults (draft_of draft.old) (directive_of said.entry) name.now)) }
    ensures unchanged { OnErr result (draft_of draft.new ≡ draft_of draft.old) }
{
    let Some(number) = draft.filter_names.find(name) else {
        return Err(FaultKind::UnknownFilter(String::from_str(alloc, name)?));
    };
    draft.put_filter_line(alloc, number, name, said)
}
