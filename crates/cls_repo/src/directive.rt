//! The lines of a repository as they are written, read from the left.
ghost use Rattle.cls_lexer.specs.Words.{words};
ghost use Rattle.std.specs.Prelude.{◌≡◌, codes};
ghost use Rattle.std.specs.Option.{option_map};
ghost use Rattle.cls_base.specs.Limits.{max_cost};
ghost use Rattle.cls_lexer.specs.declared.token.TokenKind.TheVariants.{Colon, Equals, To};
ghost use Rattle.cls_syntax.specs.declared.role.Role.TheVariants.{Constructor, NewVariable, Component, NewComponent, Variance, Filter, NewFilter, State, StateOrAny, StateOrNone};
ghost use Rattle.cls_syntax.specs.Forms.{nothing, ◌⨾◌, the_word, the_sign, a_name, a_number, a_type, perhaps, names, types, anything};
ghost use Rattle.cls_syntax.specs.Readings.{Reads, ReadsLine};
ghost use Rattle.cls_syntax.specs.SpelledTypes.{type_text, types_text};
ghost use Rattle.cls_syntax.specs.TokenTexts.{texts};
ghost use Rattle.cls_repo.specs.Directives.{repository_rows, row_of, is_end};
ghost use Rattle.cls_repo.specs.Written.{directive_of};

use cls_lexer::{Numeral, Token, TokenKind};
use cls_syntax::{
    Role, SpelledType, SpelledTypes, Stop, end_at, name_at, names_at, number_at, sign_at, type_at,
    types_at, word_at,
};

/// A line of a repository as it is written.
#[derive(Clone, Copy, Debug)]
pub(crate) enum Directive<'t, 'a> {
    /// `sub NAME NAME`: the first constructor is below the second.
    Sub(&'a str, &'a str),
    /// `kind NAME = TYPE | TYPE ..`: a variable and the types that it stands for, None if nothing stands behind the
    /// sign.
    Kind(&'a str, Option<SpelledTypes<'t, 'a>>),
    /// `comp NAME : TYPE`: a component and its type.
    Comp(&'a str, SpelledType<'t, 'a>),
    /// `text NAME = REST`: a component, and the tokens of its template, which say nothing.
    Text(&'a str, &'t [Token<'a>]),
    /// `end`
    End,
    /// `cost NAME N`: a component and its cost.
    Cost(&'a str, Numeral<'a>),
    /// `variance NAME contra` or `variance NAME inv`: a constructor and the word.
    Variance(&'a str, &'a str),
    /// `filter NAME accepts STATE STATE ..`: a filter, its first accepting state, and the tokens of the others.
    Filter(&'a str, &'a str, &'t [Token<'a>]),
    /// `leaf NAME NAME -> STATE`: a filter, a component and its state, or `none`.
    Leaf(&'a str, &'a str, &'a str),
    /// `app NAME STATE STATE -> STATE`: a filter, the states of two parts, each of which may be `_`, and the state of the
    /// application, or `none`.
    App(&'a str, &'a str, &'a str, &'a str),
    /// `other NAME STATE`: a filter, and the state of what no line of it speaks of.
    Other(&'a str, &'a str),
}

impl Directive<'_, '_> {
    /// Whether the line is the last one of the repository.
    pub(crate) fn is_end(&self) -> bool
        ensures { result ≡ is_end (directive_of self.now) }
    {
        matches!(self, Directive::End)
    }
}

/// Reads the tokens of a line of a repository.
pub(crate) fn directive_at<'t, 'a>(
    tokens: &'t [Token<'a>],
) -> Result<Directive<'t, 'a>, Stop<'t, 'a>>
    ensures { ReadsLine repository_rows tokens.now result (λ d. row_of (directive_of d)) }
{
    if let Ok(rest) = word_at(tokens, "sub") {
        let (lower, upper) = two_names(rest, Role::Constructor)?;
        return Ok(Directive::Sub(lower, upper));
    }
    if let Ok(rest) = word_at(tokens, "kind") {
        let (variable, types) = kind_form(rest)?;
        return Ok(Directive::Kind(variable, types));
    }
    if let Ok(rest) = word_at(tokens, "comp") {
        let (component, spelled) = component_form(rest)?;
        return Ok(Directive::Comp(component, spelled));
    }
    if let Ok(rest) = word_at(tokens, "text") {
        let (component, template) = template_form(rest)?;
        return Ok(Directive::Text(component, template));
    }
    if let Ok(rest) = word_at(tokens, "end") {
        end_at(rest)?;
        return Ok(Directive::End);
    }
    if let Ok(rest) = word_at(tokens, "cost") {
        let (component, cost) = cost_form(rest)?;
        return Ok(Directive::Cost(component, cost));
    }
    if let Ok(rest) = word_at(tokens, "variance") {
        let (constructor, word) = two_names(rest, Role::Variance)?;
        return Ok(Directive::Variance(constructor, word));
    }
    if let Ok(rest) = word_at(tokens, "filter") {
        let (filter, first, others) = filter_form(rest)?;
        return Ok(Directive::Filter(filter, first, others));
    }
    if let Ok(rest) = word_at(tokens, "leaf") {
        let (filter, component, state) = leaf_form(rest)?;
        return Ok(Directive::Leaf(filter, component, state));
    }
    if let Ok(rest) = word_at(tokens, "app") {
        let (filter, left, right, state) = app_form(rest)?;
        return Ok(Directive::App(filter, left, right, state));
    }
    if let Ok(rest) = word_at(tokens, "other") {
        let (filter, state) = other_form(rest)?;
        return Ok(Directive::Other(filter, state));
    }
    Err(Stop {
        rest: tokens,
        wants_name: false,
    })
}

/// A constructor, and a name in this role.
fn two_names<'t, 'a>(
    tokens: &'t [Token<'a>],
    role: Role,
) -> Result<(&'a str, &'a str), Stop<'t, 'a>>
    ensures { Reads (a_name Constructor ⨾ a_name role ⨾ nothing) tokens.now result (λ x. (x.0.now, (x.1.now, tt))) }
{
    let (first, rest) = name_at(tokens, Role::Constructor)?;
    let (second, rest) = name_at(rest, role)?;
    end_at(rest)?;
    Ok((first, second))
}

fn kind_form<'t, 'a>(
    tokens: &'t [Token<'a>],
) -> Result<(&'a str, Option<SpelledTypes<'t, 'a>>), Stop<'t, 'a>>
    ensures { Reads (a_name NewVariable ⨾ the_sign Equals ⨾ perhaps types) tokens.now result
        (λ x. (x.0.now, option_map types_text x.1)) }
{
    let (variable, rest) = name_at(tokens, Role::NewVariable)?;
    let rest = sign_at(rest, TokenKind::Equals)?;
    let types = perhaps_types(rest)?;
    Ok((variable, types))
}

#[tactic(auto, using(cls_syntax::proofs::Tails::tails))]
fn perhaps_types<'t, 'a>(
    tokens: &'t [Token<'a>],
) -> Result<Option<SpelledTypes<'t, 'a>>, Stop<'t, 'a>>
    ensures { Reads (perhaps types) tokens.now result (λ x. option_map types_text x) }
{
    if tokens.is_empty() {
        return Ok(None);
    }
    Ok(Some(types_at(tokens)?))
}

fn component_form<'t, 'a>(
    tokens: &'t [Token<'a>],
) -> Result<(&'a str, SpelledType<'t, 'a>), Stop<'t, 'a>>
    ensures { Reads (a_name NewComponent ⨾ the_sign Colon ⨾ a_type ⨾ nothing) tokens.now result
        (λ x. (x.0.now, (type_text x.1, tt))) }
{
    let (component, rest) = name_at(tokens, Role::NewComponent)?;
    let rest = sign_at(rest, TokenKind::Colon)?;
    let (spelled, rest) = type_at(rest)?;
    end_at(rest)?;
    Ok((component, spelled))
}

fn template_form<'t, 'a>(
    tokens: &'t [Token<'a>],
) -> Result<(&'a str, &'t [Token<'a>]), Stop<'t, 'a>>
    ensures { Reads (a_name Component ⨾ the_sign Equals ⨾ anything) tokens.now result (λ x. (x.0.now, words x.1.now)) }
{
    let (component, rest) = name_at(tokens, Role::Component)?;
    let rest = sign_at(rest, TokenKind::Equals)?;
    Ok((component, rest))
}

fn cost_form<'t, 'a>(tokens: &'t [Token<'a>]) -> Result<(&'a str, Numeral<'a>), Stop<'t, 'a>>
    ensures { Reads (a_name Component ⨾ a_number 1 max_cost ⨾ nothing) tokens.now result
        (λ x. (x.0.now, (x.1.text.now, tt))) }
{
    let (component, rest) = name_at(tokens, Role::Component)?;
    let (cost, rest) = number_at(rest)?;
    end_at(rest)?;
    Ok((component, cost))
}

fn filter_form<'t, 'a>(
    tokens: &'t [Token<'a>],
) -> Result<(&'a str, &'a str, &'t [Token<'a>]), Stop<'t, 'a>>
    ensures { Reads (a_name NewFilter ⨾ the_word (codes "accepts") ⨾ a_name State ⨾ names State) tokens.now result
        (λ x. (x.0.now, (x.1.now, texts x.2.now))) }
{
    let (filter, rest) = name_at(tokens, Role::NewFilter)?;
    let rest = word_at(rest, "accepts")?;
    let (first, rest) = name_at(rest, Role::State)?;
    let others = names_at(rest, Role::State)?;
    Ok((filter, first, others))
}

fn leaf_form<'t, 'a>(tokens: &'t [Token<'a>]) -> Result<(&'a str, &'a str, &'a str), Stop<'t, 'a>>
    ensures { Reads (a_name Filter ⨾ a_name Component ⨾ the_sign To ⨾ a_name StateOrNone ⨾ nothing) tokens.now result
        (λ x. (x.0.now, (x.1.now, (x.2.now, tt)))) }
{
    let (filter, rest) = name_at(tokens, Role::Filter)?;
    let (component, rest) = name_at(rest, Role::Component)?;
    let rest = sign_at(rest, TokenKind::To)?;
    let (state, rest) = name_at(rest, Role::StateOrNone)?;
    end_at(rest)?;
    Ok((filter, component, state))
}

fn app_form<'t, 'a>(
    tokens: &'t [Token<'a>],
) -> Result<(&'a str, &'a str, &'a str, &'a str), Stop<'t, 'a>>
    ensures { Reads
        (a_name Filter ⨾ a_name StateOrAny ⨾ a_name StateOrAny ⨾ the_sign To ⨾ a_name StateOrNone ⨾ nothing)
        tokens.now result (λ x. (x.0.now, (x.1.now, (x.2.now, (x.3.now, tt))))) }
{
    let (filter, rest) = name_at(tokens, Role::Filter)?;
    let (left, rest) = name_at(rest, Role::StateOrAny)?;
    let (right, rest) = name_at(rest, Role::StateOrAny)?;
    let rest = sign_at(rest, TokenKind::To)?;
    let (state, rest) = name_at(rest, Role::StateOrNone)?;
    end_at(rest)?;
    Ok((filter, left, right, state))
}

fn other_form<'t, 'a>(tokens: &'t [Token<'a>]) -> Result<(&'a str, &'a str), Stop<'t, 'a>>
    ensures { Reads (a_name Filter ⨾ a_name State ⨾ nothing) tokens.now result (λ x. (x.0.now, (x.1.now, tt))) }
{
    let (filter, rest) = name_at(tokens, Role::Filter)?;
    let (state, rest) = name_at(rest, Role::State)?;
    end_at(rest)?;
    Ok((filter, state))
}
