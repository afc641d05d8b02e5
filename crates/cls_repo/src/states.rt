//! The lines of a filter: the states that they name, and what they say of its automaton.
ghost use Rattle.std.specs.Prelude.{◌≡◌, [], ◌∷◌, length, map, take, OnOk, OnErr};
ghost use Rattle.cls_filter.specs.Lines.{with_leaf, with_app};
ghost use Rattle.cls_lexer.specs.Names.{number_of, with_texts};
ghost use Rattle.cls_syntax.specs.Roles.{is_set_aside};
ghost use Rattle.cls_syntax.specs.TokenTexts.{texts};
ghost use Rattle.cls_repo.specs.Declarations.{state_names, state_number, states_named, with_all_accepting, with_line};
ghost use Rattle.cls_repo.specs.Written.{directive_of, AreBelowLimit};

use crate::directive::Directive;
use crate::numbering::number_name;
use cls_base::OutOfMemory;
use cls_filter::Filter;
use cls_lexer::{Names, Token};
use std::alloc::Global;

/// Numbers the states that the line names, in the order of its words. After an error some may be numbered.
pub(crate) fn name_states(
    alloc: Global,
    states: &mut Names,
    said: Directive,
) -> Result<(), OutOfMemory>
    ensures named { OnOk result (states.new ≡ with_texts states.old (states_named (directive_of said.entry))) }
    ensures kept { take (length states.old) states.new ≡ states.old }
{
    match said {
        Directive::Filter(_, first, others) => name_accepting(alloc, states, first, others),
        Directive::Leaf(_, _, state) => name_state(alloc, states, state),
        Directive::App(_, left, right, state) => name_three(alloc, states, left, right, state),
        Directive::Other(_, state) => {
            number_name(alloc, states, state)?;
            Ok(())
        }
        _ => Ok(()),
    }
}

// The state, and those that the tokens name.
fn name_accepting(
    alloc: Global,
    states: &mut Names,
    first: &str,
    others: &[Token],
) -> Result<(), OutOfMemory>
    ensures named { OnOk result (states.new ≡ with_texts states.old (first.now ∷ texts others.now)) }
    ensures kept { take (length states.old) states.new ≡ states.old }
{
    number_name(alloc, states, first)?;
    name_all(alloc, states, others)
}

// The states that the tokens name.
fn name_all(alloc: Global, states: &mut Names, named: &[Token]) -> Result<(), OutOfMemory>
    ensures named { OnOk result (states.new ≡ with_texts states.old (texts named.now)) }
    ensures kept { take (length states.old) states.new ≡ states.old }
{
    for token in named {
        number_name(alloc, states, token.text)?;
    }
    Ok(())
}

// Those of the three words that name states.
fn name_three(
    alloc: Global,
    states: &mut Names,
    left: &str,
    right: &str,
    state: &str,
) -> Result<(), OutOfMemory>
    ensures named { let words = left.now ∷ right.now ∷ state.now ∷ [] in
        OnOk result (states.new ≡ with_texts states.old (state_names words)) }
    ensures kept { take (length states.old) states.new ≡ states.old }
{
    name_state(alloc, states, left)?;
    name_state(alloc, states, right)?;
    name_state(alloc, states, state)
}

// The state, if the word names one.
fn name_state(alloc: Global, states: &mut Names, word: &str) -> Result<(), OutOfMemory>
    ensures named { OnOk result (states.new ≡ with_texts states.old (state_names (word.now ∷ []))) }
    ensures kept { take (length states.old) states.new ≡ states.old }
{
    if is_set_aside(word) {
        return Ok(());
    }
    number_name(alloc, states, word)?;
    Ok(())
}

// Whether the word names no state: `none` or `_`.
fn is_set_aside(word: &str) -> bool
    ensures { result ≡ is_set_aside word.now }
{
    word == "none" || word == "_"
}

/// Puts the line into the automaton of its filter, of which the table has the states that the line names. The only
/// error is out of memory, and then the automaton is as before.
pub(crate) fn put_line(
    filter: &mut Filter,
    components: &Names,
    states: &Names,
    said: Directive,
) -> Result<(), OutOfMemory>
    requires { AreBelowLimit states.now (states_named (directive_of said)) }
    ensures put { let says = directive_of said.entry in
        OnOk result (filter.new ≡ with_line components.now states.now says filter.old) }
    ensures unchanged { OnErr result (filter.new ≡ filter.old) }
{
    match said {
        Directive::Filter(_, first, others) => {
            accept_each(filter, states, first, others);
            Ok(())
        }
        Directive::Leaf(_, component, state) => {
            put_leaf(filter, components, states, component, state)
        }
        Directive::App(_, left, right, state) => {
            put_app(filter, states, left, right, state);
            Ok(())
        }
        Directive::Other(_, state) => {
            filter.other(states.number(state).0);
            Ok(())
        }
        _ => Ok(()),
    }
}

// The state and those that the tokens name are accepting.
fn accept_each(filter: &mut Filter, states: &Names, first: &str, others: &[Token])
    requires { AreBelowLimit states.now (first.now ∷ texts others.now) }
    ensures { filter.new
        ≡ with_all_accepting filter.old (map (number_of states.now) (first.now ∷ texts others.now)) }
{
    filter.accept(states.number(first).0);
    accept_all(filter, states, others);
}

// The states that the tokens name are accepting.
fn accept_all(filter: &mut Filter, states: &Names, named: &[Token])
    requires { AreBelowLimit states.now (texts named.now) }
    ensures { filter.new ≡ with_all_accepting filter.old (map (number_of states.now) (texts named.now)) }
{
    for token in named {
        filter.accept(states.number(token.text).0);
    }
}

// The line `leaf`.
fn put_leaf(
    filter: &mut Filter,
    components: &Names,
    states: &Names,
    component: &str,
    state: &str,
) -> Result<(), OutOfMemory>
    requires { AreBelowLimit states.now (state_names (state.now ∷ [])) }
    ensures put { let x = number_of components.now component.now in
        OnOk result (filter.new ≡ with_leaf filter.old x (state_number states.now state.now)) }
    ensures unchanged { OnErr result (filter.new ≡ filter.old) }
{
    let number = components.number(component).0;
    let leads = state_in(states, state);
    filter.leaf(number, leads)
}

// The line `app`.
fn put_app(filter: &mut Filter, states: &Names, left: &str, right: &str, state: &str)
    requires { AreBelowLimit states.now (state_names (left.now ∷ right.now ∷ state.now ∷ [])) }
    ensures { let number = state_number states.now in
        filter.new ≡ with_app filter.old (number left.now) (number right.now) (number state.now) }
{
    let first = state_in(states, left);
    let second = state_in(states, right);
    let leads = state_in(states, state);
    filter.app(first, second, leads);
}

// The number of the state, or none where the word names none.
fn state_in(states: &Names, word: &str) -> Option<u32>
    ensures { result ≡ state_number states.now word.now }
{
    if is_set_aside(word) {
        return None;
    }
    Some(states.number(word).0)
}
