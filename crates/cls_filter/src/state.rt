//! The state of a term.
ghost use Rattle.std.specs.Prelude.{◌≡◌, ◌<◌, Some};
ghost use Rattle.cls_base.specs.Limits.{max_states};
ghost use Rattle.cls_filter.specs.Automata.{state_of, applied_state};
ghost use Rattle.cls_filter.specs.States.{IsState};

use crate::filter::Filter;
use cls_term::Term;

/// The state of the term, from the component at its head on: one argument is applied after the other.
#[tactic(auto, using(crate::proofs::Spines::states))]
pub(crate) fn state_of(filter: &Filter, term: &Term) -> Option<u32>
    ensures state { result ≡ state_of filter.now term.now }
    ensures small { IsState result }
{
    let arguments = term.args.as_slice();
    let mut state = filter.leaf_state(term.head);
    for argument in arguments {
        let of_argument = state_of(filter, argument);
        state = applied_state(filter, state, of_argument);
    }
    state
}

// The state of the application of a term to another, by their states.
fn applied_state(filter: &Filter, left: Option<u32>, right: Option<u32>) -> Option<u32>
    requires left { IsState left }
    requires right { IsState right }
    ensures state { result ≡ applied_state filter.now left right }
    ensures small { IsState result }
{
    match left {
        Some(state) => state_to(filter, state, right),
        None => None,
    }
}

// The same where the left term has a state.
fn state_to(filter: &Filter, left: u32, right: Option<u32>) -> Option<u32>
    requires left { left < max_states }
    requires right { IsState right }
    ensures state { result ≡ applied_state filter.now (Some left) right }
    ensures small { IsState result }
{
    match right {
        Some(state) => filter.joined_state(left, state),
        None => None,
    }
}
