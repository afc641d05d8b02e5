//! To which state the application of a state to another leads.
ghost use Rattle.std.specs.Prelude.{◌≡◌, ◌<◌, ◌++◌, [], ◌∷◌, IfOk, OnOk, cond, filter as filtered_by, length, map, slice_index_or};
ghost use Rattle.cls_base.specs.Limits.{max_states};
ghost use Rattle.cls_filtered.specs.Filtered.{below, is_state, leads_to, left_pairs, pairs_to};

use cls_base::OutOfMemory;
use cls_base::limits::MAX_STATES;
use cls_filter::Filter;
use std::alloc::Global;
use std::marker::Model;

/// Pairs of states, seen as the list of them.
#[derive(Drop)]
pub(crate) struct StatePairs {
    pairs: Vec<(u32, u32)>,
}

impl Model for StatePairs {
    ghost use Rattle.std.specs.Prelude.{ℕ, List};

    ghost Value = { List (ℕ × ℕ) };

    ghost view = { λ p. p.pairs.items };
}

impl StatePairs {
    fn new(alloc: Global) -> StatePairs
        ensures { result ≡ [] }
    {
        StatePairs {
            pairs: Vec::new(alloc),
        }
    }

    fn push(&mut self, left: u32, right: u32) -> Result<(), OutOfMemory>
        ensures { OnOk result (self.new ≡ self.old ++ (left, right) ∷ []) }
    {
        self.pairs.push((left, right))?;
        Ok(())
    }

    fn as_slice(&self) -> &[(u32, u32)]
        ensures { result.now ≡ self.now }
    {
        self.pairs.as_slice()
    }
}

/// For each state the pairs of states whose application has it.
pub(crate) fn leads_of(alloc: Global, filter: &Filter) -> Result<Vec<StatePairs>, OutOfMemory>
    ensures { IfOk result (λ leads. leads.items ≡ map (pairs_to filter.now) (below max_states)) }
{
    let mut leads = Vec::with_capacity(alloc, MAX_STATES as usize)?;
    for state in 0..MAX_STATES {
        let pairs = pairs_to(alloc, filter, state)?;
        leads.push(pairs)?;
    }
    Ok(leads)
}

fn pairs_to(alloc: Global, filter: &Filter, state: u32) -> Result<StatePairs, OutOfMemory>
    ensures { IfOk result (λ pairs. pairs ≡ pairs_to filter.now state) }
{
    let mut pairs = StatePairs::new(alloc);
    for left in 0..MAX_STATES {
        put_pairs(filter, left, state, &mut pairs)?;
    }
    Ok(pairs)
}

// Puts the pairs with this left state behind the others.
fn put_pairs(
    filter: &Filter,
    left: u32,
    state: u32,
    pairs: &mut StatePairs,
) -> Result<(), OutOfMemory>
    requires { left < max_states }
    ensures { OnOk result (pairs.new ≡ pairs.old ++ filtered_by (leads_to filter.now state) (left_pairs left)) }
{
    for right in 0..MAX_STATES {
        put_pair(filter, left, right, state, pairs)?;
    }
    Ok(())
}

// Puts the pair behind the others, if it leads to the state.
fn put_pair(
    filter: &Filter,
    left: u32,
    right: u32,
    state: u32,
    pairs: &mut StatePairs,
) -> Result<(), OutOfMemory>
    requires left { left < max_states }
    requires right { right < max_states }
    ensures { OnOk result (pairs.new ≡ pairs.old
        ++ cond (leads_to filter.now state (left, right)) ((left, right) ∷ []) []) }
{
    if !is_state(filter.joined_state(left, right), state) {
        return Ok(());
    }
    pairs.push(left, right)?;
    Ok(())
}

/// Those of a state.
pub(crate) fn pairs_at(leads: &[StatePairs], state: u32) -> &[(u32, u32)]
    requires { state < length leads.now }
    ensures { result.now ≡ slice_index_or leads.now state [] }
{
    let pairs = &leads[state as usize];
    pairs.as_slice()
}

/// Whether it is this state.
pub(crate) fn is_state(state: Option<u32>, wanted: u32) -> bool
    ensures { result ≡ is_state state wanted }
{
    match state {
        Some(state) => state == wanted,
        None => false,
    }
}
