//! An answer's goals as numbers of rows. Each goal that has no row yet is put behind those that have one, as long as there
//! are no more rows than there may be. A row that is there stays.
ghost use Rattle.std.specs.Prelude.{◌≡◌, ◌<◌, ◌≤◌, [], ◌∷◌, ◌++◌, IfOk, OnErr, IfNone, IfSome, length};
ghost use Rattle.std.specs.List.{position_or_len};
ghost use Rattle.indexmap.specs.IndexSet.{insert_key, insert_all};
ghost use Rattle.cls_core.specs.Adding.{GoesOn};
ghost use Rattle.cls_core.specs.Numbers.{numbers_from};

use cls_base::{Key, OutOfMemory};
use indexmap::IndexSet;
use std::alloc::Global;

// The number of one goal. It is put behind the rows unless it is among them. None comes if and only if there would be too
// many rows.
#[inline]
#[tactic(auto, using(crate::proofs::Insertion::goes_same, crate::proofs::Insertion::goes_equal, crate::proofs::Insertion::goes_key))]
fn number_goal<G: Key + Drop>(
    alloc: Global,
    rows: &mut IndexSet<G>,
    most: u32,
    goal: &G,
) -> Result<Option<u32>, OutOfMemory>
    requires { length rows.old.keys ≤ most }
    ensures added { IfOk result (λ r. IfSome r (λ _. rows.new.keys ≡ insert_key G.eq rows.old.keys goal.now)) }
    ensures number { IfOk result (λ r. IfSome r (λ n. n ≡ position_or_len (G.eq goal.now) rows.old.keys)) }
    ensures few { IfOk result (λ r. IfSome r (λ _. length rows.new.keys ≤ most)) }
    ensures many { IfOk result (λ r. IfNone r (most < length (insert_key G.eq rows.old.keys goal.now))) }
    ensures front { GoesOn rows.old.keys rows.new.keys }
{
    if let Some(row) = rows.get_index_of(goal) {
        return Ok(Some(row as u32));
    }
    if rows.len() >= most as usize {
        return Ok(None);
    }
    let (row, _) = rows.insert_full(goal.copy(alloc)?)?;
    Ok(Some(row as u32))
}

// The numbers of goals, one after another. None comes if and only if there would be too many rows.
#[tactic(auto, using(crate::proofs::Insertion::goes_same, crate::proofs::Insertion::goes_on))]
fn number_goals<G: Key + Drop>(
    alloc: Global,
    rows: &mut IndexSet<G>,
    most: u32,
    goals: &[G],
) -> Result<Option<Vec<u32>>, OutOfMemory>
    requires { length rows.old.keys ≤ most }
    ensures added { IfOk result (λ r. IfSome r (λ _. rows.new.keys ≡ insert_all G.eq rows.old.keys goals.now)) }
    ensures numbers { IfOk result (λ r. IfSome r (λ n. n.items ≡ numbers_from G.eq rows.old.keys goals.now)) }
    ensures few { IfOk result (λ r. IfSome r (λ _. length rows.new.keys ≤ most)) }
    ensures many { IfOk result (λ r. IfNone r (most < length (insert_all G.eq rows.old.keys goals.now))) }
    ensures front { GoesOn rows.old.keys rows.new.keys }
{
    let mut numbers = Vec::with_capacity(alloc, goals.len())?;
    for goal in goals {
        let Some(number) = number_goal(alloc, rows, most, goal)? else {
            return Ok(None);
        };
        numbers.push(number)?;
    }
    Ok(Some(numbers))
}

/// The numbers of goals, one after another. Each goal that isn't among the rows is put behind them. None comes if and only if
/// there would be too many rows, and leaves the rows as they were, as does the Err. The only error is out of memory.
#[tactic(auto, using(crate::proofs::Insertion::goes_cut))]
pub(crate) fn number_whole<G: Key + Drop>(
    alloc: Global,
    rows: &mut IndexSet<G>,
    most: u32,
    goals: &[G],
) -> Result<Option<Vec<u32>>, OutOfMemory>
    requires { length rows.old.keys ≤ most }
    ensures added { IfOk result (λ r. IfSome r (λ _. rows.new.keys ≡ insert_all G.eq rows.old.keys goals.now)) }
    ensures numbers { IfOk result (λ r. IfSome r (λ n. n.items ≡ numbers_from G.eq rows.old.keys goals.now)) }
    ensures few { IfOk result (λ r. IfSome r (λ _. length rows.new.keys ≤ most)) }
    ensures many { IfOk result (λ r. IfNone r (most < length (insert_all G.eq rows.old.keys goals.now))) }
    ensures over { IfOk result (λ r. IfNone r (rows.new.keys ≡ rows.old.keys)) }
    ensures unchanged { OnErr result (rows.new.keys ≡ rows.old.keys) }
{
    let count = rows.len();
    let numbers = number_goals(alloc, rows, most, goals);
    if !matches!(numbers, Ok(Some(_))) {
        rows.truncate(count);
    }
    numbers
}
