//! What waits on a builder's stack for the tree that is read next, by operator precedence (the shunting yard).
ghost use Rattle.std.specs.Prelude.{◌≡◌, ◌-◌, slice_get, length, IfOk, OnOk};
ghost use Rattle.std.specs.Option.{option_map};
ghost use Rattle.cls_syntax.specs.SchemaReading.{Outer, Level, atom_read, applied, ended};
ghost use Rattle.cls_syntax.specs.WaitingStacks.{with_times, with_and, with_to, all_of, Stands, IsClosed, IsFactor, IsSummand, is_product, is_meet};

use crate::tree::Tree;
use cls_base::{Name, OutOfMemory};
use std::alloc::Global;
use std::mem;

/// What waits on the stack for the tree that is read next.
#[derive(Drop)]
pub(crate) enum Waiting<T: Tree> {
    /// An open parenthesis, and the name before it.
    Open(Option<Name>),
    /// What stands before a `->`.
    Source(T),
    /// What stands before a `&`.
    Meet(T),
    /// What stands before a `*`.
    Product(T),
}

/// After an atom and the end of a parenthesis, if one is open.
pub(crate) fn close<T: Tree>(
    alloc: Global,
    stack: &mut Vec<Waiting<T>>,
    last: T,
) -> Result<Option<T>, OutOfMemory>
    ensures { IfOk result (λ r. (o : Outer) (l : Level) → Stands T.tree stack.old.items o l
        → IsClosed T.tree stack.new.items r o (all_of l (T.tree last))) }
{
    let mut whole = last;
    while let Some(waiting) = stack.pop() {
        whole = match waiting {
            Waiting::Product(left) => T::product(alloc, left, whole)?,
            Waiting::Meet(left) => T::meet(alloc, left, whole)?,
            Waiting::Source(source) => T::arrow(alloc, source, whole)?,
            Waiting::Open(name) => return Ok(Some(named(alloc, name, whole)?)),
        };
    }
    Ok(None)
}

/// A constructor over the tree, or the tree alone.
fn named<T: Tree>(alloc: Global, name: Option<Name>, inner: T) -> Result<T, OutOfMemory>
    ensures { IfOk result (λ t. T.tree t ≡ applied (option_map (λ c. c.0) name) (T.tree inner)) }
{
    match name {
        None => Ok(inner),
        Some(name) => T::constructor(alloc, name, inner),
    }
}

/// Where no token is left.
pub(crate) fn finish<T: Tree>(
    alloc: Global,
    stack: &mut Vec<Waiting<T>>,
    last: T,
) -> Result<Option<T>, OutOfMemory>
    ensures { IfOk result (λ r. (o : Outer) (l : Level) → Stands T.tree stack.old.items o l
        → option_map T.tree r ≡ ended (atom_read o l (T.tree last))) }
{
    let mut read = last;
    while let Some(waiting) = stack.pop() {
        read = match waiting {
            Waiting::Product(left) => T::product(alloc, left, read)?,
            Waiting::Meet(left) => T::meet(alloc, left, read)?,
            Waiting::Source(source) => T::arrow(alloc, source, read)?,
            Waiting::Open(_) => return Ok(None),
        };
    }
    Ok(Some(read))
}

/// What was read goes on before a `*`. A product that waits already grows in place.
pub(crate) fn put_product<T: Tree>(
    alloc: Global,
    stack: &mut Vec<Waiting<T>>,
    read: T,
) -> Result<(), OutOfMemory>
    ensures { OnOk result ((o : Outer) (l : Level) → Stands T.tree stack.old.items o l
        → Stands T.tree stack.new.items o (with_times l (T.tree read))) }
{
    if !ends_with_product(stack) {
        stack.push(Waiting::Product(read))?;
        return Ok(());
    }
    let last = stack.len() - 1;
    let Waiting::Product(left) = &mut stack[last] else {
        unreachable!()
    };
    let begun = mem::replace(left, T::omega());
    *left = T::product(alloc, begun, read)?;
    Ok(())
}

/// What was read goes on before a `&`. An intersection that waits already grows in place.
pub(crate) fn put_meet<T: Tree>(
    alloc: Global,
    stack: &mut Vec<Waiting<T>>,
    read: T,
) -> Result<(), OutOfMemory>
    ensures { OnOk result ((o : Outer) (l : Level) → Stands T.tree stack.old.items o l
        → Stands T.tree stack.new.items o (with_and l (T.tree read))) }
{
    let product = factor(alloc, stack, read)?;
    if !ends_with_meet(stack) {
        stack.push(Waiting::Meet(product))?;
        return Ok(());
    }
    let last = stack.len() - 1;
    let Waiting::Meet(left) = &mut stack[last] else {
        unreachable!()
    };
    let begun = mem::replace(left, T::omega());
    *left = T::meet(alloc, begun, product)?;
    Ok(())
}

/// What was read goes on before a `->`.
pub(crate) fn put_source<T: Tree>(
    alloc: Global,
    stack: &mut Vec<Waiting<T>>,
    read: T,
) -> Result<(), OutOfMemory>
    ensures { OnOk result ((o : Outer) (l : Level) → Stands T.tree stack.old.items o l
        → Stands T.tree stack.new.items o (with_to l (T.tree read))) }
{
    let source = summand(alloc, stack, read)?;
    stack.push(Waiting::Source(source))?;
    Ok(())
}

/// The product that ends with what was read.
// Always inlined for speed: so the tree stays in registers where none waits.
#[inline(always)]
fn factor<T: Tree>(alloc: Global, stack: &mut Vec<Waiting<T>>, last: T) -> Result<T, OutOfMemory>
    ensures { IfOk result (λ t. (o : Outer) (l : Level) → Stands T.tree stack.old.items o l
        → IsFactor T.tree stack.new.items o l (T.tree last) (T.tree t)) }
{
    if !ends_with_product(stack) {
        return Ok(last);
    }
    // In two steps for the prover, which else does not learn what is left for the second.
    let Some(waiting) = stack.pop() else {
        unreachable!()
    };
    let Waiting::Product(left) = waiting else {
        unreachable!()
    };
    T::product(alloc, left, last)
}

/// The intersection that ends with what was read.
fn summand<T: Tree>(alloc: Global, stack: &mut Vec<Waiting<T>>, last: T) -> Result<T, OutOfMemory>
    ensures { IfOk result (λ t. (o : Outer) (l : Level) → Stands T.tree stack.old.items o l
        → IsSummand T.tree stack.new.items o l (T.tree last) (T.tree t)) }
{
    let product = factor(alloc, stack, last)?;
    if !ends_with_meet(stack) {
        return Ok(product);
    }
    // In two steps for the prover, which else does not learn what is left for the second.
    let Some(waiting) = stack.pop() else {
        unreachable!()
    };
    let Waiting::Meet(left) = waiting else {
        unreachable!()
    };
    T::meet(alloc, left, product)
}

/// Whether a product waits on top. It is asked on its own for the prover, which learns little where a pattern of two levels
/// fails, as `Some(Waiting::Product(left))` of `last_mut`.
fn ends_with_product<T: Tree>(stack: &[Waiting<T>]) -> bool
    ensures { result ≡ is_product (slice_get stack.now (length stack.now - 1)) }
{
    matches!(stack.last(), Some(Waiting::Product(_)))
}

/// Whether an intersection waits on top: asked on its own for the same reason.
fn ends_with_meet<T: Tree>(stack: &[Waiting<T>]) -> bool
    ensures { result ≡ is_meet (slice_get stack.now (length stack.now - 1)) }
{
    matches!(stack.last(), Some(Waiting::Meet(_)))
}
