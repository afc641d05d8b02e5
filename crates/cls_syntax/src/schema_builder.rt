//! Builds the tree that tokens spell, a schema or a closed type, with a stack of its own in place of recursion.
ghost use Rattle.std.specs.Prelude.{◌≡◌, ℕ, List, ◌<◌, ◌≤◌, true, false, slice_get, length, take, drop, IfOk, OnSome, IfSome};
ghost use Rattle.std.specs.Option.{option_map};
ghost use Rattle.cls_lexer.specs.Words.{words};
ghost use Rattle.cls_syntax.specs.Numberings.{numbered_reading, outcome, is_opening};
ghost use Rattle.cls_syntax.specs.SchemaReading.{Outer, Level, whole, empty_level, operand, after_dollar, atom_read};
ghost use Rattle.cls_syntax.specs.TypeSchemas.{with_constructors, with_variables};
ghost use Rattle.cls_syntax.specs.WaitingStacks.{Stands, IsAtom, IsVariable, IsBehind, IsWithin};

use crate::interning::intern;
use crate::sort::{Sort, is_name, sort_of};
use crate::tree::Tree;
use crate::waiting_stack::{Waiting, close, finish, put_meet, put_product, put_source};
use cls_base::OutOfMemory;
use cls_lexer::{Names, Token, TokenKind};
use std::alloc::Global;

/// What came behind an atom.
#[derive(Drop)]
enum Behind<T: Tree> {
    /// The end of the tokens: the tree is whole.
    Whole(T),
    /// An operator, and behind it the token with this number.
    Operator(usize),
    /// What can't come there.
    Nothing,
}

/// The tree that the tokens spell, if they spell one. Its names are numbered in the order of their tokens: behind a `$`
/// they are variables, otherwise constructors. After an error the tables may have grown.
#[tactic(auto, using(crate::proofs::GrowingTables::kept))]
pub(crate) fn build<T: Tree>(
    alloc: Global,
    constructors: &mut Names,
    variables: &mut Names,
    tokens: &[Token],
) -> Result<Option<T>, OutOfMemory>
    ensures tree { IfOk result (λ t. option_map T.tree t
        ≡ numbered_reading T.leaf constructors.old variables.old false (operand whole empty_level) tokens.now) }
    ensures constructors { IfOk result (λ t. OnSome t
        (constructors.new ≡ with_constructors constructors.old (words tokens.now))) }
    ensures variables { IfOk result (λ t. OnSome t
        (variables.new ≡ with_variables variables.old (words tokens.now))) }
    ensures kept { take (length constructors.old) constructors.new ≡ constructors.old }
    ensures variables_kept { take (length variables.old) variables.new ≡ variables.old }
{
    let mut stack = Vec::with_capacity(alloc, (tokens.len() / 2).min(8))?;
    let mut place = 0;
    loop {
        let Some((read, behind)) = atom(alloc, constructors, variables, &mut stack, tokens, place)?
        else {
            return Ok(None);
        };
        match operator(alloc, &mut stack, read, tokens, behind)? {
            Behind::Whole(whole) => return Ok(Some(whole)),
            Behind::Operator(next) => place = next,
            Behind::Nothing => return Ok(None),
        }
    }
}

/// The next atom, and the number of the token behind it. Where a parenthesis opens, it and the name before it go on the
/// stack.
#[tactic(auto, using(crate::proofs::GrowingTables::kept))]
fn atom<T: Tree>(
    alloc: Global,
    constructors: &mut Names,
    variables: &mut Names,
    stack: &mut Vec<Waiting<T>>,
    tokens: &[Token],
    from: usize,
) -> Result<Option<(T, usize)>, OutOfMemory>
    ensures on { IfOk result (λ r. IfSome r (λ a. from < a.1)) }
    ensures within { IfOk result (λ r. IfSome r (λ a. a.1 ≤ length tokens.now)) }
    ensures read { IfOk result (λ r. (o : Outer) (l : Level) → Stands T.tree stack.old.items o l
        → IsAtom T.tree stack.new.items
        (λ s p. outcome T.leaf constructors.new variables.new false s (drop p tokens.now)) r
        (outcome T.leaf constructors.old variables.old false (operand o l) (drop from tokens.now))) }
    ensures kept { take (length constructors.old) constructors.new ≡ constructors.old }
    ensures variables_kept { take (length variables.old) variables.new ≡ variables.old }
{
    let mut place = from;
    while place < tokens.len() {
        let token = &tokens[place];
        place += 1;
        match sort_of(token) {
            Sort::Open => {
                stack.push(Waiting::Open(None))?;
            }
            Sort::Name => {
                let name = intern(alloc, constructors, token.text)?;
                if !opens(tokens, place) {
                    return Ok(Some((T::bare(name), place)));
                }
                place += 1;
                stack.push(Waiting::Open(Some(name)))?;
            }
            Sort::Omega => return Ok(Some((T::omega(), place))),
            Sort::Dollar => return variable(alloc, variables, tokens, place),
            _ => return Ok(None),
        }
    }
    Ok(None)
}

/// Whether a parenthesis opens at this token.
fn opens(tokens: &[Token], place: usize) -> bool
    ensures { result ≡ is_opening (slice_get tokens.now place) }
{
    match tokens.get(place) {
        Some(token) => matches!(token.kind, TokenKind::Open),
        None => false,
    }
}

/// The variable behind a `$`, and the number of the token behind it.
fn variable<T: Tree>(
    alloc: Global,
    variables: &mut Names,
    tokens: &[Token],
    place: usize,
) -> Result<Option<(T, usize)>, OutOfMemory>
    ensures on { IfOk result (λ r. IfSome r (λ a. place < a.1)) }
    ensures within { IfOk result (λ r. IfSome r (λ a. a.1 ≤ length tokens.now)) }
    ensures read { IfOk result (λ r. (cs : List (List ℕ)) (o : Outer) (l : Level) → IsVariable T.tree
        (λ s p. outcome T.leaf cs variables.new false s (drop p tokens.now)) r o l
        (outcome T.leaf cs variables.old true (after_dollar o l) (drop place tokens.now))) }
    ensures kept { take (length variables.old) variables.new ≡ variables.old }
{
    if place >= tokens.len() || !is_name(&tokens[place]) {
        return Ok(None);
    }
    let name = intern(alloc, variables, tokens[place].text)?;
    match T::variable(name) {
        Some(variable) => Ok(Some((variable, place + 1))),
        None => Ok(None),
    }
}

/// After an atom: closes parentheses up to an operator, which goes on the stack, or to the end.
fn operator<T: Tree>(
    alloc: Global,
    stack: &mut Vec<Waiting<T>>,
    atom: T,
    tokens: &[Token],
    from: usize,
) -> Result<Behind<T>, OutOfMemory>
    ensures on { IfOk result (λ b. IsWithin b from (length tokens.now)) }
    ensures read { IfOk result (λ b. (cs vs : List (List ℕ)) (o : Outer) (l : Level)
        → Stands T.tree stack.old.items o l
        → IsBehind T.tree stack.new.items (λ s p. outcome T.leaf cs vs false s (drop p tokens.now)) cs vs b
        (outcome T.leaf cs vs false (atom_read o l (T.tree atom)) (drop from tokens.now))) }
{
    let mut read = atom;
    let mut place = from;
    while place < tokens.len() {
        let kind = tokens[place].kind;
        place += 1;
        match kind {
            TokenKind::Close => match close(alloc, stack, read)? {
                Some(closed) => {
                    read = closed;
                    continue;
                }
                None => return Ok(Behind::Nothing),
            },
            TokenKind::Times => put_product(alloc, stack, read)?,
            TokenKind::And => put_meet(alloc, stack, read)?,
            TokenKind::To => put_source(alloc, stack, read)?,
            _ => return Ok(Behind::Nothing),
        }
        return Ok(Behind::Operator(place));
    }
    match finish(alloc, stack, read)? {
        Some(whole) => Ok(Behind::Whole(whole)),
        None => Ok(Behind::Nothing),
    }
}
