//! Terms as trees, and in a bank.
ghost use Rattle.std.specs.Prelude.{◌≡◌, IfOk};
ghost use Rattle.cls_base.specs.Terms.{component, apply};

use cls_base::Numbers;
use cls_lexer::Names;
use cls_term::{Bank, Term, Terms, TokenFault, read_token};
use std::alloc::Global;
use std::cmp::Ordering;
use std::test::Fail;

/// A bank of the term 5, which has number 0, and of 3 applied to it twice, which has number 1.
fn two_terms(alloc: Global) -> Result<Bank, Fail> {
    let mut bank = Bank::new(alloc);
    bank.put(alloc, 5, &[])?;
    if bank.count() != 1 || bank.length(0) != 1 {
        return Err("not one term".into());
    }
    bank.put(alloc, 3, &[0, 0])?;
    Ok(bank)
}

#[test]
fn a_bank_gives_terms_by_number(rt: HostRuntime) -> Result<(), Fail> {
    let bank = two_terms(rt.alloc())?;
    let code = bank.term(rt.alloc(), 1)?.code(rt.alloc())?;
    assert_eq!(rt; code.as_slice(), [3, 2, 5, 0, 5, 0].as_slice());
    assert_eq!(rt; bank.terms(rt.alloc(), &[1, 0, 1])?.len(), 3);
    Ok(())
}

/// The term `id(id, n)` over the components id and n.
fn id_of_id_and_n(alloc: Global) -> Result<Term, Fail>
    ensures { IfOk result (λ term. term ≡ apply (apply (component 0) (component 0)) (component 1)) }
{
    let mut args = Terms::new(alloc);
    args.push(Term::new(0, Terms::new(alloc)))?;
    args.push(Term::new(1, Terms::new(alloc)))?;
    Ok(Term::new(0, args))
}

/// The components id and n.
fn id_and_n(alloc: Global) -> Result<Names, Fail> {
    let mut components = Names::new(alloc);
    components.intern(alloc, "id")?;
    components.intern(alloc, "n")?;
    Ok(components)
}

#[test]
fn a_term_prints_as_a_spine(rt: HostRuntime) -> Result<(), Fail> {
    let components = id_and_n(rt.alloc())?;
    assert_eq!(rt; components.len(), 2);
    let text = id_of_id_and_n(rt.alloc())?.print(rt.alloc(), &components)?;
    assert_eq!(rt; text.as_str(), "id(id, n)");
    Ok(())
}

#[test]
fn a_copy_is_equal(rt: HostRuntime) -> Result<(), Fail> {
    let costs = Numbers::new(Vec::new(rt.alloc()));
    let term = id_of_id_and_n(rt.alloc())?;
    let copy = term.copy(rt.alloc())?;
    assert_eq!(rt; term.order(&costs, &copy), Ordering::Equal);
    Ok(())
}

#[test]
fn terms_are_read(rt: HostRuntime) -> Result<(), Fail> {
    let components = id_and_n(rt.alloc())?;
    let term = read_token(rt.alloc(), &components, "id( id,n )")?;
    let code = term.code(rt.alloc())?;
    assert_eq!(rt; code.as_slice(), [0, 2, 0, 0, 1, 0].as_slice());
    let fault = read_token(rt.alloc(), &components, "id(n, y)").err();
    assert_eq!(rt; fault, Some(TokenFault::UnknownComponent(6)));
    Ok(())
}
