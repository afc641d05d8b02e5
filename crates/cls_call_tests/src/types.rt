//! Types and schemas as texts, and the meet of two normal forms.
use cls_base::{Flat, Name, Schema, Ty};
use cls_lexer::Names;
use cls_norm::{normal, type_of};
use cls_syntax::{print_type, read_schema, read_type};
use std::alloc::Global;
use std::test::Fail;

/// In each line a text of a type, and the same type as it is printed.
const PRINTED: [(&str, &str); 4] = [
    ("((a(omega) -> b)) -> (b -> c)", "(a -> b) -> b -> c"),
    ("(a & b) & (c & a)", "a & b & (c & a)"),
    ("a*b&c->d", "a * b & c -> d"),
    ("L( L(a) * omega )", "L(L(a) * omega)"),
];

/// The text of the type that the text spells.
fn printed(alloc: Global, text: &str) -> Result<String, Fail> {
    if text.len() > 1_000 {
        return Err("a long text".into());
    }
    let mut names = Names::new(alloc);
    let ty = read_type(alloc, &mut names, text)?;
    Ok(print_type(alloc, &names, &ty)?)
}

#[test]
fn types_are_read_and_printed(rt: HostRuntime) -> Result<(), Fail> {
    for (text, wanted) in PRINTED {
        assert_eq!(rt; printed(rt.alloc(), text)?.as_str(), wanted);
    }
    Ok(())
}

#[test]
fn a_schema_is_read_and_copied(rt: HostRuntime) -> Result<(), Fail> {
    let alloc = rt.alloc();
    let mut names = Names::new(alloc);
    let mut variables = Names::new(alloc);
    let schema = read_schema(alloc, &mut names, &mut variables, "b -> $a * b(c) & $b")?;
    let copy = schema.copy(alloc)?;
    assert!(rt; matches!(copy, Schema::Arrow(_)));
    assert_eq!(rt; (names.len(), variables.len()), (2, 2));
    Ok(())
}

#[test]
fn two_names_meet(rt: HostRuntime) -> Result<(), Fail> {
    let alloc = rt.alloc();
    let one = normal(alloc, &Flat, &Ty::Bare(Name(0)))?;
    let other = normal(alloc, &Flat, &Ty::Bare(Name(1)))?;
    let both = one.meet(alloc, &Flat, &other)?;
    let ty = type_of(alloc, &both)?;
    assert!(rt; matches!(ty, Ty::Meet(_)));
    Ok(())
}
