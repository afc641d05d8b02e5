//! Builds a type without variables over tokens that spell one, and measures it.
ghost use Rattle.std.specs.Prelude.{◌≡◌, length, take, IsTrue, IsSome, IfOk, OnOk, IfSome, OnSome};
ghost use Rattle.cls_base.specs.Ty.{type_of};
ghost use Rattle.cls_lexer.specs.Names.{number_of};
ghost use Rattle.cls_lexer.specs.Words.{words};
ghost use Rattle.cls_syntax.specs.ClosedTypes.{HasNoDollar, Spells};
ghost use Rattle.cls_syntax.specs.MeasuredTypes.{measured_type};
ghost use Rattle.cls_syntax.specs.Spans.{is_whole, type_in};
ghost use Rattle.cls_syntax.specs.TypePrinting.{HasNamesBelow};
ghost use Rattle.cls_syntax.specs.TypeReading.{type_front};
ghost use Rattle.cls_syntax.specs.TypeSchemas.{with_constructors};

use crate::measured::MeasuredTy;
use crate::schema_builder::build;
use cls_base::{OutOfMemory, Ty};
use cls_lexer::{Names, Token};
use std::alloc::Global;

/// The type without variables that all the tokens spell, with its measures, or None if they spell none. Its names are
/// numbered in the order of their tokens. Where there is no type, or memory runs out, the table may have grown.
pub fn read_measured_type(
    alloc: Global,
    constructors: &mut Names,
    tokens: &[Token],
) -> Result<Option<MeasuredTy>, OutOfMemory>
    ensures whole { IfOk result (λ read. OnSome read (IsTrue (is_whole (type_front (words tokens.now))))) }
    ensures closed { IfOk result (λ read. OnSome read (HasNoDollar (words tokens.now))) }
    ensures some { IfOk result (λ read. IsTrue (is_whole (type_front (words tokens.now)))
        → HasNoDollar (words tokens.now) → IsSome read) }
    ensures ty { IfOk result (λ read. IfSome read (λ ty. Spells (number_of constructors.new)
        (type_in (words tokens.now)) (measured_type ty))) }
    ensures held { IfOk result (λ read. IfSome read (λ ty.
        HasNamesBelow (length constructors.new) (measured_type ty))) }
    ensures constructors { IfOk result (λ read. OnSome read
        (constructors.new ≡ with_constructors constructors.old (words tokens.now))) }
    ensures kept { take (length constructors.old) constructors.new ≡ constructors.old }
{
    let mut variables = Names::new(alloc);
    Ok(build(alloc, constructors, &mut variables, tokens)?)
}

/// The type that the tokens spell, which has no variable, with its measures. Its names are numbered in the order of their
/// tokens. The only error is out of memory, after which the table may have grown.
pub(crate) fn measured_closed_type(
    alloc: Global,
    constructors: &mut Names,
    tokens: &[Token],
) -> Result<MeasuredTy, OutOfMemory>
    requires whole { IsTrue (is_whole (type_front (words tokens.now))) }
    requires closed { HasNoDollar (words tokens.now) }
    ensures ty { IfOk result (λ ty.
        Spells (number_of constructors.new) (type_in (words tokens.now)) (measured_type ty)) }
    ensures held { IfOk result (λ ty. HasNamesBelow (length constructors.new) (measured_type ty)) }
    ensures constructors { OnOk result (constructors.new ≡ with_constructors constructors.old (words tokens.now)) }
    ensures kept { take (length constructors.old) constructors.new ≡ constructors.old }
{
    match read_measured_type(alloc, constructors, tokens)? {
        Some(ty) => Ok(ty),
        None => unreachable!(),
    }
}

/// The type that the tokens spell, which has no variable. Its names are numbered in the order of their tokens. The only
/// error is out of memory, after which the table may have grown.
pub(crate) fn closed_type(
    alloc: Global,
    constructors: &mut Names,
    tokens: &[Token],
) -> Result<Ty, OutOfMemory>
    requires whole { IsTrue (is_whole (type_front (words tokens.now))) }
    requires closed { HasNoDollar (words tokens.now) }
    ensures ty { IfOk result (λ ty. Spells (number_of constructors.new) (type_in (words tokens.now)) (type_of ty)) }
    ensures held { IfOk result (λ ty. HasNamesBelow (length constructors.new) (type_of ty)) }
    ensures constructors { OnOk result (constructors.new ≡ with_constructors constructors.old (words tokens.now)) }
    ensures kept { take (length constructors.old) constructors.new ≡ constructors.old }
{
    Ok(measured_closed_type(alloc, constructors, tokens)?.into_ty())
}
