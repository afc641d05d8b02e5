//! Prints a type.
ghost use Rattle.std.specs.Prelude.{◌≡◌, ◌<◌, ◌++◌, IfOk, OnOk, string_bytes};
ghost use Rattle.cls_base.specs.Ty.{type_of};
ghost use Rattle.cls_syntax.specs.TypePrinting.{name_in, text_if, is_omega_type, printed};

use cls_base::{OutOfMemory, Ty};
use cls_lexer::Names;
use std::alloc::Global;

/// The text of the type: ` -> `, ` & ` and ` * ` between parts, and parentheses only where they are needed. A name over
/// omega is the bare name, and a name that isn't in the table is the empty text. The only error is out of memory.
pub fn print_type(alloc: Global, names: &Names, ty: &Ty) -> Result<String, OutOfMemory>
    ensures { IfOk result (λ text. string_bytes text ≡ printed (name_in names.now) 0 (type_of ty.now)) }
{
    let mut text = String::new(alloc);
    push_type(&mut text, names, ty, 0)?;
    Ok(text)
}

/// Writes that text at the end. The only error is out of memory.
pub fn write_type(text: &mut String, names: &Names, ty: &Ty) -> Result<(), OutOfMemory>
    ensures { OnOk result (string_bytes text.new
        ≡ string_bytes text.old ++ printed (name_in names.now) 0 (type_of ty.now)) }
{
    push_type(text, names, ty, 0)
}

/// Writes the type at the end, in parentheses where it is weaker than is wanted there: 0 any form, 1 no arrow, 2 no
/// intersection, 3 an atom.
#[tactic(auto, using(crate::proofs::Regrouping::regroup), unfolding(crate::specs::TypePrinting::printed))]
fn push_type(text: &mut String, names: &Names, ty: &Ty, strength: u8) -> Result<(), OutOfMemory>
    ensures { OnOk result (string_bytes text.new
        ≡ string_bytes text.old ++ printed (name_in names.now) strength (type_of ty.now)) }
{
    match ty {
        Ty::Omega => text.push_str("omega")?,
        Ty::Bare(name) => text.push_str(names.text(*name))?,
        Ty::Con(name, argument) => {
            text.push_str(names.text(*name))?;
            if !is_omega(argument) {
                text.push_str("(")?;
                push_type(text, names, argument, 0)?;
                text.push_str(")")?;
            }
        }
        Ty::Arrow(sides) => {
            let (source, target) = &**sides;
            push_if(text, strength > 0, "(")?;
            push_type(text, names, source, 1)?;
            text.push_str(" -> ")?;
            push_type(text, names, target, 0)?;
            push_if(text, strength > 0, ")")?;
        }
        Ty::Meet(sides) => {
            let (left, right) = &**sides;
            push_if(text, strength > 1, "(")?;
            push_type(text, names, left, 1)?;
            text.push_str(" & ")?;
            push_type(text, names, right, 2)?;
            push_if(text, strength > 1, ")")?;
        }
        Ty::Prod(sides) => {
            let (left, right) = &**sides;
            push_if(text, strength > 2, "(")?;
            push_type(text, names, left, 2)?;
            text.push_str(" * ")?;
            push_type(text, names, right, 3)?;
            push_if(text, strength > 2, ")")?;
        }
    }
    Ok(())
}

fn push_if(text: &mut String, wanted: bool, part: &str) -> Result<(), OutOfMemory>
    ensures { OnOk result (string_bytes text.new ≡ string_bytes text.old ++ text_if wanted part.now) }
{
    if wanted {
        text.push_str(part)?;
    }
    Ok(())
}

fn is_omega(ty: &Ty) -> bool
    ensures { result ≡ is_omega_type (type_of ty.now) }
{
    matches!(ty, Ty::Omega)
}
