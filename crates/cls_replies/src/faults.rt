//! The lines of errors.
ghost use Rattle.std.specs.Prelude.{◌≡◌, ◌++◌, Some, IfOk, codes, string_bytes};
ghost use Rattle.std.specs.Option.{option_map};
ghost use Rattle.cls_query.specs.ReadQueries as queries;
ghost use Rattle.cls_engine.specs.declared.fault.EngineFault.TheVariants.{Wide};
ghost use Rattle.cls_repo.specs.EndFaults.{library_words};
ghost use Rattle.cls_replies.specs.Errors.{proof_words};
ghost use Rattle.cls_replies.specs.Steps.{IsFaultLine};
ghost use Rattle.cls_replies.specs.Texts.{error_line};

use cls_base::OutOfMemory;
use cls_engine::EngineFault;
use cls_lexer::Names;
use cls_library::LibraryKind;
use cls_norm::type_of;
use cls_path::Nf;
use cls_proof::ProofFault;
use cls_query::LineFault;
use cls_repo::refusal_words;
use cls_syntax::write_type;
use std::alloc::Global;

/// The error of a line. The only error is out of memory, which is also the answer where that is the fault.
pub(crate) fn line_fault(alloc: Global, fault: &LineFault) -> Result<String, OutOfMemory>
    ensures { IfOk result (λ text. option_map error_line (queries.fault_words fault.now) ≡ Some (string_bytes text)) }
{
    let mut text = String::new(alloc);
    fault.write_to(&mut text)?;
    text.push('\n')?;
    Ok(text)
}

/// The error of the lines of a certificate, likewise.
pub(crate) fn proof_fault(alloc: Global, fault: &ProofFault) -> Result<String, OutOfMemory>
    ensures { IfOk result (λ text. option_map error_line (proof_words fault.now) ≡ Some (string_bytes text)) }
{
    match fault {
        ProofFault::BadLine(number) => Ok(format!(in alloc; "error certificate {number}\n")?),
        ProofFault::NoQed => Ok(String::from_str(alloc, "error no-qed\n")?),
        ProofFault::OutOfMemory => Err(OutOfMemory),
    }
}

/// The refusal of a component that is to be added, likewise: by the names of variables and the name of the component.
pub(crate) fn refusal(
    alloc: Global,
    variables: &Names,
    component: &str,
    kind: LibraryKind,
) -> Result<String, OutOfMemory>
    ensures { IfOk result (λ text. option_map (λ words. error_line (codes "refused " ++ words))
        (library_words variables.now component.now kind) ≡ Some (string_bytes text)) }
{
    let words = refusal_words(alloc, variables, component, kind)?;
    let mut text = String::from_str(alloc, "error refused ")?;
    text.push_str(words.as_str())?;
    text.push('\n')?;
    Ok(text)
}

/// The error of the engine, likewise. It takes the fault, so that the proofs of its callers have one case for it.
pub(crate) fn engine_fault(
    alloc: Global,
    names: &Names,
    fault: EngineFault,
) -> Result<String, OutOfMemory>
    ensures { IfOk result (λ text. IsFaultLine names.now fault (string_bytes text)) }
{
    fault_line(alloc, names, &fault)
}

/// The same of a fault that is lent.
fn fault_line(alloc: Global, names: &Names, fault: &EngineFault) -> Result<String, OutOfMemory>
    ensures { IfOk result (λ text. IsFaultLine names.now fault.now (string_bytes text)) }
{
    match fault {
        EngineFault::Size => Ok(String::from_str(alloc, "error size\n")?),
        EngineFault::TooLarge => Ok(String::from_str(alloc, "error too-large\n")?),
        EngineFault::Wide(goal) => wide(alloc, names, goal),
        EngineFault::FilterTooLarge => Ok(String::from_str(alloc, "error filter-large\n")?),
        EngineFault::TooManyTerms => Ok(String::from_str(alloc, "error too-many-terms\n")?),
        EngineFault::OutOfMemory => Err(OutOfMemory),
    }
}

/// The error that says which goal is wide.
fn wide(alloc: Global, names: &Names, goal: &Nf) -> Result<String, OutOfMemory>
    ensures { IfOk result (λ text. IsFaultLine names.now (Wide goal.now) (string_bytes text)) }
{
    let mut text = String::from_str(alloc, "error wide ")?;
    write_type(&mut text, names, &type_of(alloc, goal)?)?;
    text.push('\n')?;
    Ok(text)
}
