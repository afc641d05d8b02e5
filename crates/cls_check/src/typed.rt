//! Whether a term has a type, by the path lemma: a goal asks paths of a term, the arrows of its head that lead to them
//! ask sources of its arguments, and what the arguments have of these says which arrows are kept. Each part of the term
//! is gone to once at most, with all that is asked of it.
ghost use Rattle.std.specs.Prelude.{ℕ, ◌↔◌, Contains, IfOk, IsTrue, length};
ghost use Rattle.cls_base.specs.Terms.{IsTermOver};
ghost use Rattle.cls_path.specs.Paths.{Paths, listed, type_of_paths};
ghost use Rattle.cls_path.specs.NormalForms.{IsNormal};
ghost use Rattle.cls_library.specs.Libraries.{below_in, variances_in};
ghost use Rattle.cls_library.specs.Typing.{HasTypeIn};
ghost use Rattle.cls_check.specs.Asking.{goals_of};
ghost use Rattle.cls_check.specs.Deciding.{AllSuitIn, BeginsWithTermIn, IsDecided, targets_of};

use crate::asked::Asked;
use crate::kept::KeptArrows;
use crate::place::Place;
use crate::reaching::{are_above, keep_with_source, leading};
use cls_base::OutOfMemory;
use cls_library::Library;
use cls_path::Nf;
use cls_term::{CodedTerm, behind_terms};
use std::alloc::Global;

/// Whether the term has the type of the goal by the typing rules. The only error is out of memory.
pub fn has_type(
    alloc: Global,
    lib: &Library,
    term: &CodedTerm,
    goal: &Nf,
) -> Result<bool, OutOfMemory>
    requires declared { IsTermOver (length lib.now.components) term.now }
    requires normal { IsNormal (below_in lib.now.taxonomy) (variances_in lib.now.taxonomy) (listed goal.now) }
    ensures { IfOk result (λ answer. IsTrue answer ↔ HasTypeIn lib.now term.now (type_of_paths (listed goal.now))) }
{
    // For the prover: what holds of each library.
    let _count = lib.count();
    let (had, _rest) = arrows_had(alloc, lib, term.code(), &Asked::Goal(goal))?;
    Ok(are_above(lib, &had, goal))
}

/// Arrows by whose targets the term with whose code the numbers begin has what is asked of it, and the numbers behind
/// it. The only error is out of memory.
fn arrows_had<'l, 'c>(
    alloc: Global,
    lib: &'l Library,
    code: &'c [u32],
    asked: &Asked<'_>,
) -> Result<(KeptArrows<'l>, &'c [u32]), OutOfMemory>
    requires declared { BeginsWithTermIn lib.now code.now }
    requires suits { (n : Paths) → Contains (goals_of asked.now) n → AllSuitIn lib.now n }
    ensures { IfOk result (λ r. IsDecided lib.now (goals_of asked.now) code.now r.1.now (targets_of r.0)) }
{
    let (head, count) = (code[0], code[1]);
    let mut rest = &code[2..];
    // For the prover: what holds of each library.
    let _components = lib.count();
    if count > lib.arity(head) {
        let none = KeptArrows::none(alloc, lib.arrows(head, 0));
        return Ok((none, behind_terms(rest, count)));
    }
    let of_head = Place {
        component: head,
        n: count,
    };
    let mut kept = leading(alloc, lib, of_head, lib.arrows(head, count), asked)?;
    for place in 0..count {
        if kept.is_empty() {
            return Ok((kept, behind_terms(rest, count - place)));
        }
        let (had, behind) = arrows_had(alloc, lib, rest, &Asked::Sources(&kept, place as usize))?;
        keep_with_source(lib, &mut kept, place as usize, &had);
        rest = behind;
    }
    Ok((kept, rest))
}
