//! The rows of a certificate.
ghost use Rattle.std.specs.Prelude.{◌<◌, ◌↔◌, ◌^◌, length, IfOk, OnOk, IfErr, IsTrue};
ghost use Rattle.cls_base.specs.Lists.{AreBelow};
ghost use Rattle.cls_base.specs.Ty.{type_of};
ghost use Rattle.cls_path.specs.Paths.{listed, type_of_paths, SuitsAll};
ghost use Rattle.cls_library.specs.Libraries.{variances_in};
ghost use Rattle.cls_proof.specs.Certificates.{inhabited};
ghost use Rattle.cls_proof.specs.Rows.{row_seen};
ghost use Rattle.cls_check.specs.Checking.{Accepts, EndsBelow, IsForm};
ghost use Rattle.cls_check.specs.Goals.{AllSuit};
ghost use Rattle.cls_check.specs.Places.{Stands, arrows_in};
ghost use Rattle.cls_check.specs.Tests.{AreMet, Meets, TellsRow};
ghost use Rattle.cls_check.specs.Verdicts.{IsRefusedAs};

use crate::argument::arguments;
use crate::fault::{CheckFault, Reason};
use crate::goals::Goals;
use crate::met::MetCovers;
use crate::place::Place;
use crate::positions::are_positions;
use crate::targets::cover_goal;
use cls_base::OutOfMemory;
use cls_library::Library;
use cls_norm::normal;
use cls_path::Nf;
use cls_proof::{ProofRows, RowRef};
use std::alloc::Global;

/// Tests the rows in order, and then that the goal of the last one is below the asked one.
pub(crate) fn check_rows(
    alloc: Global,
    lib: &Library,
    asked: &Nf,
    rows: &ProofRows,
) -> Result<(), CheckFault>
    requires suits { SuitsAll (variances_in lib.now.taxonomy) (listed asked.now) }
    requires few { length rows.now < 2 ^ 32 }
    ensures accepted { OnOk result
        (Accepts lib.now (type_of_paths (listed asked.now)) (inhabited rows.now)) }
    ensures refused { IfErr result
        (IsRefusedAs lib.now (type_of_paths (listed asked.now)) (inhabited rows.now)) }
{
    let mut goals = Goals::new(alloc);
    let mut known = MetCovers::new(alloc);
    for i in 0..rows.len() {
        let row = rows.get(i);
        let goal = normal(alloc, lib.taxonomy(), row.goal)?;
        match row_fault(alloc, lib, &goals, &mut known, row, &goal)? {
            Some(reason) => {
                return Err(CheckFault::Refused {
                    row: i as u32 + 1,
                    reason,
                });
            }
            None => goals.put(goal)?,
        }
    }
    if !ends_below(alloc, lib, asked, rows)? {
        return Err(CheckFault::Refused {
            row: rows.len() as u32,
            reason: Reason::Goal,
        });
    }
    Ok(())
}

/// The first test that the row fails after rows with these goals. The row's own goal has this normal form.
fn row_fault(
    alloc: Global,
    lib: &Library,
    goals: &Goals,
    known: &mut MetCovers,
    row: RowRef,
    goal: &Nf,
) -> Result<Option<Reason>, OutOfMemory>
    requires goals { AllSuit lib.now goals.now }
    requires known { AreMet lib.now goals.now known.old }
    requires form { IsForm lib.now (type_of row.goal.now) (listed goal.now) }
    ensures tells { IfOk result (TellsRow lib.now goals.now (row_seen row.entry)) }
    ensures known { OnOk result (AreMet lib.now goals.now known.new) }
{
    let place = Place {
        component: row.component,
        n: row.n,
    };
    let positions = row.cover;
    if !place.stands(lib) || !are_positions(positions, place.arrows(lib).len()) {
        return Ok(Some(Reason::Arrow));
    }
    if !cover_goal(lib, place, positions, goal) {
        return Ok(Some(Reason::Target));
    }
    if !is_known_to_meet(alloc, lib, goals, known, place, positions)? {
        return Ok(Some(Reason::Argument));
    }
    Ok(None)
}

/// Whether the positions meet the arguments. Equal ones are looked at once, since further goals change nothing of a yes.
fn is_known_to_meet(
    alloc: Global,
    lib: &Library,
    goals: &Goals,
    known: &mut MetCovers,
    place: Place,
    positions: &[u32],
) -> Result<bool, OutOfMemory>
    requires place { Stands lib.now place }
    requires goals { AllSuit lib.now goals.now }
    requires known { AreMet lib.now goals.now known.old }
    requires within { AreBelow (length (arrows_in lib.now place)) positions.now }
    ensures meets { IfOk result (λ meets. IsTrue meets ↔ Meets lib.now goals.now place positions.now) }
    ensures known { OnOk result (AreMet lib.now goals.now known.new) }
{
    if known.covers.has(alloc, place, positions)? {
        return Ok(true);
    }
    if !meets_arguments(alloc, lib, goals, known, place, positions)? {
        return Ok(false);
    }
    known.covers.put(alloc, place, positions)?;
    Ok(true)
}

/// Whether for each argument the intersection of what the arrows at the positions take is above a goal.
fn meets_arguments(
    alloc: Global,
    lib: &Library,
    goals: &Goals,
    known: &mut MetCovers,
    place: Place,
    positions: &[u32],
) -> Result<bool, OutOfMemory>
    requires place { Stands lib.now place }
    requires goals { AllSuit lib.now goals.now }
    requires known { AreMet lib.now goals.now known.old }
    requires within { AreBelow (length (arrows_in lib.now place)) positions.now }
    ensures meets { IfOk result (λ meets. IsTrue meets ↔ Meets lib.now goals.now place positions.now) }
    ensures known { OnOk result (AreMet lib.now goals.now known.new) }
{
    let arguments = arguments(alloc, lib, place, positions)?;
    for argument in &arguments {
        if !known.is_above(alloc, lib, goals, argument)? {
            return Ok(false);
        }
    }
    Ok(true)
}

/// Whether there is a row, and the goal of the last one is below the asked one.
fn ends_below(
    alloc: Global,
    lib: &Library,
    asked: &Nf,
    rows: &ProofRows,
) -> Result<bool, OutOfMemory>
    requires { SuitsAll (variances_in lib.now.taxonomy) (listed asked.now) }
    ensures { IfOk result (λ ends. IsTrue ends
        ↔ EndsBelow lib.now rows.now (type_of_paths (listed asked.now))) }
{
    let count = rows.len();
    if count == 0 {
        return Ok(false);
    }
    let goal = normal(alloc, lib.taxonomy(), rows.get(count - 1).goal)?;
    Ok(goal.le(lib.taxonomy(), asked))
}
