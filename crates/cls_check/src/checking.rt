//! The check of a certificate.
ghost use Rattle.std.specs.Prelude.{◌<◌, ◌^◌, OnOk, IfErr};
ghost use Rattle.cls_path.specs.Paths.{listed, type_of_paths, SuitsAll};
ghost use Rattle.cls_library.specs.Libraries.{variances_in};
ghost use Rattle.cls_proof.specs.Seen.{certificate_of};
ghost use Rattle.cls_check.specs.Checking.{Accepts};
ghost use Rattle.cls_check.specs.Verdicts.{IsRefusedAs, rows_in};

use crate::fault::CheckFault;
use crate::members::check_members;
use crate::rows::check_rows;
use cls_library::Library;
use cls_path::Nf;
use cls_proof::Certificate;
use std::alloc::Global;

/// Accepts the certificate for the goal, or names the first row or member that fails a test, with its first such test.
/// There are less than 2^32 rows or members.
///
/// The cost of the certificate's types is bounded by their spread, which callers keep at 16,384 or below.
pub fn check(alloc: Global, lib: &Library, goal: &Nf, cert: &Certificate) -> Result<(), CheckFault>
    requires suits { SuitsAll (variances_in lib.now.taxonomy) (listed goal.now) }
    requires few { rows_in (certificate_of cert.now) < 2 ^ 32 }
    ensures accepted { OnOk result (Accepts lib.now (type_of_paths (listed goal.now)) (certificate_of cert.now)) }
    ensures refused { IfErr result (IsRefusedAs lib.now (type_of_paths (listed goal.now)) (certificate_of cert.now)) }
{
    match cert {
        Certificate::Inhabited(rows) => check_rows(alloc, lib, goal, rows),
        Certificate::Empty(members) => check_members(alloc, lib, goal, members),
    }
}
