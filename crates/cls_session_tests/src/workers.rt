use crate::outside::{Outside, WHOLE, outcome_under};
use cls_machine_tests::Meeting;
use cls_session::Status;
use std::test::Fail;

/// A component with two arguments, one term of each, and the history of the type that it makes.
const APPLICATION: &[u8] = b"comp f : A -> B -> C\ncomp a : A\ncomp b : B\nend\naudit C\n";

/// The goal C is filed by the caller, and then two rows are free, A and B. So the second worker starts before the caller claims
/// one of them.
#[test]
fn two_workers_hold_claims_at_once(rt: HostRuntime) -> Result<(), Fail> {
    let gate = Meeting::new(1, 50_000_000);
    let outside = Outside {
        chunk: WHOLE,
        failing_reads: &[],
        failing_writes: &[],
    };
    let words = ["--workers", "2"];
    let (status, output) = outcome_under(&rt, rt.alloc(), &words, APPLICATION, &outside, &gate)?;
    assert!(rt; status == Status::Done && output.as_str().ends_with("done\n"));
    let (one, two) = (gate.maker(1), gate.maker(2));
    assert!(rt; one != two && (one == 1 || one == 2) && (two == 1 || two == 2));
    let mut claims: usize = 0;
    for line in output.as_str().lines() {
        if let Some(claim) = line.strip_prefix("claim ") {
            let worker = claim.as_bytes().first().copied().unwrap_or(0);
            assert!(rt; u64::from(worker) == gate.maker(claims).wrapping_add(u64::from(b'0')));
            claims = claims.wrapping_add(1);
        }
    }
    assert!(rt; claims == 3 && gate.calls() == 3);
    Ok(())
}
