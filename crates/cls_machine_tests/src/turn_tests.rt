use cls_turn::{Known, Turn};
use std::test::Fail;

// A number, of which nothing is known.
#[derive(Drop)]
struct Counter {
    count: u32,
}

struct Plain;

impl Known<Plain> for Counter {
    ghost use Rattle.cls_machine_tests.specs.declared.turn_tests.Plain.{Plain};

    ghost known = { λ _. record {} };

    ghost goes_on = { λ _ _. Unit {0} };

    ghost goes_on_reflexive = { λ _. tt };

    ghost goes_on_transitive = { λ _ _ _ _ _. tt };
}

#[test]
fn what_is_put_is_taken_by_another_seat(rt: HostRuntime) -> Result<(), Fail> {
    let Ok((turn, mut seat)) = Turn::<Counter, Plain>::new(rt.alloc(), Counter { count: 1 }) else {
        panic!(rt; "no memory")
    };
    let mut other = turn.split(&mut seat);
    let taken = turn.take(&rt, &mut seat);
    turn.put(
        &mut seat,
        Counter {
            count: taken.count.wrapping_add(1),
        },
    );
    let taken = turn.take(&rt, &mut other);
    assert!(rt; taken.count == 2);
    turn.put(&mut other, Counter { count: 7 });
    turn.join(&mut seat, other);
    let last = turn.close(&rt, seat);
    assert!(rt; last.count == 7);
    Ok(())
}
