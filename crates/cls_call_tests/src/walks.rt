//! Walks through rule books that show that there are terms of any size.
use cls_base::{Numbers, OmegaBook};
use cls_finite::{FiniteAnswer, Step, Walk, finite, right_walk};
use std::test::Fail;

#[test]
fn omega_has_terms_of_any_size_over_two_components_and_none_over_no_component(
    rt: HostRuntime,
) -> Result<(), Fail> {
    let alloc = rt.alloc();
    let costs = Numbers::new(Vec::new(alloc));
    let no_terms = finite(alloc, &OmegaBook::new(alloc, 0)?, &costs)?;
    assert!(rt; matches!(no_terms, FiniteAnswer::Finite(0)));
    let book = OmegaBook::new(alloc, 2)?;
    let FiniteAnswer::Infinite(walk) = finite(alloc, &book, &costs)? else {
        return Err("finite".into());
    };
    let step = Step {
        goal: 0,
        rule: 2,
        argument: 0,
    };
    assert_eq!(rt; walk.as_slice(), [step].as_slice());
    assert!(rt; right_walk(alloc, &book, &walk)?);
    assert!(rt; !right_walk(alloc, &book, &Walk::new(Vec::new(alloc)))?);
    Ok(())
}
