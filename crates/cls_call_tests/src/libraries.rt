//! Libraries, and the rules of goals by one component.
use crate::goals::{declared, goal};
use cls_core::Answer;
use cls_expand::Expander;
use cls_path::Nf;
use cls_repo::Repository;
use std::alloc::Global;
use std::test::Fail;

/// A component for each name, and two functions, of which the first takes one of them to A and the other to B.
const FUNCTIONS: &str =
    "comp x : C\ncomp y : D\ncomp f : (C -> A) & (D -> B)\ncomp g : C -> A & B\nend\n";

#[test]
fn a_library_is_copied_and_a_component_taken_out(rt: HostRuntime) -> Result<(), Fail> {
    let given = declared(rt.alloc(), FUNCTIONS)?;
    let mut copy = given.library.copy(rt.alloc())?;
    assert_eq!(rt; copy.count(), 4);
    copy.remove(0);
    assert_eq!(rt; copy.count(), 3);
    assert_eq!(rt; given.library.count(), 4);
    Ok(())
}

/// The number of rules, None for a wide goal.
fn count(answer: &Answer<Nf>) -> Option<usize> {
    match answer {
        Answer::Rules(rules) => Some(rules.len()),
        Answer::Wide => None,
    }
}

/// How many rules the goal that the text spells has by the component with this number, and by all of them.
fn rule_counts(
    alloc: Global,
    given: &mut Repository,
    text: &str,
    x: u32,
) -> Result<(Option<usize>, Option<usize>), Fail> {
    if text.len() > 1_000 || x >= given.library.count() {
        return Err("too long".into());
    }
    let goal = goal(alloc, &given.library, &mut given.names, text)?;
    let expander = Expander::new(&given.library);
    let by_one = count(&expander.rules_by(alloc, &goal, x)?);
    Ok((by_one, count(&expander.rules_of(alloc, &goal)?)))
}

#[test]
fn each_component_has_rules_of_its_own(rt: HostRuntime) -> Result<(), Fail> {
    let mut given = declared(rt.alloc(), FUNCTIONS)?;
    let counts = rule_counts(rt.alloc(), &mut given, "A & B", 2)?;
    assert_eq!(rt; counts, (Some(1), Some(2)));
    Ok(())
}
