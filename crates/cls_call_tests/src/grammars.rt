//! Grammars without the rules that make no term.
ghost use Rattle.cls_expand.specs.Answers.{IsReady};

use crate::goals::{declared, goal};
use cls_base::OpenGate;
use cls_core::laws::complete_histories_make_grammars;
use cls_expand::Expander;
use cls_grammar::{Grammar, GrammarPlace};
use cls_library::Library;
use cls_path::Nf;
use cls_table::Limits;
use cls_workers::expand_all;
use std::alloc::Global;
use std::sync::Wait;
use std::test::Fail;
use std::thread::Threads;

/// The grammar of the goal.
fn grammar<R: Threads + Wait + Sync>(
    rt: &R,
    alloc: Global,
    library: &Library,
    goal: Nf,
) -> Result<Grammar, Fail>
    requires { IsReady library.now goal }
{
    // For the prover: what the rows of a complete history are.
    complete_histories_make_grammars::<Expander>();
    let by = Expander::new(library);
    let limits = Limits { goals: 9, rules: 9 };
    let done = expand_all(rt, alloc, &by, goal, 1, limits, &OpenGate)?;
    match Grammar::of(alloc, &done.rows) {
        Ok(grammar) => Ok(grammar),
        Err(_) => Err("no grammar".into()),
    }
}

// The component g makes no term of A, since none has B.
#[test]
fn a_rule_without_terms_is_trimmed(rt: HostRuntime) -> Result<(), Fail> {
    let alloc = rt.alloc();
    let mut given = declared(alloc, "comp x : A\ncomp f : A -> A\ncomp g : B -> A\nend\n")?;
    let goal = goal(alloc, &given.library, &mut given.names, "A")?;
    let trimmed = grammar(&rt, alloc, &given.library, goal)?.trim(alloc)?;
    let ranks = trimmed.ranks(alloc)?;
    let mut text = String::new(alloc);
    let (names, components) = (&given.names, &given.components);
    let start = GrammarPlace::Counts;
    trimmed.write_lines(alloc, names, components, &ranks, start, 1_000, &mut text)?;
    let wanted = "grammar 2 2\ngoal 0 rank 1 A\nrule x\nrule f 0\ngoal 1 empty B\ndone\n";
    assert_eq!(rt; text.as_str(), wanted);
    Ok(())
}
