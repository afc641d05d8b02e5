//! A grammar without the rules that have an unproductive argument.
ghost use Rattle.std.specs.Prelude.{◌≡◌, IfOk, map, filter};
ghost use Rattle.cls_grammar.specs.Trimming.{is_useful, useful_row};

use crate::columns::Flags;
use crate::grammar::Grammar;
use cls_base::{NodeRules, OutOfMemory};
use std::alloc::Global;

// The rules each argument of which has the flag.
fn useful_rules(alloc: Global, flags: &Flags, rules: &NodeRules) -> Result<NodeRules, OutOfMemory>
    ensures { IfOk result (λ rs. rs ≡ filter (is_useful flags.now) rules.now) }
{
    let mut useful = NodeRules::new(alloc);
    for place in 0..rules.len() {
        let rule = rules.get(place);
        if flags.is_useful(rule) {
            useful.push(rule)?;
        }
    }
    Ok(useful)
}

/// The grammar without the rules that have an argument without the flag. The only error is out of memory.
pub(crate) fn useful_rows(
    alloc: Global,
    grammar: &Grammar,
    flags: &Flags,
) -> Result<Grammar, OutOfMemory>
    ensures { IfOk result (λ g. g ≡ map (useful_row flags.now) grammar.now) }
{
    let count = grammar.count();
    let mut goals = Vec::with_capacity(alloc, count as usize)?;
    let mut rules = Vec::with_capacity(alloc, count as usize)?;
    for i in 0..count {
        let goal = grammar.goal(i).copy(alloc)?;
        let useful = useful_rules(alloc, flags, grammar.rules(i))?;
        rules.push(useful)?;
        goals.push(goal)?;
    }
    Ok(Grammar { goals, rules })
}
