//! The text of a grammar, written line by line at the end of a `String`, from any place on.
ghost use Rattle.std.specs.Prelude.{◌≡◌, ◌<◌, ◌≤◌, ◌++◌, OnOk, IfOk, IfSome, List, length, drop, string_bytes};
ghost use Rattle.std.specs.Fmt.{decimal};
ghost use Rattle.std.specs.List.{sum_by};
ghost use Rattle.cls_path.specs.Paths.{TypePath, listed, type_of_paths};
ghost use Rattle.cls_base.specs.Columns.{rule_of};
ghost use Rattle.cls_core.specs.Arguments.{rule_count};
ghost use Rattle.cls_core.specs.Rows.{Row};
ghost use Rattle.cls_syntax.specs.TypePrinting.{name_in};
ghost use Rattle.cls_grammar.specs.declared.printing.GrammarPlace.TheVariants.{Rule};
ghost use Rattle.cls_grammar.specs.GrammarTexts.{counts_text, numbers_text, line, rank_text, rule_text, rules_text, goal_text};
ghost use Rattle.cls_grammar.specs.GrammarTexts.{IsPlaceIn, goals_from, lines_from, lines_left};

use crate::grammar::Grammar;
use cls_base::{Name, NodeRules, OutOfMemory, RuleRef};
use cls_lexer::Names;
use cls_norm::type_of;
use cls_path::Nf;
use cls_syntax::write_type;
use itoa::{Buffer, Integer};
use std::alloc::Global;

/// A line of the text of a grammar, where the text may go on.
#[derive(Clone, Copy, Debug, PartialEq, Eq)]
pub enum GrammarPlace {
    /// The first line, with the numbers of goals and rules.
    Counts,
    /// The line of the goal with this number, or the last line if there is no such goal.
    Goal(u32),
    /// The line of a rule of the goal with this number, by its place. Where there is no such rule, the next goal follows.
    Rule(u32, usize),
}

/// The names of constructors and of components, by their numbers.
#[derive(Clone, Copy)]
pub(crate) struct Tables<'a> {
    pub(crate) names: &'a Names,
    pub(crate) components: &'a Names,
}

// Writes the number in decimal digits.
fn write_number<I: Integer>(number: I, text: &mut String) -> Result<(), OutOfMemory>
    ensures { OnOk result (string_bytes text.new ≡ string_bytes text.old ++ I.text number) }
{
    let mut digits = Buffer::new();
    text.push_str(digits.format(number))?;
    Ok(())
}

// Writes numbers, each after a space.
fn write_numbers(numbers: &[u32], text: &mut String) -> Result<(), OutOfMemory>
    ensures { OnOk result (string_bytes text.new ≡ string_bytes text.old ++ numbers_text numbers.now) }
{
    for number in numbers {
        text.push(' ')?;
        write_number(*number, text)?;
    }
    Ok(())
}

// Writes the line of a rule.
fn write_rule(components: &Names, rule: RuleRef<'_>, text: &mut String) -> Result<(), OutOfMemory>
    ensures { OnOk result (string_bytes text.new ≡ string_bytes text.old ++
        line (rule_text (name_in components.now) (rule_of rule.entry))) }
{
    match rule {
        RuleRef::Head { component, args } => {
            text.push_str("rule ")?;
            text.push_str(components.text(Name(component)))?;
            write_numbers(args, text)?;
            text.push('\n')?;
            Ok(())
        }
        RuleRef::Any { left, right } => {
            text.push_str("any ")?;
            write_number(left, text)?;
            text.push(' ')?;
            write_number(right, text)?;
            text.push('\n')?;
            Ok(())
        }
    }
}

// Writes the lines of rules from a place on, until the text has enough bytes. Gives the place of the first that isn't
// written.
fn write_rules(
    components: &Names,
    rules: &NodeRules,
    from: usize,
    enough: usize,
    text: &mut String,
) -> Result<usize, OutOfMemory>
    ensures lines { let lines = rules_text (name_in components.now) in IfOk result (λ next.
        string_bytes text.new ++ lines (drop next rules.now) ≡ string_bytes text.old ++ lines (drop from rules.now)) }
    ensures full { IfOk result (λ next. next < length rules.now → enough ≤ length (string_bytes text.new)) }
{
    let count = rules.len();
    for place in from..count {
        if text.len() >= enough {
            return Ok(place);
        }
        write_rule(components, rules.get(place), text)?;
    }
    Ok(count)
}

// Writes the rank of a goal, or that it has none.
fn write_rank(rank: Option<u32>, text: &mut String) -> Result<(), OutOfMemory>
    ensures { OnOk result (string_bytes text.new ≡ string_bytes text.old ++ rank_text rank) }
{
    match rank {
        Some(height) => {
            text.push_str("rank ")?;
            write_number(height, text)?;
            Ok(())
        }
        None => {
            text.push_str("empty")?;
            Ok(())
        }
    }
}

// Writes the line of a goal.
fn write_goal(
    alloc: Global,
    names: &Names,
    number: u32,
    goal: &Nf,
    rank: Option<u32>,
    text: &mut String,
) -> Result<(), OutOfMemory>
    ensures { OnOk result (string_bytes text.new ≡ string_bytes text.old ++
        goal_text (name_in names.now) number goal.now rank) }
{
    let ty = type_of(alloc, goal)?;
    text.push_str("goal ")?;
    write_number(number, text)?;
    text.push(' ')?;
    write_rank(rank, text)?;
    text.push(' ')?;
    write_type(text, names, &ty)?;
    text.push('\n')?;
    Ok(())
}

// Writes the goals from this number on, each with its rules, and the last line, until the text has enough bytes.
fn write_goals(
    alloc: Global,
    tables: &Tables<'_>,
    grammar: &Grammar,
    ranks: &[Option<u32>],
    from: u32,
    enough: usize,
    text: &mut String,
) -> Result<Option<GrammarPlace>, OutOfMemory>
    requires { length ranks.now ≡ length grammar.now }
    ensures within { IfOk result (λ next. IfSome next (IsPlaceIn grammar.now)) }
    ensures lines { let n = name_in tables.now.names.now in let c = name_in tables.now.components.now in
        IfOk result (λ next. string_bytes text.new ++ lines_left n c grammar.now ranks.now next
        ≡ string_bytes text.old ++ goals_from n c grammar.now ranks.now from) }
    ensures full { IfOk result (λ next. IfSome next (λ _. enough ≤ length (string_bytes text.new))) }
{
    let goals = grammar.count();
    for number in from..goals {
        let written = text.len();
        if written >= enough {
            return Ok(Some(GrammarPlace::Goal(number)));
        }
        let rules = grammar.rules(number);
        let rank = ranks[number as usize];
        write_goal(
            alloc,
            tables.names,
            number,
            grammar.goal(number),
            rank,
            text,
        )?;
        let next = write_rules(tables.components, rules, 0, enough, text)?;
        let count = rules.len();
        if next < count {
            return Ok(Some(GrammarPlace::Rule(number, next)));
        }
    }
    text.push_str("done\n")?;
    Ok(None)
}

// The number of all rules.
fn rule_total(grammar: &Grammar) -> u128
    ensures { result ≡ sum_by (λ (r : Row (List TypePath)). rule_count r.answer) grammar.now }
{
    let mut total = 0;
    for number in 0..grammar.count() {
        total += grammar.rules(number).len() as u128;
    }
    total
}

// Writes the line with the numbers of goals and rules.
fn write_counts(grammar: &Grammar, text: &mut String) -> Result<(), OutOfMemory>
    ensures { OnOk result (string_bytes text.new ≡ string_bytes text.old ++ counts_text grammar.now) }
{
    text.push_str("grammar ")?;
    write_number(grammar.count(), text)?;
    text.push(' ')?;
    let total = rule_total(grammar);
    write_number(total, text)?;
    text.push('\n')?;
    Ok(())
}

// Writes the rules of the goal with this number from a place on, and what follows them, until the text has enough bytes.
fn write_from_rule(
    alloc: Global,
    tables: &Tables<'_>,
    grammar: &Grammar,
    ranks: &[Option<u32>],
    number: u32,
    place: usize,
    enough: usize,
    text: &mut String,
) -> Result<Option<GrammarPlace>, OutOfMemory>
    requires ranked { length ranks.now ≡ length grammar.now }
    requires place { number < length grammar.now }
    ensures within { IfOk result (λ next. IfSome next (IsPlaceIn grammar.now)) }
    ensures lines { let n = name_in tables.now.names.now in let c = name_in tables.now.components.now in
        IfOk result (λ next. string_bytes text.new ++ lines_left n c grammar.now ranks.now next
        ≡ string_bytes text.old ++ lines_from n c grammar.now ranks.now (Rule number place)) }
    ensures full { IfOk result (λ next. IfSome next (λ _. enough ≤ length (string_bytes text.new))) }
{
    // For the prover: the number of goals is one of 32 bits.
    let _goals = grammar.count();
    let rules = grammar.rules(number);
    let next = write_rules(tables.components, rules, place, enough, text)?;
    let count = rules.len();
    if next < count {
        return Ok(Some(GrammarPlace::Rule(number, next)));
    }
    write_goals(alloc, tables, grammar, ranks, number + 1, enough, text)
}

/// Writes lines of the grammar with these ranks of its goals from a place on, until the text has enough bytes. Gives the
/// place of the first line that isn't written.
pub(crate) fn write_from(
    alloc: Global,
    tables: &Tables<'_>,
    grammar: &Grammar,
    ranks: &[Option<u32>],
    from: GrammarPlace,
    enough: usize,
    text: &mut String,
) -> Result<Option<GrammarPlace>, OutOfMemory>
    requires ranked { length ranks.now ≡ length grammar.now }
    requires place { IsPlaceIn grammar.now from }
    ensures within { IfOk result (λ next. IfSome next (IsPlaceIn grammar.now)) }
    ensures lines { let n = name_in tables.now.names.now in let c = name_in tables.now.components.now in
        IfOk result (λ next. string_bytes text.new ++ lines_left n c grammar.now ranks.now next
        ≡ string_bytes text.old ++ lines_from n c grammar.now ranks.now from) }
    ensures full { IfOk result (λ next. IfSome next (λ _. enough ≤ length (string_bytes text.new))) }
{
    match from {
        GrammarPlace::Counts => {
            write_counts(grammar, text)?;
            write_goals(alloc, tables, grammar, ranks, 0, enough, text)
        }
        GrammarPlace::Goal(number) => {
            write_goals(alloc, tables, grammar, ranks, number, enough, text)
        }
        GrammarPlace::Rule(number, place) => {
            write_from_rule(alloc, tables, grammar, ranks, number, place, enough, text)
        }
    }
}
