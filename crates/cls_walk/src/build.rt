//! The forms of the nodes of a rule book. They are made only for books in which a node has at most one pair of nodes,
//! of itself and another node.
ghost use Rattle.std.specs.Prelude.{◌≡◌, ℕ, ◌++◌, ◌∷◌, [], true, IfOk, IfSome, OnOk, List};
ghost use Rattle.cls_base.specs.declared.rule.Rule.{Rule};
ghost use Rattle.cls_base.specs.Columns.{rule_of};
ghost use Rattle.cls_walk.specs.Counts.{HeadRule};
ghost use Rattle.cls_walk.specs.Attempts.{AreFormsUpTo};
ghost use Rattle.cls_walk.specs.Filled.{EachRise};
ghost use Rattle.cls_walk.specs.Forms.{AreRising, IsEarlier};
ghost use Rattle.cls_walk.specs.Repeats.{copies, forms_by, repeated, IsRepeat};

use crate::form::{Form, Forms};
use cls_base::{NodeRules, OutOfMemory, RuleBook, RuleRef};
use std::alloc::Global;

/// What the node may be applied to again and again, with one rule more. None, if it isn't as the head of this file
/// says.
fn repeat_with(node: u32, repeat: Option<u32>, rule: RuleRef<'_>) -> Option<Option<u32>>
    ensures { IfSome result (λ new. (rules : List (Rule ℕ))
        → IsRepeat node rules repeat → IsRepeat node (rules ++ rule_of rule.entry ∷ []) new) }
{
    match rule {
        RuleRef::Head {
            component: _,
            args: _,
        } => Some(repeat),
        RuleRef::Any { left, right } => {
            if repeat.is_some() || left != node {
                return None;
            }
            Some(Some(right))
        }
    }
}

/// The same for all rules of the node.
fn repeat_of(node: u32, rules: &NodeRules) -> Option<Option<u32>>
    ensures { IfSome result (IsRepeat node rules.now) }
{
    let mut repeat = None;
    for place in 0..rules.len() {
        let rule = rules.get(place);
        repeat = repeat_with(node, repeat, rule)?;
    }
    Some(repeat)
}

/// Whether each head rule has a later component than the one before it, or the same one and more arguments. Else the
/// forms don't rise.
fn heads_rise(rules: &NodeRules) -> bool {
    let mut component = 0;
    let mut least = 0;
    for place in 0..rules.len() {
        let rule = rules.get(place);
        if let RuleRef::Head {
            component: next,
            args,
        } = rule
        {
            if next < component || (next == component && args.len() < least) {
                return false;
            }
            component = next;
            least = args.len().saturating_add(1);
        }
    }
    true
}

/// Whether the book is as the head of this file says, and the forms of each node may rise, told before any is made.
fn may_rise<B: RuleBook>(book: &B) -> bool {
    for node in 0..book.count() {
        let rules = book.rules(node);
        if repeat_of(node, rules).is_none() || !heads_rise(rules) {
            return false;
        }
    }
    true
}

/// A head rule with so many arguments of a node more. A form of 2^32 arguments is refused as out of memory.
fn form_with(
    alloc: Global,
    component: u32,
    nodes: &[u32],
    node: u32,
    count: u32,
) -> Result<Form, OutOfMemory>
    ensures { IfOk result (λ form. form ≡ (component, nodes.now ++ copies node count)) }
{
    let mut all = Vec::from_slice(alloc, nodes)?;
    for _place in 0..count {
        all.push(node)?;
    }
    all.reverse();
    let Ok(total) = u32::try_from(all.len()) else {
        return Err(OutOfMemory);
    };
    Ok(Form {
        component,
        count: total,
        nodes: all,
    })
}

/// Adds the forms by a head rule, with fewer than `size` arguments more.
fn add_forms(
    alloc: Global,
    component: u32,
    nodes: &[u32],
    repeat: Option<u32>,
    size: u32,
    forms: &mut Vec<Form>,
) -> Result<(), OutOfMemory>
    ensures { OnOk result
        (forms.new.items ≡ forms.old.items ++ repeated repeat size (component, nodes.now)) }
{
    let Some(node) = repeat else {
        forms.push(form_with(alloc, component, nodes, 0, 0)?)?;
        return Ok(());
    };
    for count in 0..size {
        forms.push(form_with(alloc, component, nodes, node, count)?)?;
    }
    Ok(())
}

/// The same for a rule. A pair of nodes is no head rule.
fn add_rule(
    alloc: Global,
    rule: RuleRef<'_>,
    repeat: Option<u32>,
    size: u32,
    forms: &mut Vec<Form>,
) -> Result<(), OutOfMemory>
    ensures { OnOk result (forms.new.items ≡ forms.old.items ++ forms_by repeat size (rule_of rule.entry ∷ [])) }
{
    match rule {
        RuleRef::Head { component, args } => {
            add_forms(alloc, component, args, repeat, size, forms)
        }
        RuleRef::Any { left: _, right: _ } => Ok(()),
    }
}

/// The forms by these rules.
fn node_forms(
    alloc: Global,
    rules: &NodeRules,
    repeat: Option<u32>,
    size: u32,
) -> Result<Vec<Form>, OutOfMemory>
    ensures { IfOk result (λ forms. forms.items ≡ forms_by repeat size rules.now) }
{
    let mut forms = Vec::new(alloc);
    for place in 0..rules.len() {
        let rule = rules.get(place);
        add_rule(alloc, rule, repeat, size, &mut forms)?;
    }
    Ok(forms)
}

fn is_earlier(first: &Form, second: &Form) -> bool
    ensures { result ≡ true → IsEarlier first.now second.now }
{
    first.component < second.component
        || (first.component == second.component && first.count < second.count)
}

/// Whether each form is earlier than the next.
fn are_rising(forms: &[Form]) -> bool
    ensures { result ≡ true → AreRising forms.now }
{
    for place in 1..forms.len() {
        if !is_earlier(&forms[place - 1], &forms[place]) {
            return false;
        }
    }
    true
}

/// The forms of each node with fewer arguments than `size`, if the book is as the head of this file says.
pub(crate) fn forms_of<B: RuleBook>(
    alloc: Global,
    book: &B,
    size: u32,
) -> Result<Option<Forms>, OutOfMemory>
    ensures { IfOk result (λ answer. IfSome answer (λ forms. AreFormsUpTo (B.book book.now) size forms)) }
{
    if !may_rise(book) {
        return Ok(None);
    }
    let mut nodes = Vec::new(alloc);
    for node in 0..book.count() {
        let rules = book.rules(node);
        let Some(repeat) = repeat_of(node, rules) else {
            return Ok(None);
        };
        let forms = node_forms(alloc, rules, repeat, size)?;
        nodes.push(forms)?;
    }
    Ok(Some(Forms { nodes }))
}

/// Whether each form of each node is earlier than the next. Then each code has one derivation.
pub(crate) fn each_rises(forms: &Forms) -> bool
    ensures { result ≡ true → EachRise forms.now }
{
    for node in &forms.nodes {
        if !are_rising(node.as_slice()) {
            return false;
        }
    }
    true
}
