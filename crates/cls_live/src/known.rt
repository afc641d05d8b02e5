ghost use Rattle.std.specs.Prelude.{◌≡◌, ◌<◌, ◌^◌};
ghost use Rattle.cls_live.specs.Slots.{nothing, rules_in};
ghost use Rattle.cls_live.specs.Updates.{rules_in_parts};

use cls_base::NodeRules;
use std::alloc::Global;

/// What is stored of a goal: the rules that the components with slots below `end` make for it.
#[derive(Drop)]
pub(crate) struct Known {
    pub(crate) end: u32,
    pub(crate) rules: NodeRules,
}

/// What becomes known of the goal with a number.
#[derive(Drop)]
pub(crate) struct Part {
    pub(crate) number: u32,
    pub(crate) known: Known,
}

/// Nothing is known. It takes no memory.
pub(crate) fn unknown(alloc: Global) -> Known
    ensures { result ≡ nothing }
{
    Known {
        end: 0,
        rules: NodeRules::new(alloc),
    }
}

/// The number of rules that are stored.
pub(crate) fn count_rules(known: &[Known]) -> u64
    requires { rules_in known.now < 2 ^ 64 }
    ensures { result ≡ rules_in known.now }
{
    let mut count = 0;
    for one in known {
        count += one.rules.len() as u64;
    }
    count
}

/// The number of rules of the parts.
pub(crate) fn count_part_rules(parts: &[Part]) -> u64
    requires { rules_in_parts parts.now < 2 ^ 64 }
    ensures { result ≡ rules_in_parts parts.now }
{
    let mut count = 0;
    for part in parts {
        count += part.known.rules.len() as u64;
    }
    count
}
