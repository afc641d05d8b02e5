//! The rules that wait for each node, as linked lists in two columns.
//!
//! One column has a link for each rule that began to wait, in the order in which they began. The other column says for
//! each node which link its list begins with. A list leads from each of its links to the one before it.
ghost use Rattle.std.specs.Prelude.{◌≡◌, ◌<◌, ◌≤◌, ◌∷◌, ◌++◌, [], IfOk, OnOk, length, replicate, slice_set, slice_index_or};
ghost use Rattle.cls_grammar.specs.WaitingLists.{rules_among, AreOrdered};

use cls_base::OutOfMemory;
use std::alloc::Global;
use std::marker::Model;

/// A rule of a node that waits for one of its arguments.
#[derive(Clone, Copy, Drop)]
pub(crate) struct Waiting {
    pub(crate) node: u32,
    pub(crate) rule: u32,
    pub(crate) argument: u32,
}

/// Rules that waited, seen as the list of them.
#[derive(Drop)]
pub(crate) struct Queue {
    items: Vec<Waiting>,
}

impl Model for Queue {
    ghost use Rattle.std.specs.Prelude.{List};
    ghost use Rattle.cls_grammar.specs.declared.waiting.Waiting.{Waiting};

    ghost Value = { List Waiting };

    ghost view = { λ q. q.items.items };
}

impl Queue {
    /// No rules. They take no memory.
    pub(crate) fn new(alloc: Global) -> Queue
        ensures { result ≡ [] }
    {
        Queue {
            items: Vec::new(alloc),
        }
    }

    fn clear(&mut self)
        ensures { self.new ≡ [] }
    {
        self.items.clear();
    }

    fn push(&mut self, waiting: Waiting) -> Result<(), OutOfMemory>
        ensures { OnOk result (self.new ≡ self.old ++ waiting ∷ []) }
    {
        self.items.push(waiting)?;
        Ok(())
    }

    /// The rules as a slice.
    pub(crate) fn as_slice(&self) -> &[Waiting]
        ensures { result.now ≡ self.now }
    {
        self.items.as_slice()
    }
}

/// A rule that began to wait. The rest of its list begins with the last of so many links, or is empty if there are
/// none.
#[derive(Clone, Copy, Drop)]
pub(crate) struct Link {
    pub(crate) waiting: Waiting,
    pub(crate) before: u32,
}

/// The rules that wait for each node, the one that began last first, seen as these lists.
#[derive(Drop)]
pub(crate) struct WaitingLists {
    links: Vec<Link>,
    // The list of each node begins with the last of so many links, or is empty if there are none.
    among: Vec<u32>,
}

impl Model for WaitingLists {
    ghost use Rattle.std.specs.Prelude.{List};
    ghost use Rattle.cls_grammar.specs.declared.waiting.Waiting.{Waiting};
    ghost use Rattle.cls_grammar.specs.WaitingLists.{lists_among, AreOrdered, AreAmong};

    ghost Value = { List (List Waiting) };

    ghost view = { λ w. lists_among w.links.items w.among.items };

    ghost invariant = { λ w. AreOrdered w.links.items × AreAmong w.links.items w.among.items };
}

/// Puts the list that begins with the last of so many links into the queue, in place of the rules there. The only error
/// is out of memory.
fn collect(links: &[Link], count: u32, queue: &mut Queue) -> Result<(), OutOfMemory>
    requires ordered { AreOrdered links.now }
    requires within { count ≤ length links.now }
    ensures { OnOk result (queue.new ≡ rules_among links.now count) }
{
    queue.clear();
    let mut among = count;
    while among > 0 {
        let link = links[among as usize - 1];
        queue.push(link.waiting)?;
        among = link.before;
    }
    Ok(())
}

impl WaitingLists {
    /// No rule waits for any of so many nodes. The only error is out of memory.
    pub(crate) fn new(alloc: Global, count: u32) -> Result<WaitingLists, OutOfMemory>
        ensures { IfOk result (λ lists. lists ≡ replicate count []) }
    {
        let among = vec![in alloc; 0; count as usize]?;
        Ok(WaitingLists {
            links: Vec::new(alloc),
            among,
        })
    }

    /// The rule waits for the node. The only error is out of memory.
    pub(crate) fn push(&mut self, node: u32, waiting: Waiting) -> Result<(), OutOfMemory>
        requires { node < length self.old }
        ensures { OnOk result (self.new ≡ slice_set self.old node (waiting ∷ slice_index_or self.old node [])) }
    {
        // More rules than a number counts take more memory than there is.
        let Ok(count) = u32::try_from(self.links.len() + 1) else {
            return Err(OutOfMemory);
        };
        let before = self.among[node as usize];
        self.links.push(Link { waiting, before })?;
        self.among[node as usize] = count;
        Ok(())
    }

    /// Puts the rules that wait for the node into the queue, in place of those there. They no longer wait. The only
    /// error is out of memory.
    pub(crate) fn take(&mut self, node: u32, queue: &mut Queue) -> Result<(), OutOfMemory>
        requires { node < length self.old }
        ensures queue { OnOk result (queue.new ≡ slice_index_or self.old node []) }
        ensures after { OnOk result (self.new ≡ slice_set self.old node []) }
    {
        collect(self.links.as_slice(), self.among[node as usize], queue)?;
        self.among[node as usize] = 0;
        Ok(())
    }
}
