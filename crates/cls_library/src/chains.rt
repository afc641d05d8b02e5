//! Chains of places of one kind: the first place of each kind, and behind each place the next one of its kind.
ghost use Rattle.std.specs.Prelude.{◌≡◌, IfOk};
ghost use Rattle.cls_base.specs.Lists.{AreBelow};
ghost use Rattle.cls_library.specs.Chains.{AreChained};

use cls_base::OutOfMemory;
use std::alloc::Global;

/// For each kind its first place, and for each place the next one of its kind. A number that is no place ends a chain.
#[derive(Drop)]
pub(crate) struct Chains {
    pub firsts: Vec<u32>,
    pub next: Vec<u32>,
}

impl Chains {
    /// The chains of places of these kinds, which are below `count`. They are made from the last place to the first.
    pub fn new(alloc: Global, kinds: &[u32], count: usize) -> Result<Chains, OutOfMemory>
        requires { AreBelow count kinds.now }
        ensures { IfOk result (λ chains. AreChained 0 count kinds.now chains.firsts.items chains.next.items) }
    {
        let Ok(end) = u32::try_from(kinds.len()) else {
            return Err(OutOfMemory);
        };
        let mut firsts = vec![in alloc; end; count]?;
        let mut next = vec![in alloc; end; kinds.len()]?;
        let mut place = end;
        while place > 0 {
            place -= 1;
            let kind = kinds[place as usize] as usize;
            next[place as usize] = firsts[kind];
            firsts[kind] = place;
        }
        Ok(Chains { firsts, next })
    }

    /// Chains equal to these.
    pub fn copy(&self, alloc: Global) -> Result<Chains, OutOfMemory>
        ensures firsts { IfOk result (λ copy. copy.firsts.items ≡ self.now.firsts.items) }
        ensures next { IfOk result (λ copy. copy.next.items ≡ self.now.next.items) }
    {
        Ok(Chains {
            firsts: Vec::from_slice(alloc, self.firsts.as_slice())?,
            next: Vec::from_slice(alloc, self.next.as_slice())?,
        })
    }
}
