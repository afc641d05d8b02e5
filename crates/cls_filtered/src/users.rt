//! Which steps use which nodes. No proof hangs on it: it is what decides which steps are followed again.
ghost use Rattle.std.specs.Prelude.{◌≡◌, ◌∷◌, ◌++◌, [], OnOk};

use crate::step::Step;
use crate::step_book::StepBook;
use cls_base::OutOfMemory;
use std::alloc::Global;
use std::marker::Model;

/// A step of a node, by its place among them.
#[derive(Clone, Copy)]
pub(crate) struct Use {
    pub(crate) node: u32,
    pub(crate) place: usize,
}

/// Steps that use a node, seen as the list of them.
#[derive(Drop)]
pub(crate) struct Uses {
    steps: Vec<Use>,
}

impl Model for Uses {
    ghost use Rattle.std.specs.Prelude.{List};
    ghost use Rattle.cls_filtered.specs.declared.users.Use.{Use};

    ghost Value = { List Use };

    ghost view = { λ u. u.steps.items };
}

impl Uses {
    fn new(alloc: Global) -> Uses
        ensures { result ≡ [] }
    {
        Uses {
            steps: Vec::new(alloc),
        }
    }

    fn push(&mut self, step: Use) -> Result<(), OutOfMemory>
        ensures { OnOk result (self.new ≡ self.old ++ step ∷ []) }
    {
        self.steps.push(step)?;
        Ok(())
    }

    fn as_slice(&self) -> &[Use]
        ensures { result.now ≡ self.now }
    {
        self.steps.as_slice()
    }
}

/// For each node the steps that use it. The only error is out of memory.
pub(crate) fn uses_of(alloc: Global, book: &StepBook) -> Result<Vec<Uses>, OutOfMemory> {
    let mut uses = Vec::with_capacity(alloc, book.count() as usize)?;
    for _ in 0..book.count() {
        uses.push(Uses::new(alloc))?;
    }
    for node in 0..book.count() {
        put_uses(&mut uses, node, book.steps(node))?;
    }
    Ok(uses)
}

// The steps of the node use those nodes that they apply.
fn put_uses(uses: &mut Vec<Uses>, node: u32, steps: &[Step]) -> Result<(), OutOfMemory> {
    for (place, step) in steps.iter().enumerate() {
        if let Step::Application { left, right } = *step {
            put_use(uses, left, Use { node, place })?;
            put_use(uses, right, Use { node, place })?;
        }
    }
    Ok(())
}

// The step uses the node, if there is one with this number.
fn put_use(uses: &mut Vec<Uses>, used: u32, step: Use) -> Result<(), OutOfMemory> {
    if used as usize >= uses.len() {
        return Ok(());
    }
    uses[used as usize].push(step)?;
    Ok(())
}

/// The steps that use the node.
pub(crate) fn uses_at(uses: &[Uses], node: u32) -> &[Use] {
    match uses.get(node as usize) {
        Some(uses) => uses.as_slice(),
        None => &[],
    }
}
