//! Lines that change the repository: a component comes or goes.
ghost use Rattle.std.specs.Prelude.{◌≡◌, ◌<◌, ◌++◌, ◌∷◌, [], true, length, map, remove, take, IfOk, OnErr, OnOk, string_bytes};
ghost use Rattle.cls_assemble.specs.declared.piece.Piece.TheVariants.{Byte};
ghost use Rattle.cls_base.specs.Schemas.{schema_of};
ghost use Rattle.cls_query.specs.declared.change.Change.TheVariants.{Add, Remove};
ghost use Rattle.cls_query.specs.QueryErrors.{is_absent};
ghost use Rattle.cls_query.specs.ReadChanges.{MayChange, change_in};
ghost use Rattle.cls_replies.specs.Changing.{Changed, Makes};
ghost use Rattle.cls_replies.specs.Printing.{IsPrintable, left_of};

use crate::faults::{line_fault, refusal};
use crate::printing::{Printing, text_printing};
use crate::responder::Responder;
use crate::words::word_line;
use cls_assemble::{Template, Templates};
use cls_base::{Name, OutOfMemory, Schema};
use cls_lexer::{Line, Names, Token};
use cls_query::{BuiltChange, Change, read_change};
use std::alloc::Global;
use std::mem;

impl Responder {
    /// Answers a line that changes the repository.
    pub(crate) fn change<'p>(
        &mut self,
        alloc: Global,
        line: &Line<'p>,
        room: &mut Vec<Token<'p>>,
    ) -> Result<Printing, OutOfMemory>
        ensures changed { IfOk result (λ p. Changed self.old line.now (left_of self.new p) self.new) }
        ensures printable { IfOk result (IsPrintable self.new) }
        ensures same_held { OnOk result (self.new.held ≡ self.old.held) }
    {
        match read_change(
            alloc,
            &mut self.names,
            &mut self.variables,
            &self.components,
            line,
            room,
        ) {
            Ok(change) => text_printing(self.make(alloc, &change)),
            Err(fault) => text_printing(line_fault(alloc, &fault)),
        }
    }

    /// Makes the change, and gives what is written for it.
    fn make(&mut self, alloc: Global, change: &BuiltChange) -> Result<String, OutOfMemory>
        requires { MayChange self.old.components (change_in change.now) }
        ensures makes { IfOk result (λ text. Makes self.old (change_in change.now) (string_bytes text) self.new) }
        ensures same_held { OnOk result (self.new.held ≡ self.old.held) }
    {
        match change {
            Change::Add(name, schema) => self.add(alloc, name.as_str(), schema),
            Change::Remove(component) => self.remove(alloc, *component),
        }
    }

    /// Adds the component, unless it is refused.
    fn add(&mut self, alloc: Global, name: &str, schema: &Schema) -> Result<String, OutOfMemory>
        requires { is_absent self.old.components name.now ≡ true }
        ensures makes { IfOk result (λ text.
            Makes self.old (Add name.now (schema_of schema.now)) (string_bytes text) self.new) }
        ensures same_held { OnOk result (self.new.held ≡ self.old.held) }
    {
        let count = self.components.len();
        put_name(alloc, &mut self.components, &mut self.templates, name)?;
        match self.engine.add(alloc, schema, &self.kinds) {
            Ok(()) => word_line(alloc, "added"),
            Err(fault) => {
                self.components.cut(count);
                cut_templates(alloc, &mut self.templates, count);
                refusal(alloc, &self.variables, name, fault.kind)
            }
        }
    }

    /// Takes the component out.
    fn remove(&mut self, alloc: Global, component: Name) -> Result<String, OutOfMemory>
        requires { component.0 < length self.old.components }
        ensures makes { IfOk result (λ text. Makes self.old (Remove component.0) (string_bytes text) self.new) }
        ensures same_held { OnOk result (self.new.held ≡ self.old.held) }
    {
        self.engine.remove(alloc, component.0);
        self.components.remove(component);
        remove_template(alloc, &mut self.templates, component.0);
        self.filters.remove(component.0);
        word_line(alloc, "dropped")
    }
}

/// Puts a name that is new last, and its template behind the others. The only error is out of memory, also where no
/// number is left, and leaves both as before.
fn put_name(
    alloc: Global,
    components: &mut Names,
    templates: &mut Templates,
    name: &str,
) -> Result<(), OutOfMemory>
    requires { is_absent components.old name.now ≡ true }
    ensures components { OnOk result (components.new ≡ components.old ++ name.now ∷ []) }
    ensures templates { OnOk result (templates.new ≡ templates.old ++ map Byte name.now ∷ []) }
    ensures components_stay { OnErr result (components.new ≡ components.old) }
    ensures templates_stay { OnErr result (templates.new ≡ templates.old) }
{
    let template = Template::of_name(alloc, name)?;
    let count = components.len();
    if count >= u32::MAX - 1 {
        return Err(OutOfMemory);
    }
    components.intern(alloc, name)?;
    match put_template(alloc, templates, template) {
        Ok(()) => Ok(()),
        Err(fault) => {
            components.cut(count);
            Err(fault)
        }
    }
}

/// Puts the template last. The only error is out of memory, and leaves the templates as before.
fn put_template(
    alloc: Global,
    templates: &mut Templates,
    template: Template,
) -> Result<(), OutOfMemory>
    ensures ok { OnOk result (templates.new ≡ templates.old ++ template ∷ []) }
    ensures err { OnErr result (templates.new ≡ templates.old) }
{
    let mut items = mem::replace(templates, Templates::from_vec(Vec::new(alloc))).into_vec();
    let pushed = items.push(template);
    *templates = Templates::from_vec(items);
    Ok(pushed?)
}

/// Keeps the first templates, so many of them. It takes no memory.
fn cut_templates(alloc: Global, templates: &mut Templates, count: u32)
    ensures { templates.new ≡ take count templates.old }
{
    let mut items = mem::replace(templates, Templates::from_vec(Vec::new(alloc))).into_vec();
    items.truncate(count as usize);
    *templates = Templates::from_vec(items);
}

/// Takes the template of a component out. It takes no memory.
fn remove_template(alloc: Global, templates: &mut Templates, x: u32)
    requires { x < length templates.old }
    ensures { templates.new ≡ remove templates.old x }
{
    let mut items = mem::replace(templates, Templates::from_vec(Vec::new(alloc))).into_vec();
    items.remove(x as usize);
    *templates = Templates::from_vec(items);
}
