//! Repositories, and how one is made of what lines declare.
ghost use Rattle.std.specs.Prelude.{ℕ, ◌≡◌, ◌+◌, ◌<◌, ◌^◌, false, List, length, map, Some, IfOk, IfErr, OnOk};
ghost use Rattle.cls_base.specs.Firsts.{IsSilent, First};
ghost use Rattle.cls_base.specs.Lists.{AreDistinct};
ghost use Rattle.cls_taxon.specs.Orders.{IsOrder};
ghost use Rattle.cls_taxon.specs.Variances.{declared_of};
ghost use Rattle.cls_repo.specs.EndFaults.{declared_in, end_faults, name_at, library_words};
ghost use Rattle.cls_repo.specs.FaultWords.{IsSaid, OnWords};
ghost use Rattle.cls_repo.specs.Readings.{no_reading, TakesAll, FirstFault, closing_faults};
ghost use Rattle.cls_repo.specs.Repositories.{IsRepositoryOf, IsReadFrom};
ghost use Rattle.cls_repo.specs.Written.{draft_of, component_of, filter_seen, AreColumns, IsOrderFault, order_words};

use crate::draft::{Component, Draft};
use crate::draft_filter::DraftFilter;
use crate::fault::{FaultKind, RepoFault};
use crate::reader::RepoReader;
use cls_assemble::{Template, Templates};
use cls_base::{Name, Numbers, OutOfMemory, Schema, Variance};
use cls_filter::Filters;
use cls_kind::{KindFault, Kinds};
use cls_lexer::{Line, Names};
use cls_library::{Library, LibraryKind};
use cls_taxon::{TaxonFault, Taxonomy};
use std::alloc::Global;

/// What the lines of a repository declare.
#[derive(Drop)]
pub struct Repository {
    /// The constructors.
    pub names: Names,
    /// The variables.
    pub variables: Names,
    /// The components.
    pub components: Names,
    /// The types of the components by number.
    pub library: Library,
    /// What stands for the components in texts, by number.
    pub templates: Templates,
    /// The costs of the components by number, each from 1 to 255.
    pub costs: Numbers,
    /// The kinds of the variables.
    pub kinds: Kinds,
    /// The names of the filters.
    pub filter_names: Names,
    /// The filters by number.
    pub filters: Filters,
}

impl Repository {
    /// The repository of the lines up to the line `end`. Later lines are not read.
    ///
    /// The fault is the first one: of the first line that is at fault, otherwise `NoEnd`, and otherwise that of the
    /// repository. It may be out of memory.
    pub fn read(alloc: Global, lines: &[Line]) -> Result<Repository, RepoFault>
        requires { length lines.now < 2 ^ 32 }
        ensures repository { IfOk result (IsReadFrom lines.now) }
        ensures fault { IfErr result (IsSaid (FirstFault no_reading lines.now)) }
    {
        let mut reader = RepoReader::new(alloc);
        feed_all(alloc, &mut reader, lines)?;
        reader.finish(alloc)
    }
}

/// Feeds the lines to the reader, up to the line `end`.
fn feed_all(alloc: Global, reader: &mut RepoReader, lines: &[Line]) -> Result<(), RepoFault>
    requires going { reader.old.ended ≡ false }
    requires room { reader.old.lines + length lines.now < 2 ^ 32 }
    ensures taken { OnOk result (TakesAll reader.old lines.now reader.new) }
    ensures closing { OnOk result
        ((said : ℕ × List ℕ) → First (closing_faults reader.new) said → FirstFault reader.old lines.now said) }
    ensures fault { IfErr result (IsSaid (FirstFault reader.old lines.now)) }
{
    let mut room = Vec::new(alloc);
    for line in lines {
        if reader.feed(alloc, line, &mut room)? {
            return Ok(());
        }
    }
    Ok(())
}

/// The components of a draft, one list for each part of them.
#[derive(Drop)]
struct Columns {
    schemas: Vec<Schema>,
    lines: Vec<u32>,
    templates: Vec<Template>,
    costs: Vec<u32>,
}

/// The repository of what is declared, where the line `end` has this number.
pub(crate) fn build(alloc: Global, draft: Draft, line: u32) -> Result<Repository, RepoFault>
    ensures repository { IfOk result (IsRepositoryOf (draft_of draft)) }
    ensures silent { OnOk result (IsSilent (First (end_faults (draft_of draft) line))) }
    ensures fault { IfErr result (IsSaid (First (end_faults (draft_of draft) line))) }
{
    let taxonomy = match taxonomy_of(alloc, &draft) {
        Ok(taxonomy) => taxonomy,
        Err(kind) => return Err(RepoFault { line, kind }),
    };
    let columns = match columns_of(alloc, draft.components) {
        Ok(columns) => columns,
        Err(_) => {
            return Err(RepoFault {
                line,
                kind: FaultKind::OutOfMemory,
            });
        }
    };
    let Ok(filters) = filters_of(alloc, draft.filters) else {
        return Err(RepoFault {
            line,
            kind: FaultKind::OutOfMemory,
        });
    };
    match Library::build(alloc, taxonomy, &columns.schemas, &draft.kinds) {
        Ok(library) => Ok(Repository {
            names: draft.names,
            variables: draft.variables,
            components: draft.component_names,
            library,
            templates: Templates::from_vec(columns.templates),
            costs: Numbers::new(columns.costs),
            kinds: draft.kinds,
            filter_names: draft.filter_names,
            filters,
        }),
        Err(fault) => {
            let component = text_at(&draft.component_names, Name(fault.component));
            Err(RepoFault {
                line: columns.lines[fault.component as usize],
                kind: library_fault(alloc, &draft.variables, component, fault.kind),
            })
        }
    }
}

/// The order of names that is declared.
fn taxonomy_of(alloc: Global, draft: &Draft) -> Result<Taxonomy, FaultKind>
    ensures declared { IfOk result (λ t. t ≡ declared_in (draft_of draft.now)) }
    ensures order { OnOk result (IsOrder (declared_in (draft_of draft.now))) }
    ensures fault { IfErr result (OnWords (IsOrderFault (draft_of draft.now))) }
{
    let variances = variances(alloc, draft)?;
    match Taxonomy::new(alloc, &draft.pairs, &variances) {
        Ok(taxonomy) => Ok(taxonomy),
        Err(fault) => Err(order_fault(alloc, &draft.names, fault)),
    }
}

/// The variances that are declared, as a list.
fn variances(alloc: Global, draft: &Draft) -> Result<Vec<(Name, Variance)>, OutOfMemory>
    ensures list { IfOk result (λ v. map declared_of v.items ≡ (draft_of draft.now).variances) }
    ensures distinct { IfOk result (λ v. AreDistinct (map (λ d. d.0.0) v.items)) }
{
    let mut variances = Vec::with_capacity(alloc, draft.variances.len())?;
    for (name, variance) in &draft.variances {
        variances.push((Name(*name), *variance))?;
    }
    Ok(variances)
}

/// The fault of an order of names.
fn order_fault(alloc: Global, names: &Names, fault: TaxonFault) -> FaultKind
    ensures { OnWords (λ words. order_words names.now fault ≡ Some words) result }
{
    match fault {
        TaxonFault::Cycle(name) => match String::from_str(alloc, text_at(names, name)) {
            Ok(name) => FaultKind::Cycle(name),
            Err(_) => FaultKind::OutOfMemory,
        },
        TaxonFault::Mix(name) => match String::from_str(alloc, text_at(names, name)) {
            Ok(name) => FaultKind::VarianceMix(name),
            Err(_) => FaultKind::OutOfMemory,
        },
        TaxonFault::OutOfMemory => FaultKind::OutOfMemory,
    }
}

/// The fault of a component that is refused.
pub(crate) fn library_fault(
    alloc: Global,
    variables: &Names,
    component: &str,
    kind: LibraryKind,
) -> FaultKind
    ensures { OnWords (λ words. library_words variables.now component.now kind ≡ Some words) result }
{
    let variable = match kind {
        LibraryKind::Kind(KindFault::UnknownVariable(variable)) => text_at(variables, variable),
        _ => component,
    };
    let Ok(name) = String::from_str(alloc, variable) else {
        return FaultKind::OutOfMemory;
    };
    match kind {
        LibraryKind::TooManyComponents => FaultKind::TooManyComponents,
        LibraryKind::LibraryTooLarge => FaultKind::LibraryTooLarge,
        LibraryKind::Kind(KindFault::UnknownVariable(_)) => FaultKind::UnknownVariable(name),
        LibraryKind::Kind(KindFault::TooManyInstances) => FaultKind::TooManyInstances(name),
        LibraryKind::Kind(KindFault::InstanceTooLarge) => FaultKind::InstanceTooLarge(name),
        LibraryKind::ArityTooLarge => FaultKind::ArityTooLarge(name),
        LibraryKind::Kind(KindFault::OutOfMemory) | LibraryKind::OutOfMemory => {
            FaultKind::OutOfMemory
        }
    }
}

/// The text of the number, none if it isn't in the table.
fn text_at(names: &Names, name: Name) -> &str
    ensures { result.now ≡ name_at names.now name.0 }
{
    if name.0 < names.len() {
        names.text(name)
    } else {
        ""
    }
}

/// The parts of the components.
fn columns_of(alloc: Global, components: Vec<Component>) -> Result<Columns, OutOfMemory>
    ensures { IfOk result (AreColumns (map component_of components.items)) }
{
    let mut columns = Columns {
        schemas: Vec::with_capacity(alloc, components.len())?,
        lines: Vec::with_capacity(alloc, components.len())?,
        templates: Vec::with_capacity(alloc, components.len())?,
        costs: Vec::with_capacity(alloc, components.len())?,
    };
    for component in components {
        columns.schemas.push(component.schema)?;
        columns.lines.push(component.line)?;
        columns.templates.push(component.template)?;
        columns.costs.push(component.cost)?;
    }
    Ok(columns)
}

/// The automata of the filters.
fn filters_of(alloc: Global, filters: Vec<DraftFilter>) -> Result<Filters, OutOfMemory>
    ensures { IfOk result (λ made. made ≡ map (λ f. f.automaton) (map filter_seen filters.items)) }
{
    let mut made = Vec::with_capacity(alloc, filters.len())?;
    for own in filters {
        made.push(own.filter)?;
    }
    Ok(Filters::from_vec(made))
}
