//! Labels of paths, by which most pairs are told apart.
ghost use Rattle.std.specs.Prelude.{◌≡◌, ◌⊎◌, Contains};
ghost use Rattle.cls_base.specs.Taxa.{Below};
ghost use Rattle.cls_path.specs.Paths.{TypePath, atom, none, more, listed};
ghost use Rattle.cls_path.specs.Labels.{one_span, join, plus, within, names_of, head_of, inner_of, all_names_of, sources_of, first_of, later_of, first_by, later_by, label_of, admits, is_single, narrowed, key_of, mask_from, heads_mask, whole_mask, mixed, digest_of, Fits};

use crate::alone::{are_all_alone, have_all_own};
use crate::path::{Form, Nf, Path};
use crate::stem::{depth, stem};
use cls_base::{Flat, Name, Taxa};

/// The numbers from the low to the high one, none if the low one is the greater.
#[derive(Clone, Copy, Debug, PartialEq, Eq)]
pub(crate) struct Span {
    low: u64,
    high: u64,
}

/// No number.
const NONE: Span = Span {
    low: u64::MAX,
    high: 0,
};

/// The number 0 alone.
const ZERO: Span = Span { low: 0, high: 0 };

/// Spans of the classes of names: of the head of a path, inside it, and of its first source. The last span has the sums
/// over the later sources, so that it tells apart paths that differ in one of them. A path without a source has 0 there.
#[derive(Clone, Copy, Debug, PartialEq, Eq)]
pub(crate) struct Label {
    head: Span,
    inner: Span,
    first: Span,
    later: Span,
}

/// What is true of all paths that are compared: how many names each has on the way to its end at least, whether no other name is
/// below any of these, whether each source is one name of that kind, and which spans of sources are one number each. Of two
/// such paths, one below the other, these spans are equal, and so are the classes of so many first names. Where no other name
/// is below them, names stand for their classes.
#[derive(Clone, Copy, Debug, PartialEq, Eq)]
pub(crate) struct Mask {
    depth: u64,
    alone: bool,
    own: bool,
    first: bool,
    later: bool,
}

/// Nothing, so that the heads alone count.
const HEADS: Mask = Mask {
    depth: 0,
    alone: false,
    own: false,
    first: false,
    later: false,
};

/// What no path has narrowed yet.
const WHOLE: Mask = Mask {
    depth: u64::MAX,
    alone: false,
    own: false,
    first: true,
    later: true,
};

/// The least numbers of the head of a label and of the spans of a mask, with 0 for each other one, and the first names of the
/// path by the mask, mixed into one number. Of two paths that are compared, one below the other, they are equal.
#[derive(Clone, Copy, Debug, PartialEq, Eq, Hash)]
pub(crate) struct GroupKey {
    head: u64,
    stem: u64,
    first: u64,
    later: u64,
}

/// Spreads small numbers over 64 bits.
const SPREAD: u64 = 0x9e37_79b9_7f4a_7c15;

impl Span {
    /// The number alone.
    fn one(number: u64) -> Span
        ensures { result ≡ one_span number }
    {
        Span {
            low: number,
            high: number,
        }
    }

    /// The numbers of both and those between.
    fn join(self, other: Span) -> Span
        ensures { result ≡ join self other }
    {
        Span {
            low: self.low.min(other.low),
            high: self.high.max(other.high),
        }
    }

    /// The sums of both low and of both high numbers, within 64 bits.
    fn plus(self, other: Span) -> Span
        ensures { result ≡ plus self other }
    {
        Span {
            low: self.low.saturating_add(other.low),
            high: self.high.saturating_add(other.high),
        }
    }

    /// Whether all numbers lie in the other span.
    fn is_within(self, other: Span) -> bool
        ensures { result ≡ within self other }
    {
        other.low <= self.low && self.high <= other.high
    }

    /// Whether it is one number.
    fn is_single(self) -> bool
        ensures { result ≡ is_single self }
    {
        self.low == self.high
    }
}

impl Mask {
    /// As much of the mask as is true of the path too. Its sources count by their names if these are `own`.
    fn narrowed<T: Taxa>(self, taxa: &T, path: &Path, own: bool) -> Mask
        ensures { result ≡ narrowed (first_by own (T.class taxa.now)) (later_by own (T.class taxa.now)) self path.now }
    {
        Mask {
            depth: self.depth.min(depth(path)),
            alone: self.alone,
            own: self.own,
            first: self.first && first_by(taxa, path, own).is_single(),
            later: self.later && later_by(taxa, path, own).is_single(),
        }
    }

    /// As much as is true of all paths. Which names are alone isn't looked at.
    fn shared<T: Taxa>(taxa: &T, paths: &[Path], own: bool) -> Mask
        ensures { result ≡ mask_from (first_by own (T.class taxa.now)) (later_by own (T.class taxa.now))
            whole_mask paths.now }
    {
        let mut mask = WHOLE;
        for path in paths {
            mask = mask.narrowed(taxa, path, own);
        }
        mask
    }

    /// The mask by which paths that it fits are grouped: itself in the last two rounds, before that the heads alone.
    pub fn in_round(self, rounds: u8) -> Mask
        ensures { (result ≡ self) ⊎ (result ≡ heads_mask) }
    {
        if rounds <= 2 { self } else { HEADS }
    }

    /// What is true of all paths.
    pub fn of<T: Taxa>(taxa: &T, paths: &[Path]) -> Mask
        ensures { (p : TypePath) → Contains paths.now p
            → Fits (Below (T.is_below taxa.now)) (T.class taxa.now) result p }
    {
        let alone = are_all_alone(taxa, paths);
        let own = have_all_own(taxa, paths);
        let mask = Mask::shared(taxa, paths, own);
        Mask {
            depth: mask.depth,
            alone,
            own,
            first: mask.first,
            later: mask.later,
        }
    }
}

impl Label {
    /// The label of the path.
    pub fn of<T: Taxa>(taxa: &T, path: &Path) -> Label
        ensures { result ≡ label_of (T.class taxa.now) path.now }
    {
        Label {
            head: head(taxa, path),
            inner: inner(taxa, path),
            first: first(taxa, path),
            later: later(taxa, path),
        }
    }

    /// Whether a path with this label may be below one with the other.
    pub fn admits(self, upper: Label) -> bool
        ensures { result ≡ admits self upper }
    {
        upper.head.is_within(self.head)
            && (upper.inner.is_within(self.inner)
                && (self.first.is_within(upper.first) && self.later.is_within(upper.later)))
    }
}

impl GroupKey {
    /// The key of the path. The names and spans that the mask leaves out aren't looked for.
    pub fn of<T: Taxa>(taxa: &T, path: &Path, mask: Mask) -> GroupKey
        ensures { result ≡ key_of (T.class taxa.now) mask path.now }
    {
        GroupKey {
            head: head(taxa, path).low,
            stem: stem(taxa, path, mask.alone, mask.depth, 0),
            first: if mask.first {
                first_by(taxa, path, mask.own).low
            } else {
                0
            },
            later: if mask.later {
                later_by(taxa, path, mask.own).low
            } else {
                0
            },
        }
    }

    /// A number that few other keys have.
    pub fn digest(self) -> u64
        ensures { result ≡ digest_of self }
    {
        mixed(mixed(mixed(self.head, self.stem), self.first), self.later)
    }
}

/// The first number spread over 64 bits, and the second added.
pub(crate) fn mixed(first: u64, second: u64) -> u64
    ensures { result ≡ mixed first second }
{
    first.wrapping_mul(SPREAD).wrapping_add(second)
}

/// The class of the name at the head of the path, or the greatest number for a product.
pub(crate) fn head_class<T: Taxa>(taxa: &T, path: &Path) -> u64
    ensures { result ≡ (head_of (T.class taxa.now) path.now).low }
{
    // Most paths are names over omega, and need no call.
    match &path.form {
        Form::Atom(name) => taxa.class(*name),
        _ => head(taxa, path).low,
    }
}

fn names<T: Taxa>(taxa: &T, path: &Path) -> Span
    ensures { result ≡ names_of (T.class taxa.now) path.now }
{
    match &path.form {
        Form::Atom(name) | Form::Sealed(name, _) => Span::one(taxa.class(*name)),
        Form::Over(name, inner) => {
            Span::one(taxa.class(*name)).join(Span::one(taxa.class(*inner)))
        }
        Form::Con(name, rest) => Span::one(taxa.class(*name)).join(names(taxa, rest)),
        Form::Unit => NONE,
        Form::Left(rest) | Form::Right(rest) | Form::From(_, rest) => names(taxa, rest),
        Form::Arrow(arrow) => names(taxa, &arrow.target),
    }
}

fn head<T: Taxa>(taxa: &T, path: &Path) -> Span
    ensures { result ≡ head_of (T.class taxa.now) path.now }
{
    match &path.form {
        Form::Atom(name) | Form::Over(name, _) | Form::Con(name, _) | Form::Sealed(name, _) => {
            Span::one(taxa.class(*name))
        }
        Form::Unit | Form::Left(_) | Form::Right(_) => NONE,
        Form::From(_, rest) => head(taxa, rest),
        Form::Arrow(arrow) => head(taxa, &arrow.target),
    }
}

fn inner<T: Taxa>(taxa: &T, path: &Path) -> Span
    ensures { result ≡ inner_of (T.class taxa.now) path.now }
{
    match &path.form {
        Form::Atom(_) | Form::Sealed(..) | Form::Unit => NONE,
        Form::Over(_, name) => Span::one(taxa.class(*name)),
        Form::From(_, rest) => inner(taxa, rest),
        Form::Con(_, rest) | Form::Left(rest) | Form::Right(rest) => names(taxa, rest),
        Form::Arrow(arrow) => inner(taxa, &arrow.target),
    }
}

/// The names of the list of one bare name.
fn bare_names<T: Taxa>(taxa: &T, name: Name) -> Span
    ensures { result ≡ all_names_of (T.class taxa.now) (more (atom name.0) none) }
{
    NONE.join(Span::one(taxa.class(name)))
}

fn all_names<T: Taxa>(taxa: &T, nf: &Nf) -> Span
    ensures { result ≡ all_names_of (T.class taxa.now) (listed nf.now) }
{
    let mut span = NONE;
    for path in nf.paths() {
        span = span.join(names(taxa, path));
    }
    span
}

fn sources<T: Taxa>(taxa: &T, path: &Path) -> Span
    ensures { result ≡ sources_of (T.class taxa.now) path.now }
{
    match &path.form {
        Form::From(name, rest) => bare_names(taxa, *name).plus(sources(taxa, rest)),
        Form::Arrow(arrow) => all_names(taxa, &arrow.source).plus(sources(taxa, &arrow.target)),
        _ => ZERO,
    }
}

fn first<T: Taxa>(taxa: &T, path: &Path) -> Span
    ensures { result ≡ first_of (T.class taxa.now) path.now }
{
    match &path.form {
        Form::From(name, _) => bare_names(taxa, *name),
        Form::Arrow(arrow) => all_names(taxa, &arrow.source),
        Form::Sealed(_, argument) => all_names(taxa, argument),
        _ => ZERO,
    }
}

fn later<T: Taxa>(taxa: &T, path: &Path) -> Span
    ensures { result ≡ later_of (T.class taxa.now) path.now }
{
    match &path.form {
        Form::From(_, rest) => sources(taxa, rest),
        Form::Arrow(arrow) => sources(taxa, &arrow.target),
        _ => ZERO,
    }
}

/// The span of the first source by its names if they are `own`, else by their classes.
fn first_by<T: Taxa>(taxa: &T, path: &Path, own: bool) -> Span
    ensures { result ≡ first_by own (T.class taxa.now) path.now }
{
    if own {
        first(&Flat, path)
    } else {
        first(taxa, path)
    }
}

/// The same for the sums over the later sources.
fn later_by<T: Taxa>(taxa: &T, path: &Path, own: bool) -> Span
    ensures { result ≡ later_by own (T.class taxa.now) path.now }
{
    if own {
        later(&Flat, path)
    } else {
        later(taxa, path)
    }
}
