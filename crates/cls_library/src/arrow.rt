//! Paths of a component, split at their leading arrows. An arrow shares its path with the component, so that each path is
//! stored once.
ghost use Rattle.std.specs.Prelude.{◌≡◌, ◌<◌, length, slice_get, Some};
ghost use Rattle.std.specs.Option.{option_map};
ghost use Rattle.cls_base.specs.Lists.{AreBelow};
ghost use Rattle.cls_path.specs.Seen.{paths_of_source};
ghost use Rattle.cls_library.specs.Splits.{arrows_at_places, source_at, split_at, target_at};

use crate::column::Column;
use cls_path::{ArrowSource, Form, Path};
use std::marker::Model;

/// A path that is split at its first arrows. It is seen as what these take and what is left of the path behind them.
#[derive(Drop)]
pub struct MultiArrow<'a> {
    path: &'a Path,
    count: usize,
}

impl<'a> Model for MultiArrow<'a> {
    ghost use Rattle.cls_library.specs.Arrows as definitions;
    ghost use Rattle.cls_library.specs.Splits.{split_at};
    ghost use Rattle.cls_library.specs.Stored.{coded_arrow};

    ghost Value = { definitions.MultiArrow };

    ghost coded = { coded_arrow };

    ghost view = { λ a. split_at a.count a.path.now };
}

impl<'a> MultiArrow<'a> {
    /// The path, split at its first `count` arrows.
    pub(crate) fn new(path: &'a Path, count: usize) -> MultiArrow<'a>
        ensures { result ≡ split_at count path.now }
    {
        MultiArrow { path, count }
    }

    /// What the arrow with this number takes, counted from 0. There is none if the number isn't below that of the sources.
    pub fn source(&self, i: usize) -> Option<ArrowSource<'a>>
        ensures { option_map paths_of_source result ≡ slice_get self.now.sources i }
    {
        if i < self.count {
            leading_source(target_of(self.path, i))
        } else {
            None
        }
    }

    /// What is left of the path behind these arrows.
    pub fn target(&self) -> &'a Path
        ensures { result.now ≡ self.now.target }
    {
        target_of(self.path, self.count)
    }
}

/// Arrows that take one number of arguments, seen as the list of them.
#[derive(Drop)]
pub struct Arrows<'a> {
    paths: &'a [Path],
    places: &'a Column,
    count: usize,
}

impl<'a> Model for Arrows<'a> {
    ghost use Rattle.std.specs.Prelude.{List, length};
    ghost use Rattle.std.specs.Coded.{coded_list};
    ghost use Rattle.cls_base.specs.Lists.{AreBelow};
    ghost use Rattle.cls_library.specs.Arrows as definitions;
    ghost use Rattle.cls_library.specs.Splits.{arrows_at_places};
    ghost use Rattle.cls_library.specs.Stored.{coded_arrow};

    ghost Value = { List definitions.MultiArrow };

    ghost coded = { coded_list coded_arrow };

    ghost view = { λ a. arrows_at_places a.count a.paths.now a.places.now };

    ghost invariant = { λ a. AreBelow (length a.paths.now) a.places.now };
}

impl<'a> Arrows<'a> {
    /// The paths at these places, each split at its first `count` arrows.
    pub(crate) fn new(paths: &'a [Path], places: &'a Column, count: usize) -> Arrows<'a>
        requires { AreBelow (length paths.now) places.now }
        ensures { result ≡ arrows_at_places count paths.now places.now }
    {
        Arrows {
            paths,
            places,
            count,
        }
    }

    /// The number of arrows.
    pub fn len(&self) -> usize
        ensures { result ≡ length self.now }
    {
        self.places.len()
    }

    /// The arrow at this position.
    pub fn get(&self, i: usize) -> MultiArrow<'a>
        requires { i < length self.now }
        ensures { slice_get self.now i ≡ Some result }
    {
        let place = self.places.get(i);
        MultiArrow::new(&self.paths[place], self.count)
    }
}

/// What is left of the path behind its first `count` arrows.
pub(crate) fn target_of(path: &Path, count: usize) -> &Path
    ensures { result.now ≡ target_at count path.now }
{
    if count == 0 {
        return path;
    }
    match path.form() {
        Form::From(_, target) => target_of(target, count - 1),
        Form::Arrow(arrow) => target_of(&arrow.target, count - 1),
        _ => path,
    }
}

/// What the first arrow of the path takes, if it begins with one.
fn leading_source(path: &Path) -> Option<ArrowSource<'_>>
    ensures { option_map paths_of_source result ≡ source_at 0 path.now }
{
    match path.form() {
        Form::From(name, _) => Some(ArrowSource::Name(*name)),
        Form::Arrow(arrow) => Some(ArrowSource::Paths(&arrow.source)),
        _ => None,
    }
}
