//! Lists of paths, of which one of one path takes no memory of its own.
ghost use Rattle.std.specs.Prelude.{◌≡◌, ◌≤◌, [], length, insert, IfOk};
ghost use Rattle.cls_path.specs.Seen.{items_of};

use crate::path::{Path, PathList};
use cls_base::OutOfMemory;
use std::alloc::Global;
use std::slice;

impl PathList {
    /// The list of no paths. Takes no memory.
    pub(crate) fn empty(alloc: Global) -> PathList
        ensures { items_of result ≡ [] }
    {
        PathList::Several(Vec::new(alloc))
    }

    /// The list of the paths. It keeps the memory of the vector unless it holds one path.
    pub(crate) fn of(mut paths: Vec<Path>) -> PathList
        ensures { items_of result ≡ paths.items }
    {
        if paths.len() != 1 {
            return PathList::Several(paths);
        }
        match paths.pop() {
            Some(path) => PathList::One(path, *paths.allocator()),
            None => PathList::Several(paths),
        }
    }

    /// The paths with this one put in at the index. The only error is out of memory.
    pub(crate) fn inserted(
        mut paths: Vec<Path>,
        at: usize,
        path: Path,
    ) -> Result<PathList, OutOfMemory>
        requires { at ≤ length paths.items }
        ensures { IfOk result (λ list. items_of list ≡ insert paths.items at path) }
    {
        if paths.is_empty() {
            return Ok(PathList::One(path, *paths.allocator()));
        }
        paths.insert(at, path)?;
        Ok(PathList::Several(paths))
    }

    /// The paths in order.
    pub(crate) fn as_slice(&self) -> &[Path]
        ensures { result.now ≡ items_of self.now }
    {
        match self {
            PathList::One(path, _) => slice::from_ref(path),
            PathList::Several(paths) => paths.as_slice(),
        }
    }

    /// The paths in order, as a vector. The only error is out of memory, and only where there is one path.
    pub(crate) fn into_vec(self) -> Result<Vec<Path>, OutOfMemory>
        ensures { IfOk result (λ paths. paths.items ≡ items_of self) }
    {
        match self {
            PathList::One(path, alloc) => {
                // Room for the second path that mostly comes next.
                let mut paths = Vec::with_capacity(alloc, 2)?;
                paths.push(path)?;
                Ok(paths)
            }
            PathList::Several(paths) => Ok(paths),
        }
    }
}
