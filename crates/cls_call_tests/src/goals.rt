//! Libraries and goals from texts.
ghost use Rattle.std.specs.Prelude.{◌<◌, ◌^◌, length, IfOk};
ghost use Rattle.cls_expand.specs.Answers.{IsReady};

use cls_lexer::{Line, Names};
use cls_library::Library;
use cls_norm::{fit, normal};
use cls_path::Nf;
use cls_repo::Repository;
use cls_syntax::read_type;
use std::alloc::Global;
use std::test::Fail;

/// What the lines of the text declare.
pub fn declared(alloc: Global, text: &str) -> Result<Repository, Fail> {
    let mut lines = Vec::new(alloc);
    for line in text.lines() {
        lines.push(Line::new(line.as_bytes()))?;
    }
    if lines.len() > 100 {
        return Err("too many lines".into());
    }
    Ok(Repository::read(alloc, &lines)?)
}

/// The goal that the text spells.
pub fn goal(alloc: Global, library: &Library, names: &mut Names, text: &str) -> Result<Nf, Fail>
    requires { length text.now < 2 ^ 32 }
    ensures { IfOk result (IsReady library.now) }
{
    // For the prover: what holds of each library.
    let _count = library.count();
    let ty = read_type(alloc, names, text)?;
    let goal = normal(alloc, library.taxonomy(), &ty)?;
    if !fit(alloc, &goal)? {
        return Err("not fit".into());
    }
    Ok(goal)
}
