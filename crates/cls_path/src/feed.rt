//! What paths give to a hasher: one number for each kind with its name. The kind stands in the upper half.
ghost use Rattle.std.specs.Prelude.{◌≡◌, fold};
ghost use Rattle.cls_path.specs.Feed.{path_writes, list_writes};

use crate::path::{Form, Nf, Path};
use std::hash::Hasher;

const CON: u64 = 1 << 32;

const UNIT: u64 = 2 << 32;

const LEFT: u64 = 3 << 32;

const RIGHT: u64 = 4 << 32;

const ARROW: u64 = 5 << 32;

const SEALED: u64 = 6 << 32;

const END: u64 = 7 << 32;

impl Path {
    #[cycle(feed)]
    fn feed<H: Hasher>(&self, state: &mut H)
        ensures { state.new ≡ fold H.write state.old (path_writes self.now) }
    {
        match &self.form {
            Form::Atom(name) => state.write_u64(u64::from(name.0)),
            Form::Over(name, inner) => {
                state.write_u64(u64::from(name.0) + CON);
                state.write_u64(u64::from(inner.0));
            }
            Form::Con(name, rest) => {
                state.write_u64(u64::from(name.0) + CON);
                rest.feed(state);
            }
            Form::Unit => state.write_u64(UNIT),
            Form::Left(rest) => {
                state.write_u64(LEFT);
                rest.feed(state);
            }
            Form::Right(rest) => {
                state.write_u64(RIGHT);
                rest.feed(state);
            }
            Form::From(name, rest) => {
                state.write_u64(ARROW);
                state.write_u64(u64::from(name.0));
                state.write_u64(END);
                rest.feed(state);
            }
            Form::Arrow(arrow) => {
                state.write_u64(ARROW);
                arrow.source.feed(state);
                arrow.target.feed(state);
            }
            Form::Sealed(name, argument) => {
                state.write_u64(u64::from(name.0) + SEALED);
                argument.feed(state);
            }
        }
    }
}

impl Nf {
    #[cycle(feed)]
    pub(crate) fn feed<H: Hasher>(&self, state: &mut H)
        ensures { state.new ≡ fold H.write state.old (list_writes self.now) }
    {
        for path in self.paths.as_slice() {
            // Most paths are names over omega, and need no call.
            match &path.form {
                Form::Atom(name) => state.write_u64(u64::from(name.0)),
                _ => path.feed(state),
            }
        }
        state.write_u64(END);
    }
}
