//! Writing: all of a text, and replies together.
ghost use Rattle.std.specs.Prelude.{◌≡◌, [], ◌++◌, length, OnOk, OnErr, if◌then◌else◌};
ghost use Rattle.cls_base.specs.Outside.{HasRisen, Holds};
ghost use Rattle.cls_session.specs.Driving.{Writes, WritesFront, WritesAllBut};

use cls_base::{Failed, Sink};
use std::alloc::Global;
use std::marker::Model;

/// The most bytes of replies that are pending at once, 64 KiB.
const MAX_PENDING_BYTES: usize = 65_536;

/// Writes the text, all of it.
pub fn write_all<K: Sink>(sink: &mut K, text: &[u8]) -> Result<(), Failed>
    requires { Holds (K.seen sink.old).room (length text.now) }
    ensures written { OnOk result (Writes (K.seen sink.old) (K.seen sink.new) text.now) }
    ensures no_fault { OnOk result ((K.seen sink.new).faults ≡ (K.seen sink.old).faults) }

    ensures front { OnErr result (WritesFront (K.seen sink.old) (K.seen sink.new) text.now) }
    ensures fault { OnErr result (HasRisen (K.seen sink.old).faults (K.seen sink.new).faults) }
{
    let mut rest = text;
    while !rest.is_empty() {
        let count = sink.write(rest)?;
        rest = rest.split_at(count).1;
    }
    Ok(())
}

/// Pending replies: those that wait to be written together. They are seen as their bytes.
#[derive(Drop)]
pub struct PendingReplies {
    text: String,
}

impl Model for PendingReplies {
    ghost use Rattle.std.specs.Prelude.{ℕ, ◌≤◌, List, string_bytes, string_len};
    ghost use Rattle.cls_session.specs.declared.output.TheConstants.{MAX_PENDING_BYTES};

    ghost Value = { List ℕ };

    ghost view = { λ p. string_bytes p.text };

    ghost invariant = { λ p. string_len p.text ≤ MAX_PENDING_BYTES };
}

impl PendingReplies {
    /// No reply is pending. It takes no memory.
    pub fn new(alloc: Global) -> PendingReplies
        ensures { result ≡ [] }
    {
        PendingReplies {
            text: String::new(alloc),
        }
    }

    /// Puts the reply behind those that are pending. If there is no room or no memory for it, they are written now, and
    /// it after them. The only error is a failed write, after which what is pending is of no use.
    pub fn put<K: Sink>(&mut self, reply: &str, sink: &mut K) -> Result<(), Failed>
        requires { Holds (K.seen sink.old).room (length (self.old ++ reply.now)) }
        ensures written { OnOk result
            (WritesAllBut (K.seen sink.old) (K.seen sink.new) (self.old ++ reply.now) self.new) }
        ensures no_fault { OnOk result ((K.seen sink.new).faults ≡ (K.seen sink.old).faults) }

        ensures front { OnErr result (WritesFront (K.seen sink.old) (K.seen sink.new) (self.old ++ reply.now)) }
        ensures fault { OnErr result (HasRisen (K.seen sink.old).faults (K.seen sink.new).faults) }
    {
        if self.hold(reply) {
            return Ok(());
        }
        self.write(sink)?;
        write_all(sink, reply.as_bytes())?;
        Ok(())
    }

    /// Holds the reply back behind the others, and says whether there was room and memory for it.
    fn hold(&mut self, reply: &str) -> bool
        ensures { self.new ≡ (if result then self.old ++ reply.now else self.old) }
    {
        reply.len() <= MAX_PENDING_BYTES - self.text.len() && self.text.push_str(reply).is_ok()
    }

    /// Writes all replies that are pending. The only error is a failed write, after which they are of no use.
    pub fn write<K: Sink>(&mut self, sink: &mut K) -> Result<(), Failed>
        requires { Holds (K.seen sink.old).room (length self.old) }
        ensures written { OnOk result (Writes (K.seen sink.old) (K.seen sink.new) self.old) }
        ensures none_pending { OnOk result (self.new ≡ []) }
        ensures no_fault { OnOk result ((K.seen sink.new).faults ≡ (K.seen sink.old).faults) }

        ensures front { OnErr result (WritesFront (K.seen sink.old) (K.seen sink.new) self.old) }
        ensures fault { OnErr result (HasRisen (K.seen sink.old).faults (K.seen sink.new).faults) }
    {
        write_all(sink, self.text.as_bytes())?;
        self.text.clear();
        Ok(())
    }
}
