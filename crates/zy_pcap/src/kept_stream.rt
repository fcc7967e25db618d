//! The bytes of a session.
ghost use Rattle.std.specs.Prelude.{◌≡◌, ℕ, ◌+◌, ◌≤◌, ◌^◌, None, length, OnOk, OnErr};
ghost use Rattle.zy_pcap.specs.Session.{longest};
ghost use Rattle.zy_pcap.specs.Held.{byte_held, covered, HoldsSame, HoldsBoth};

use crate::held::HeldBytes;
use std::alloc::Global;
use std::marker::Model;
use zy_base::NoMemory;

/// The bytes of a session, whose row has all bytes up to the first one that is missing.
#[derive(Drop)]
pub(crate) struct KeptStream {
    held: HeldBytes,
}

impl Model for KeptStream {
    ghost use Rattle.zy_pcap.specs.Held.{HeldParts, parts, IsWhole};

    ghost Value = { HeldParts };

    ghost view = { λ s. parts s.held };

    ghost invariant = { λ s. IsWhole s.held };
}

impl KeptStream {
    // Begins without bytes. Takes no memory.
    pub(crate) fn new(alloc: Global) -> KeptStream
        ensures none { (at : ℕ) → byte_held result at ≡ None }
    {
        KeptStream {
            held: HeldBytes::new(alloc),
        }
    }

    // Adds bytes from an offset on; those that were kept before stay. If allocation fails, nothing
    // changes.
    pub(crate) fn add(&mut self, from: u32, bytes: &[u8]) -> Result<(), NoMemory>
        requires within { from + length bytes.now ≤ 2 ^ 31 }
        ensures ok { OnOk result (HoldsBoth (byte_held self.old) (byte_held self.new)
            (covered bytes.now from)) }
        ensures err { OnErr result (HoldsSame (byte_held self.old) (byte_held self.new)) }
    {
        self.held.add(from, bytes)
    }

    // Returns the stream.
    pub(crate) fn stream(&self) -> &[u8]
        ensures value { result.now ≡ longest (byte_held self.now) }
    {
        self.held.stream()
    }
}
