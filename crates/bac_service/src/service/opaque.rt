//! Services without a production.

ghost use Rattle.std.specs.Prelude.{◌≡◌, ◌↔◌, IsTrue, IsErrOf, IsNone, IsSome, IfOk, OnOk, true};
ghost use Rattle.std.specs.Cmp.{partial_equiv_from_equiv};
ghost use Rattle.std.specs.Cmp.Lexicographic.{on_texts_equal};
ghost use Rattle.bac_tag.specs.Spelling.{AppendsLeast};
ghost use Rattle.bac_tag.specs.Octets.{Extends};
ghost use Rattle.bac_service.specs.Opaques.{opaque_key, same_opaque};
ghost use Rattle.bac_service.specs.ServiceTable.{production_of};
ghost use Rattle.bac_service.specs.Services.{opaque, SpellsSaid, IsPlaced};

use crate::kind::Kind;
use crate::service::has_production;
use bac_tag::OutOfMemory;
use std::alloc::{AllocError, Global};
use std::error::Error;
use std::fmt;
use std::fmt::Display;
use std::marker::Model;

/// Why no opaque service is made. `Typed` is reported first.
#[derive(Clone, Copy, Debug, PartialEq, Eq)]
pub enum OpaqueFault {
    /// The kind and the choice have a production, so the service is a typed one.
    Typed = 1,
    /// Memory was refused.
    OutOfMemory,
}

impl Display for OpaqueFault {
    fn fmt<W: fmt::Write>(&self, formatter: &mut fmt::Formatter<W>) -> fmt::Result {
        formatter.write_str(match self {
            OpaqueFault::Typed => "the kind and the service choice have a production",
            OpaqueFault::OutOfMemory => "out of memory",
        })
    }
}

impl Error for OpaqueFault {}

/// A service of a kind and a choice without a production. It consists of its octets: any octets, in any number.
#[derive(Debug)]
pub struct Opaque {
    kind: Kind,
    choice: u8,
    octets: Vec<u8>,
}

impl Drop for Opaque {
    // Written here, so that how a service is freed is proved once and not wherever one is dropped.
    #[inline(always)]
    fn drop(self) {
        let Opaque {
            kind: _,
            choice: _,
            octets: _,
        } = self;
    }
}

impl Model for Opaque {
    ghost use Rattle.std.specs.Prelude.{IsNone, true};
    ghost use Rattle.bac_service.specs.Opaques.{OpaqueValue, opaque_code};
    ghost use Rattle.bac_service.specs.ServiceTable.{production_of};

    ghost Value = { OpaqueValue };

    ghost coded = { opaque_code };

    ghost view = { λ service. record { kind = service.kind; choice = service.choice; octets = service.octets.items } };

    ghost invariant = { λ service. IsNone (production_of true service.kind service.choice) };
}

/// Two opaque services are equal exactly where their kinds, their service choices and their octets are equal.
impl PartialEq for Opaque {
    ghost eq = { same_opaque };

    ghost laws = { partial_equiv_from_equiv (on_texts_equal opaque_key) };

    fn eq(&self, other: &Opaque) -> bool
        ensures answer { result ≡ same_opaque self.now other.now }
        ensures same { IsTrue result ↔ (self.now ≡ other.now) }
    {
        let is_of_one_choice = self.kind == other.kind && self.choice == other.choice;
        is_of_one_choice && self.octets == other.octets
    }
}

impl Eq for Opaque {
    ghost laws = { on_texts_equal opaque_key };
}

/// A copy is the same service.
impl Clone for Opaque {
    ghost is_clone = { λ service copy. copy ≡ service };

    /// # Errors
    /// `AllocError` if memory is refused.
    fn clone(&self) -> Result<Opaque, AllocError> {
        let alloc = *self.octets.allocator();
        let octets = Vec::from_slice(alloc, &self.octets)?;
        Ok(Opaque {
            kind: self.kind,
            choice: self.choice,
            octets,
        })
    }
}

impl Opaque {
    /// Returns the service of this kind and choice with a copy of these octets, which may be any.
    ///
    /// # Errors
    /// `Typed` if the kind and the choice have a production. Otherwise `OutOfMemory` if memory is refused.
    pub fn new(alloc: Global, kind: Kind, choice: u8, octets: &[u8]) -> Result<Opaque, OpaqueFault>
        ensures value { IfOk result (λ service. service ≡ record { kind = kind; choice = choice; octets = octets.now }) }
        ensures typed { IsErrOf result OpaqueFault.Typed ↔ IsSome (production_of true kind choice) }
    {
        if has_production(kind, choice) {
            return Err(OpaqueFault::Typed);
        }
        let Ok(octets) = Vec::from_slice(alloc, octets) else {
            return Err(OpaqueFault::OutOfMemory);
        };
        Ok(Opaque {
            kind,
            choice,
            octets,
        })
    }

    /// Returns the kind of APDU that carries the service.
    pub fn kind(&self) -> Kind
        ensures { result ≡ self.now.kind }
    {
        self.kind
    }

    /// Returns the service choice.
    pub fn choice(&self) -> u8
        ensures { result ≡ self.now.choice }
    {
        self.choice
    }

    /// Returns the octets of the service, in their order.
    pub fn octets(&self) -> &[u8]
        ensures octets { result.now ≡ self.now.octets }
        ensures untyped { IsNone (production_of true self.now.kind self.now.choice) }
    {
        self.octets.as_slice()
    }

    /// Appends its octets. If memory is refused, nothing is appended.
    pub(crate) fn write_octets(&self, out: &mut Vec<u8>) -> Result<(), OutOfMemory>
        ensures placed { IsPlaced (opaque self.now.kind self.now.choice self.now.octets) }
        ensures ok { OnOk result (AppendsLeast (SpellsSaid 32 None self.now.octets) out.old.items out.new.items) }
        ensures kept { Extends out.old.items out.new.items }
    {
        // The clause of `choice` says that it is below 256.
        let _choice = self.choice();
        let octets = self.octets();
        out.extend_from_slice(octets)?;
        Ok(())
    }
}
