//! The layers of the library: for each one its calls that read, mark and append.

use bac_apdu::{Apdu, append_apdu, decode_apdu, decode_apdu_marked};
use bac_data::{Any, read_any, read_any_marked, write_any};
use bac_npdu::{Frame, append_frame, decode_frame, decode_marked};
use bac_service::{Kind, Service, append_service, decode_service, decode_service_marked};
use bac_tag::{OutOfMemory, Refusal};
use bac_value::Primitive;
use std::alloc::Global;
use std::marker::PhantomData;

/// The calls of a layer.
pub trait Layer: Drop {
    /// What octets spell.
    type Value: Drop;

    /// What is kept of a value that was marked, until the next one is marked: nothing for contents and open values.
    type Kept: Drop;

    /// Reads a value.
    fn read(&self, alloc: Global, octets: &[u8]) -> Result<Self::Value, Refusal>;

    /// Reads a value. Returns what is kept of it, with the place of the first octet that is not canonical, or None.
    fn mark(&self, alloc: Global, octets: &[u8]) -> Result<(Self::Kept, Option<usize>), Refusal>;

    /// Appends the octets of a value.
    fn append(&self, value: &Self::Value, out: &mut Vec<u8>) -> Result<(), OutOfMemory>;
}

/// The contents of primitive values of a type.
#[derive(Drop)]
pub struct Contents<P> {
    pub of: PhantomData<P>,
}

impl<P: Primitive> Layer for Contents<P> {
    type Value = P;

    type Kept = ();

    fn read(&self, alloc: Global, octets: &[u8]) -> Result<P, Refusal> {
        P::read(alloc, octets)
    }

    fn mark(&self, alloc: Global, octets: &[u8]) -> Result<((), Option<usize>), Refusal> {
        let value = P::read(alloc, octets)?;
        Ok(((), value.mark(octets)))
    }

    fn append(&self, value: &P, out: &mut Vec<u8>) -> Result<(), OutOfMemory> {
        value.write(out)
    }
}

/// The number of the tags around an open value.
const ENCLOSING: u8 = 3;

/// Open values, with their tags.
#[derive(Drop)]
pub struct OpenValues;

impl Layer for OpenValues {
    type Value = Any;

    type Kept = ();

    fn read(&self, alloc: Global, octets: &[u8]) -> Result<Any, Refusal> {
        let (value, _) = read_any(alloc, octets, ENCLOSING)?;
        Ok(value)
    }

    fn mark(&self, alloc: Global, octets: &[u8]) -> Result<((), Option<usize>), Refusal> {
        let (_, _, mark) = read_any_marked(alloc, octets, ENCLOSING)?;
        Ok(((), mark))
    }

    fn append(&self, value: &Any, out: &mut Vec<u8>) -> Result<(), OutOfMemory> {
        write_any(value, ENCLOSING, out)
    }
}

/// Services of one kind, with one choice.
#[derive(Drop)]
pub struct Services {
    pub kind: Kind,
    pub choice: u8,
}

impl Layer for Services {
    type Value = Service;

    type Kept = Service;

    fn read(&self, alloc: Global, octets: &[u8]) -> Result<Service, Refusal> {
        decode_service(alloc, self.kind, self.choice, octets)
    }

    fn mark(&self, alloc: Global, octets: &[u8]) -> Result<(Service, Option<usize>), Refusal> {
        decode_service_marked(alloc, self.kind, self.choice, octets)
    }

    fn append(&self, service: &Service, out: &mut Vec<u8>) -> Result<(), OutOfMemory> {
        append_service(service, out)
    }
}

/// APDUs.
#[derive(Drop)]
pub struct Apdus;

impl Layer for Apdus {
    type Value = Apdu;

    type Kept = Apdu;

    fn read(&self, alloc: Global, octets: &[u8]) -> Result<Apdu, Refusal> {
        decode_apdu(alloc, octets)
    }

    fn mark(&self, alloc: Global, octets: &[u8]) -> Result<(Apdu, Option<usize>), Refusal> {
        decode_apdu_marked(alloc, octets)
    }

    fn append(&self, apdu: &Apdu, out: &mut Vec<u8>) -> Result<(), OutOfMemory> {
        append_apdu(apdu, out)
    }
}

/// Frames.
#[derive(Drop)]
pub struct Frames;

impl Layer for Frames {
    type Value = Frame;

    type Kept = Frame;

    fn read(&self, alloc: Global, octets: &[u8]) -> Result<Frame, Refusal> {
        decode_frame(alloc, octets)
    }

    fn mark(&self, alloc: Global, octets: &[u8]) -> Result<(Frame, Option<usize>), Refusal> {
        decode_marked(alloc, octets)
    }

    fn append(&self, frame: &Frame, out: &mut Vec<u8>) -> Result<(), OutOfMemory> {
        append_frame(frame, out)
    }
}
