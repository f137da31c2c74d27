//! Values made again of their own parts, by their constructors, and open values by a builder.

use bac_data::{Any, AnyBuilder, Event};
use bac_value::{Bits, Octets, Prim, PrimRef, Primitive, Text};
use std::alloc::Global;

/// Returns the value with a copy of what is borrowed, made by its constructor. None if that makes none.
pub fn owned(alloc: Global, value: &PrimRef<'_>) -> Option<Prim> {
    Some(match value {
        PrimRef::Null(value) => Prim::Null(*value),
        PrimRef::Boolean(value) => Prim::Boolean(*value),
        PrimRef::Unsigned(value) => Prim::Unsigned(*value),
        PrimRef::Signed(value) => Prim::Signed(*value),
        PrimRef::RealBits(value) => Prim::RealBits(*value),
        PrimRef::DoubleBits(value) => Prim::DoubleBits(*value),
        PrimRef::Octets(octets) => Prim::Octets(Octets::new(alloc, octets).ok()?),
        PrimRef::Text { set, octets } => Prim::Text(Text::new(alloc, *set, octets).ok()?),
        PrimRef::Bits { count, packed } => {
            let bits = bits_of(alloc, *count, packed)?;
            Prim::Bits(Bits::new(alloc, &bits).ok()?)
        }
        PrimRef::Enumerated(value) => Prim::Enumerated(*value),
        PrimRef::Date(value) => Prim::Date(*value),
        PrimRef::Time(value) => Prim::Time(*value),
        PrimRef::ObjectId(value) => Prim::ObjectId(*value),
    })
}

/// Returns the first so many bits of octets, eight of each, from the highest downwards. None if memory is refused.
fn bits_of(alloc: Global, count: usize, packed: &[u8]) -> Option<Vec<bool>> {
    let mut bits = Vec::with_capacity(alloc, count).ok()?;
    for octet in packed {
        for mask in [0x80, 0x40, 0x20, 0x10, 8, 4, 2, 1] {
            if bits.len() < count {
                bits.push(octet & mask != 0).ok()?;
            }
        }
    }
    Some(bits)
}

/// Returns true if a builder takes the events of the value, and after them a group of a context primitive and of an octet
/// string with these octets, or with the first of them.
pub fn is_built(alloc: Global, value: &Any, octets: &[u8]) -> bool {
    let contents = octets.get(..Octets::LONGEST).unwrap_or(octets);
    match built(alloc, value, contents) {
        Some(longer) => longer.count() == value.count().saturating_add(4),
        None => false,
    }
}

/// Returns the value that a builder makes of the events of a value and of a group. None if it does not take one of them.
fn built(alloc: Global, value: &Any, contents: &[u8]) -> Option<Any> {
    let mut builder = AnyBuilder::new(alloc).ok()?;
    for event in value.events() {
        push(alloc, &mut builder, &event)?;
    }
    builder.open(254).ok()?;
    builder.push_ctx(0, contents).ok()?;
    builder
        .push(owned(alloc, &PrimRef::Octets(contents))?)
        .ok()?;
    builder.close().ok()?;
    builder.finish().ok()
}

/// Adds an event to a builder. None if it does not take it.
fn push(alloc: Global, builder: &mut AnyBuilder, event: &Event<'_>) -> Option<()> {
    match event {
        Event::App(value) => builder.push(owned(alloc, value)?).ok(),
        Event::Ctx(number, octets) => builder.push_ctx(*number, octets).ok(),
        Event::Open(number) => builder.open(*number).ok(),
        Event::Close(_) => builder.close().ok(),
    }
}
