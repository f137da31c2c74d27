//! The examples of the doc comments of bac_tag, bac_numbers, bac_value and bac_data, with the same lines.

use bac_data::{AnyBuilder, Event, read_any, write_any};
use bac_numbers::{mark_number, read_number, write_number};
use bac_tag::{Refusal, TagHead, Why, head_len, read_head, write_head};
use bac_value::{Boolean, Prim, PrimRef, Primitive, RealBits, Text, Unsigned};
use std::test::Fail;

// Of `bac_tag::read_head`.
#[test]
fn a_head_is_read(rt: HostRuntime) -> Result<(), Fail> {
    // Context class, number 1: one octet of contents follows.
    let (head, taken) = read_head(&[0x19, 0x55])?;
    assert_eq!(rt; head, TagHead::Ctx { number: 1, len: 1 });
    assert_eq!(rt; taken, 1);
    // A tolerated spelling of the same head has the number in an octet of its own.
    assert_eq!(rt; read_head(&[0xF9, 0x01, 0x55]), Ok((head, 2)));
    Ok(())
}

// Of `bac_tag::Refusal`.
#[test]
fn a_refusal_has_a_place_and_a_reason(rt: HostRuntime) -> Result<(), Fail> {
    // The first octet says that a length octet follows, and the input ends.
    let refusal = Refusal {
        place: 1,
        why: Why::Short,
    };
    assert_eq!(rt; read_head(&[0x1D]), Err(refusal));
    assert_eq!(rt; format!(in rt.alloc(); "{refusal}")?.as_str(), "Short at 1");
    Ok(())
}

// Of `bac_tag::write_head`.
#[test]
fn a_head_is_written(rt: HostRuntime) {
    let head = TagHead::Ctx {
        number: 15,
        len: 300,
    };
    assert!(rt; head.is_valid());
    let octets = [0xFD, 0x0F, 0xFE, 0x01, 0x2C];
    assert_eq!(rt; write_head(head).as_slice(), octets.as_slice());
    assert_eq!(rt; head_len(head), 5);
}

// Of the page of bac_numbers.
#[test]
fn numbers_are_read_and_written(rt: HostRuntime) -> Result<(), Fail> {
    // An instance is at most 4,194,303. No contents of three octets begin with 40.
    let found = read_number(&[0x3F, 0xFF, 0xFF], 0, 4_194_303);
    assert_eq!(rt; found, Ok(4_194_303));
    let refused = read_number(&[0x40, 0x00, 0x00], 0, 4_194_303);
    assert_eq!(rt; refused, Err(Why::Content.at(0)));
    // The contents 0055 are a tolerated spelling of 85, since one octet is enough.
    assert_eq!(rt; mark_number(&[0x00, 0x55]), Some(0));
    let mut out = Vec::new(rt.alloc());
    write_number(85, &mut out)?;
    let written = [0x55];
    assert_eq!(rt; out.as_slice(), written.as_slice());
    Ok(())
}

// Of the page of bac_value.
#[test]
fn values_are_read_and_written(rt: HostRuntime) -> Result<(), Fail> {
    // The contents 0055 are a tolerated spelling of 85, since one octet is enough.
    let value = Unsigned::read(rt.alloc(), &[0x00, 0x55])?;
    assert_eq!(rt; value, Unsigned(85));
    assert_eq!(rt; value.mark(&[0x00, 0x55]), Some(0));
    // What is written is canonical, and comes after what was there.
    let mut out = Vec::new(rt.alloc());
    value.write(&mut out)?;
    let name = Text::new(rt.alloc(), 0, b"AI")?;
    name.write(&mut out)?;
    let written = [0x55, 0x00, 0x41, 0x49];
    assert_eq!(rt; out.as_slice(), written.as_slice());
    assert_eq!(rt; name.as_utf8(), Some("AI"));
    // A Real has four octets.
    let refused = RealBits::read(rt.alloc(), &[0x42, 0x90]);
    assert_eq!(rt; refused, Err(Why::Length.at(0)));
    // The same is done by the number of an application tag, here that of a Boolean.
    let prim = Prim::read(rt.alloc(), 1, &[0x01])?;
    assert_eq!(rt; prim.as_prim_ref(), PrimRef::Boolean(Boolean(true)));
    Ok(())
}

// Of `bac_data::read_any`.
#[test]
fn an_open_value_is_read(rt: HostRuntime) -> Result<(), Fail> {
    // The Unsigned 5 between tags of number 3. The octet behind them is not taken.
    let (value, taken) = read_any(rt.alloc(), &[0x3E, 0x21, 0x05, 0x3F, 0x49], 3)?;
    assert_eq!(rt; taken, 4);
    for event in &value {
        assert_eq!(rt; event, Event::App(PrimRef::Unsigned(Unsigned(5))));
    }
    // A closing tag of another number is refused.
    let refused = read_any(rt.alloc(), &[0x3E, 0x4F], 3);
    assert_eq!(rt; refused.err(), Some(Why::Tag.at(1)));
    Ok(())
}

// Of `bac_data::Any::events`.
#[test]
fn an_open_value_is_walked(rt: HostRuntime) -> Result<(), Fail> {
    // A group of number 2 with one context primitive, between tags of number 3.
    let octets = [0x3E, 0x2E, 0x19, 0x55, 0x2F, 0x3F];
    let (value, _) = read_any(rt.alloc(), &octets, 3)?;
    let mut events = value.events();
    assert_eq!(rt; events.next(), Some(Event::Open(2)));
    assert_eq!(rt; events.next(), Some(Event::Ctx(1, &[0x55])));
    assert_eq!(rt; events.next(), Some(Event::Close(2)));
    assert_eq!(rt; events.next(), None);
    Ok(())
}

// Of `bac_data::Any::event`.
#[test]
fn an_event_is_found_by_its_index(rt: HostRuntime) -> Result<(), Fail> {
    let (value, _) = read_any(rt.alloc(), &[0x3E, 0x2E, 0x19, 0x55, 0x2F, 0x3F], 3)?;
    assert_eq!(rt; value.event(1), Some(Event::Ctx(1, &[0x55])));
    assert_eq!(rt; value.event(3), None);
    Ok(())
}

// Of `bac_data::Events::skip_group`.
#[test]
fn a_group_is_passed_over(rt: HostRuntime) -> Result<(), Fail> {
    // A group of number 2, and a context primitive after it.
    let octets = [0x3E, 0x2E, 0x19, 0x55, 0x2F, 0x19, 0x66, 0x3F];
    let (value, _) = read_any(rt.alloc(), &octets, 3)?;
    let mut events = value.events();
    assert_eq!(rt; events.skip_group(), Some(2));
    assert_eq!(rt; events.skip_group(), None);
    assert_eq!(rt; events.next(), Some(Event::Ctx(1, &[0x66])));
    Ok(())
}

// Of `bac_data::AnyBuilder`.
#[test]
fn an_open_value_is_built(rt: HostRuntime) -> Result<(), Fail> {
    let mut builder = AnyBuilder::new(rt.alloc())?;
    builder.open(2)?;
    builder.push(Prim::Unsigned(Unsigned(5)))?;
    builder.push_ctx(1, &[0x55])?;
    builder.close()?;
    let value = builder.finish()?;
    assert_eq!(rt; value.count(), 4);
    Ok(())
}

// Of `bac_data::write_any`.
#[test]
fn an_open_value_is_written(rt: HostRuntime) -> Result<(), Fail> {
    // The Unsigned 5 in two octets, which are more than it needs.
    let (value, _) = read_any(rt.alloc(), &[0x3E, 0x22, 0x00, 0x05, 0x3F], 3)?;
    let mut out = Vec::new(rt.alloc());
    write_any(&value, 3, &mut out)?;
    let canonical = [0x3E, 0x21, 0x05, 0x3F];
    assert_eq!(rt; out.as_slice(), canonical.as_slice());
    Ok(())
}
