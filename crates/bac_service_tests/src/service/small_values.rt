//! Values that are compared and printed whole.

use super::object;
use crate::expectations::{assert_holds, assert_same, assert_shown};
use bac_service::{
    ErrorCause, IAm, Kind, OpaqueFault, PropertyReference, ReadProperty, ServiceError,
    SubscribeCov, WhoIs,
};
use bac_value::Instance;
use std::alloc::Global;
use std::fmt::Debug;
use std::process::Abort;

/// By the bounds alone: the value is itself and not the other, and is printed so.
fn is_shown<T: Copy + Debug + PartialEq>(
    rt: &impl Abort,
    alloc: Global,
    value: T,
    other: T,
    text: &str,
) {
    assert_holds(rt, value == value, text);
    assert_holds(rt, value != other, text);
    let shown = match format!(in alloc; "{value:?}") {
        Ok(shown) => shown,
        Err(_) => format!(in alloc; "{value:?}").expect(rt, "memory"),
    };
    assert_same(rt, shown.as_str(), text);
}

#[test]
fn kinds_and_faults_have_their_names(rt: HostRuntime) {
    let alloc = rt.alloc();
    let (confirmed, unconfirmed) = (Kind::Confirmed, Kind::Unconfirmed);
    let (ack, error) = (Kind::ComplexAck, Kind::Error);
    is_shown(&rt, alloc, confirmed, error, "Confirmed");
    is_shown(&rt, alloc, unconfirmed, confirmed, "Unconfirmed");
    is_shown(&rt, alloc, ack, unconfirmed, "ComplexAck");
    is_shown(&rt, alloc, error, ack, "Error");
    let (typed, memory) = (OpaqueFault::Typed, OpaqueFault::OutOfMemory);
    is_shown(&rt, alloc, typed, memory, "Typed");
    is_shown(&rt, alloc, memory, typed, "OutOfMemory");
}

#[test]
fn references_and_errors_have_their_parts(rt: HostRuntime) {
    let alloc = rt.alloc();
    let property = 85;
    let whole = PropertyReference {
        property,
        index: None,
    };
    let element = PropertyReference {
        property,
        index: Some(0),
    };
    let text = "PropertyReference { property: 85, index: None }";
    is_shown(&rt, alloc, whole, element, text);
    let (class, code) = (2, 32);
    let cause = ErrorCause { class, code };
    let turned = ErrorCause {
        class: code,
        code: class,
    };
    let text = "ErrorCause { class: 2, code: 32 }";
    is_shown(&rt, alloc, cause, turned, text);
    let error = ServiceError::new(12, 2, 32).expect(&rt, "a typed service");
    let other = ServiceError::new(14, 2, 32).expect(&rt, "a typed service");
    let text = "ServiceError { choice: 12, cause: ErrorCause { class: 2, code: 32 } }";
    is_shown(&rt, alloc, error, other, text);
}

#[test]
fn questions_have_their_fields(rt: HostRuntime) {
    let alloc = rt.alloc();
    let (object, property) = (object(&rt, 0, 5), 85);
    let whole = ReadProperty {
        object,
        property,
        index: None,
    };
    let element = ReadProperty {
        object,
        property,
        index: Some(1),
    };
    let text =
        "ReadProperty { object: ObjectId { kind: 0, instance: 5 }, property: 85, index: None }";
    is_shown(&rt, alloc, whole, element, text);
    let limited = WhoIs {
        limits: Instance::new(1).zip(Instance::new(0)),
    };
    let all = WhoIs { limits: None };
    is_shown(&rt, alloc, all, limited, "WhoIs { limits: None }");
}

#[test]
fn a_subscription_has_its_fields(rt: HostRuntime) {
    let (process, object) = (18, object(&rt, 0, 5));
    let end = SubscribeCov {
        process,
        object,
        confirmed: None,
        lifetime: None,
    };
    let endless = SubscribeCov {
        process,
        object,
        confirmed: Some(true),
        lifetime: Some(0),
    };
    let text =
        "SubscribeCov { process: 18, object: ObjectId { kind: 0, instance: 5 }, confirmed: None, lifetime: None }";
    is_shown(&rt, rt.alloc(), end, endless, text);
}

#[test]
fn a_device_has_its_fields(rt: HostRuntime) {
    let object = object(&rt, 8, 1);
    let (apdu, segmentation) = (480, 3);
    let first = IAm {
        object,
        apdu,
        segmentation,
        vendor: 99,
    };
    let second = IAm {
        object,
        apdu,
        segmentation,
        vendor: 98,
    };
    let text =
        "IAm { object: ObjectId { kind: 8, instance: 1 }, apdu: 480, segmentation: 3, vendor: 99 }";
    is_shown(&rt, rt.alloc(), first, second, text);
}

#[test]
fn faults_are_shown(rt: HostRuntime) {
    let fault = OpaqueFault::Typed;
    let text = "the kind and the service choice have a production";
    assert_shown(&rt, rt.alloc(), fault, text);
    assert_same(&rt, fault as u8, 1);
    let fault = OpaqueFault::OutOfMemory;
    assert_shown(&rt, rt.alloc(), fault, "out of memory");
    assert_same(&rt, fault as u8, 2);
}
