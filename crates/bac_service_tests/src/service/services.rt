//! Services that are made and not read, and those that are read without their marks.

use super::{canonical, is_written, object};
use crate::expectations::{assert_holds, assert_same};
use bac_service::{
    CovNotification, ErrorCause, Kind, PropertyReference, ReadAccessSpecification, ReadProperty,
    ReadPropertyMultiple, Service, WhoIs, decode_service, laws,
};
use bac_tables::octets_of;
use bac_tag::Why;
use bac_value::Instance;
use std::alloc::Global;
use std::process::Abort;

/// Of the process 18, the device 8:4 and the object 0:10 no values.
const NOTIFICATION: &str = "09 12 1C 02 00 00 04 2C 00 00 00 0A 39 00 4E 4F";

/// A list of one, at the latest when memory is asked for again.
fn list<T: Drop>(rt: &impl Abort, alloc: Global, only: T) -> Vec<T> {
    let mut items = match Vec::with_capacity(alloc, 1) {
        Ok(items) => items,
        Err(_) => Vec::with_capacity(alloc, 1).expect(rt, "memory"),
    };
    items.push(only).expect(rt, "memory");
    items
}

// Of examples 1 and 53 of docs/EXAMPLES.md.
#[test]
fn small_services_are_written(rt: HostRuntime) {
    let alloc = rt.alloc();
    let read = Service::ReadProperty(ReadProperty {
        object: object(&rt, 0, 5),
        property: 85,
        index: None,
    });
    let octets = "0C 00 00 00 05 19 55";
    is_written(&rt, alloc, &read, (Kind::Confirmed, 12), octets);
    let who = Service::WhoIs(WhoIs { limits: None });
    is_written(&rt, alloc, &who, (Kind::Unconfirmed, 8), "none");
}

// Of example 18 of docs/EXAMPLES.md.
#[test]
fn lists_of_references_are_written(rt: HostRuntime) {
    let alloc = rt.alloc();
    let (object, property) = (object(&rt, 0, 33), 85);
    let index = None;
    let properties = list(&rt, alloc, PropertyReference { property, index });
    let specs = list(&rt, alloc, ReadAccessSpecification { object, properties });
    let service = Service::ReadPropertyMultiple(ReadPropertyMultiple { specs });
    let octets = "0C 00 00 00 21 1E 09 55 1F";
    is_written(&rt, alloc, &service, (Kind::Confirmed, 14), octets);
}

/// A notification of no values, confirmed or not, is written as one of this kind and this choice.
fn notification_is_written(rt: &impl Abort, alloc: Global, confirmed: bool, service: (Kind, u8)) {
    let notification = Service::CovNotification(CovNotification {
        confirmed,
        process: 18,
        device: object(rt, 8, 4),
        object: object(rt, 0, 10),
        remaining: 0,
        values: Vec::new(alloc),
    });
    is_written(rt, alloc, &notification, service, NOTIFICATION);
}

// Of examples 20 and 53 of docs/EXAMPLES.md, without values.
#[test]
fn notifications_of_both_kinds_are_written_alike(rt: HostRuntime) {
    let alloc = rt.alloc();
    notification_is_written(&rt, alloc, true, (Kind::Confirmed, 1));
    notification_is_written(&rt, alloc, false, (Kind::Unconfirmed, 2));
}

// Of examples 5 and 49 of docs/EXAMPLES.md.
#[test]
fn a_service_is_read_without_its_mark(rt: HostRuntime) {
    let alloc = rt.alloc();
    let octets = octets_of("0A 00 64 19 C8").expect(&rt, "octets");
    let found = decode_service(alloc, Kind::Unconfirmed, 8, &octets).expect(&rt, "a service");
    let limits = Instance::new(100).zip(Instance::new(200));
    let wanted = Service::WhoIs(WhoIs { limits });
    assert_holds(&rt, found == wanted, "limits of two octets and of one");
    let refusal = decode_service(alloc, Kind::Unconfirmed, 8, &[9, 0]).err();
    assert_same(&rt, refusal, Some(Why::Short.at(2)));
}

/// Of this kind and this choice the octets are those of two services.
fn differ(rt: &impl Abort, alloc: Global, service: (Kind, u8), one: &str, other: &str) {
    let left = canonical(rt, alloc, service, one);
    let right = canonical(rt, alloc, service, other);
    let same = left == right || laws::equal_services_are_the_same(&left, &right);
    assert_holds(rt, !same, (one, other));
}

/// The octets are those of two services, one of each kind and choice.
fn differ_in_kind(
    rt: &impl Abort,
    alloc: Global,
    one: (Kind, u8),
    other: (Kind, u8),
    octets: &str,
) {
    let left = canonical(rt, alloc, one, octets);
    let right = canonical(rt, alloc, other, octets);
    assert_holds(rt, left != right, octets);
}

// One octet of each pair differs, or the kind does.
#[test]
fn services_that_differ_are_not_equal(rt: HostRuntime) {
    let alloc = rt.alloc();
    let (one, other) = ("0C 00 00 00 05 19 55", "0C 00 00 00 05 19 56");
    differ(&rt, alloc, (Kind::Confirmed, 12), one, other);
    let one = "0C 00 00 00 05 19 55 3E 21 05 3F";
    let other = "0C 00 00 00 05 19 55 3E 91 05 3F";
    differ(&rt, alloc, (Kind::Confirmed, 15), one, other);
    let (one, other) = ("0C 00 00 00 21 1E 09 55 1F", "0C 00 00 00 21 1E 1F");
    differ(&rt, alloc, (Kind::Confirmed, 14), one, other);
    differ(&rt, alloc, (Kind::Unconfirmed, 8), "none", "09 64 19 C8");
    differ(&rt, alloc, (Kind::Unconfirmed, 9), "00", "01");
    differ(&rt, alloc, (Kind::Error, 12), "91 02 91 20", "91 02 91 21");
    let (confirmed, unconfirmed) = ((Kind::Confirmed, 1), (Kind::Unconfirmed, 2));
    differ_in_kind(&rt, alloc, confirmed, unconfirmed, NOTIFICATION);
}

// As the kinds are listed in their enum.
#[test]
fn kinds_are_in_order(rt: HostRuntime) {
    assert_holds(&rt, Kind::Confirmed < Kind::Unconfirmed, "requests");
    assert_holds(&rt, Kind::Unconfirmed < Kind::ComplexAck, "answers");
    assert_holds(&rt, Kind::ComplexAck < Kind::Error, "errors");
}

// By the property, then by the index, where none comes first.
#[test]
fn property_references_are_in_order(rt: HostRuntime) {
    let whole = PropertyReference {
        property: 85,
        index: None,
    };
    let size = PropertyReference {
        index: Some(0),
        ..whole
    };
    let other = PropertyReference {
        property: 86,
        index: None,
    };
    assert_holds(&rt, whole < size, "indices");
    assert_holds(&rt, size < other, "properties");
}

// By the class, then by the code.
#[test]
fn causes_are_in_order(rt: HostRuntime) {
    let cause = ErrorCause { class: 2, code: 31 };
    let of_code = ErrorCause { code: 32, ..cause };
    let of_class = ErrorCause { class: 3, code: 0 };
    assert_holds(&rt, cause < of_code, "codes");
    assert_holds(&rt, of_code < of_class, "classes");
}

// The laws are functions that do nothing: their contracts are what they say.
#[test]
fn laws_can_be_called() {
    laws::services_have_one_value();
    laws::canonical_octets_tell_the_service();
    laws::former_services_are_kept();
}
