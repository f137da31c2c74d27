//! Constructors.

use super::encoded;
use crate::expectations::{assert_holds, assert_same};
use bac_apdu::{
    Apdu, ComplexAck, ConfirmedRequest, ErrorPdu, MaxResp, MaxSegs, RequestHead,
    UnconfirmedRequest, Window,
};
use bac_service::{Kind, Service, WhoIs};
use std::process::Abort;

/// The head of a request.
fn head(rt: &impl Abort) -> RequestHead {
    RequestHead {
        invoke: 1,
        sa: false,
        segs: MaxSegs::new(0).expect(rt, "a number"),
        resp: MaxResp::new(5).expect(rt, "a number"),
    }
}

// Of example 53 of docs/EXAMPLES.md.
#[test]
fn services_of_another_kind_come_back(rt: HostRuntime) {
    let service = Service::WhoIs(WhoIs { limits: None });
    let service = ConfirmedRequest::new(head(&rt), service).err();
    let service = service.expect(&rt, "a Who-Is is not confirmed");
    let service = ComplexAck::new(1, service).err();
    let service = service.expect(&rt, "a Who-Is is no answer");
    let service = ErrorPdu::new(1, service).err();
    let service = service.expect(&rt, "a Who-Is is no error");
    let request = UnconfirmedRequest::new(service).ok();
    let request = request.expect(&rt, "a Who-Is is unconfirmed");
    assert_same(&rt, request.service().kind(), Kind::Unconfirmed);
    let octets = encoded(&rt, rt.alloc(), &Apdu::Unconfirmed(request));
    assert_same(&rt, octets.as_slice(), [0x10, 0x08].as_slice());
}

#[test]
fn windows_are_in_order(rt: HostRuntime) {
    assert_holds(&rt, Window::new(3) < Window::new(4), "the order");
}
