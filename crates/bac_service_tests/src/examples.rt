//! The examples of the doc comments of bac_service and of README.md, with the same lines.

use bac_service::{
    Kind, Service, WhoIs, append_service, decode_service, decode_service_marked, encode_service,
};
use bac_tag::Why;
use std::test::Fail;

// Of README.md.
#[test]
fn a_request_is_decoded_and_encoded(rt: HostRuntime) -> Result<(), Fail> {
    // Present value (85) of analog input 5, as it is after the header of the APDU.
    let octets = [0x0C, 0x00, 0x00, 0x00, 0x05, 0x19, 0x55];
    let service = decode_service(rt.alloc(), Kind::Confirmed, 12, &octets)?;
    let Service::ReadProperty(request) = &service else {
        panic!(rt; "{service:?}");
    };
    assert_eq!(rt; request.object.kind(), 0);
    assert_eq!(rt; request.object.instance(), 5);
    assert_eq!(rt; request.property, 85);
    assert_eq!(rt; request.index, None);
    let written = encode_service(rt.alloc(), &service)?;
    assert_eq!(rt; written.as_slice(), octets.as_slice());
    Ok(())
}

// Of `bac_service::decode_service`.
#[test]
fn a_service_is_decoded(rt: HostRuntime) -> Result<(), Fail> {
    // Unconfirmed, service choice 8: Who-Is. Without octets it asks for all devices.
    let service = decode_service(rt.alloc(), Kind::Unconfirmed, 8, &[])?;
    let Service::WhoIs(request) = &service else {
        panic!(rt; "{service:?}");
    };
    assert_eq!(rt; *request, WhoIs { limits: None });
    // A low limit needs a high one behind it.
    let found = decode_service(rt.alloc(), Kind::Unconfirmed, 8, &[0x09, 0x64]);
    assert_eq!(rt; found.err(), Some(Why::Short.at(2)));
    Ok(())
}

// Of `bac_service::decode_service_marked`.
#[test]
fn a_service_is_decoded_with_its_mark(rt: HostRuntime) -> Result<(), Fail> {
    // ReadProperty with the property in two octets, which are more than it needs.
    let octets = [0x0C, 0x00, 0x00, 0x00, 0x05, 0x1A, 0x00, 0x55];
    let (_, mark) = decode_service_marked(rt.alloc(), Kind::Confirmed, 12, &octets)?;
    assert_eq!(rt; mark, Some(5));
    Ok(())
}

// Of `bac_service::encode_service`.
#[test]
fn a_service_is_encoded(rt: HostRuntime) -> Result<(), Fail> {
    let service = Service::WhoIs(WhoIs { limits: None });
    assert_eq!(rt; (service.kind(), service.choice()), (Kind::Unconfirmed, 8));
    assert!(rt; encode_service(rt.alloc(), &service)?.is_empty());
    Ok(())
}

// Of `bac_service::append_service`.
#[test]
fn a_service_is_appended(rt: HostRuntime) -> Result<(), Fail> {
    let octets = [0x0C, 0x00, 0x00, 0x00, 0x05, 0x19, 0x55];
    let service = decode_service(rt.alloc(), Kind::Confirmed, 12, &octets)?;
    // Behind the header of an unsegmented Confirmed-Request (clause 20.1.2).
    let mut apdu = vec![in rt.alloc(); 0x00, 0x05, 0x01, 0x0C]?;
    append_service(&service, &mut apdu)?;
    assert_eq!(rt; apdu.len(), 11);
    assert!(rt; apdu.ends_with(&octets));
    Ok(())
}
