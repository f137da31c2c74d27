//! Errors of typed services.

use super::is_written;
use crate::expectations::{assert_same, assert_same_of};
use bac_service::{Kind, Service, ServiceError};
use std::alloc::Global;
use std::process::Abort;

/// The choices whose errors have a class and a code.
static CHOICES: [u8; 5] = [1, 5, 12, 14, 15];

/// The error of this choice, with the class 2 and the code 32, is made and written as these octets.
fn has_class_and_code(rt: &impl Abort, alloc: Global, choice: u8, octets: &str) {
    let error = ServiceError::new(choice, 2, 32).expect(rt, "a typed service");
    let parts = (error.choice(), error.class(), error.code());
    assert_same(rt, parts, (choice, 2, 32));
    let made = Service::ServiceError(error);
    is_written(rt, alloc, &made, (Kind::Error, choice), octets);
}

// Of examples 21 and 48 of docs/EXAMPLES.md.
#[test]
fn an_error_has_a_class_and_a_code(rt: HostRuntime) {
    for choice in &CHOICES {
        has_class_and_code(&rt, rt.alloc(), *choice, "91 02 91 20");
    }
}

// Of example 48 of docs/EXAMPLES.md.
#[test]
fn errors_of_other_services_have_none(rt: HostRuntime) {
    for choice in 0..=255 {
        let error = ServiceError::new(choice, 2, 32);
        assert_same_of(&rt, error.is_some(), CHOICES.contains(&choice), choice);
    }
}
