//! Open values by Rust's own traits.

use super::gives;
use crate::expectations::{assert_same, assert_same_of, assert_shown};
use bac_data::{Any, BuildFault, Event, read_any};
use bac_tables::octets_of;
use bac_value::{PrimRef, Unsigned};
use std::alloc::Global;
use std::process::Abort;

/// The value between tags of the number 3.
fn value_of(rt: &impl Abort, alloc: Global, octets: &str) -> Any {
    let octets = octets_of(octets).expect(rt, "octets");
    let (value, _) = read_any(alloc, &octets, 3).expect(rt, "a value");
    value
}

/// Whether the octets say what the value is.
fn says(rt: &impl Abort, alloc: Global, value: &Any, octets: &str, is_same: bool) {
    let found = *value == value_of(rt, alloc, octets);
    assert_same_of(rt, found, is_same, octets);
}

#[test]
fn a_value_is_walked_by_a_loop(rt: HostRuntime) {
    let value = value_of(&rt, rt.alloc(), "3E 7E 21 05 7F 3F");
    assert_same(&rt, value.events().size_hint(), (3, Some(3)));
    let five = PrimRef::Unsigned(Unsigned(5));
    let events = [Event::Open(7), Event::App(five), Event::Close(7)];
    gives(&rt, &value, &events);
}

/// Compares two events, where there is one.
fn is_event(rt: &impl Abort, found: &Option<Event<'_>>, event: &Option<Event<'_>>) {
    assert_same_of(rt, *found == *event, true, "an event");
}

/// Compares the event with that index.
fn is_at(rt: &impl Abort, value: &Any, index: usize, event: &Option<Event<'_>>) {
    is_event(rt, &value.event(index), event);
}

#[test]
fn events_are_found_by_their_indices(rt: HostRuntime) {
    let value = value_of(&rt, rt.alloc(), "3E 7E 21 05 FE C8 FF C8 7F 3F");
    let five = PrimRef::Unsigned(Unsigned(5));
    is_at(&rt, &value, 0, &Some(Event::Open(7)));
    is_at(&rt, &value, 1, &Some(Event::App(five)));
    is_at(&rt, &value, 2, &Some(Event::Open(200)));
    is_at(&rt, &value, 3, &Some(Event::Close(200)));
    is_at(&rt, &value, 4, &Some(Event::Close(7)));
    is_at(&rt, &value, 5, &None);
}

// Of two groups with one inside, the walk passes over the first, and over the one inside the second.
#[test]
fn groups_are_passed_over(rt: HostRuntime) {
    let octets = "3E 1E 2E 09 AA 2F 1F 2E 1E 1F 09 BB 2F 3F";
    let value = value_of(&rt, rt.alloc(), octets);
    let mut events = value.events();
    assert_same(&rt, events.len(), 10);
    assert_same(&rt, events.skip_group(), Some(1));
    assert_same(&rt, events.len(), 5);
    is_event(&rt, &events.next(), &Some(Event::Open(2)));
    assert_same(&rt, events.skip_group(), Some(1));
    assert_same(&rt, events.skip_group(), None);
    is_event(&rt, &events.next(), &Some(Event::Ctx(0, &[0xBB])));
    is_event(&rt, &events.next(), &Some(Event::Close(2)));
    assert_same(&rt, events.skip_group(), None);
    assert_same(&rt, events.len(), 0);
}

/// Octets of open values, and whether they say what the octets 3E 7E 21 05 7F 3F do: the spelling does not count, but each
/// number, each octet and each group does.
static COMPARED: [(&str, bool); 7] = [
    ("3E 7E 22 00 05 7F 3F", true),
    ("3E 3F", false),
    ("3E 21 05 3F", false),
    ("3E 6E 21 05 6F 3F", false),
    ("3E 7E 21 06 7F 3F", false),
    ("3E 7E 91 05 7F 3F", false),
    ("3E 7E 7F 21 05 3F", false),
];

#[test]
fn values_are_compared_by_what_they_say(rt: HostRuntime) {
    let value = value_of(&rt, rt.alloc(), "3E 7E 21 05 7F 3F");
    for (octets, is_same) in &COMPARED {
        says(&rt, rt.alloc(), &value, octets, *is_same);
    }
    let clone = value.clone().expect(&rt, "memory");
    assert_same(&rt, clone, value);
}

/// The fault has this number, and is shown so.
fn is_shown(rt: &impl Abort, alloc: Global, fault: BuildFault, number: u8, text: &str) {
    assert_same_of(rt, fault as u8, number, text);
    assert_shown(rt, alloc, fault, text);
}

// In the order of their enum, from 1 on.
#[test]
fn faults_are_shown(rt: HostRuntime) {
    let alloc = rt.alloc();
    is_shown(&rt, alloc, BuildFault::Number, 1, "255 is no tag number");
    is_shown(&rt, alloc, BuildFault::Depth, 2, "32 groups are open");
    is_shown(&rt, alloc, BuildFault::NothingOpen, 3, "no group is open");
    let text = "a group is still open";
    is_shown(&rt, alloc, BuildFault::StillOpen, 4, text);
    is_shown(&rt, alloc, BuildFault::OutOfMemory, 5, "out of memory");
    let text = "the contents have more than 1048576 octets";
    is_shown(&rt, alloc, BuildFault::TooLong, 6, text);
}
