//! Refusals as they are shown, and the laws.

use crate::expectations::{assert_same_of, assert_shown};
use bac_tag::{OutOfMemory, Refusal, Why, laws};
use std::alloc::Global;
use std::process::Abort;

// The names are those of section 10 of docs/FORMATS.md.
#[test]
fn a_refusal_is_shown_with_its_place(rt: HostRuntime) {
    let refusal = Refusal {
        place: 3,
        why: Why::Tag,
    };
    let alloc = rt.alloc();
    assert_shown(&rt, alloc, refusal, "Tag at 3");
    assert_shown(&rt, alloc, OutOfMemory, "out of memory");
}

/// The reason has this number, and is shown by its name.
fn is_named(rt: &impl Abort, alloc: Global, why: Why, number: u8, name: &str) {
    assert_same_of(rt, why as u8, number, name);
    assert_shown(rt, alloc, why, name);
}

/// In the order of their enum, from 1 on. The names are those of section 10 of docs/FORMATS.md.
static REASONS: [(Why, u8, &str); 12] = [
    (Why::Short, 1, "Short"),
    (Why::Trailing, 2, "Trailing"),
    (Why::Version, 3, "Version"),
    (Why::Address, 4, "Address"),
    (Why::PduType, 5, "PduType"),
    (Why::Window, 6, "Window"),
    (Why::Tag, 7, "Tag"),
    (Why::Length, 8, "Length"),
    (Why::Content, 9, "Content"),
    (Why::Depth, 10, "Depth"),
    (Why::NotCanonical, 11, "NotCanonical"),
    (Why::OutOfMemory, 12, "OutOfMemory"),
];

#[test]
fn reasons_have_numbers_and_names(rt: HostRuntime) {
    for (why, number, name) in &REASONS {
        is_named(&rt, rt.alloc(), *why, *number, name);
    }
}

/// Values that are octets, each spelled by itself.
struct Octet;

impl laws::Spelled for Octet {
    ghost use Rattle.std.specs.Prelude.{◌≡◌, ◌∷◌, [], ℕ};

    ghost Value = { ℕ };

    ghost spells = { λ octet b. b ≡ octet ∷ [] };
}

// The laws are functions that do nothing: their contracts are what they say.
#[test]
fn laws_of_any_spelling_can_be_called() {
    laws::only_valid_heads_are_spelled();
    laws::choices_are_viable_in_a_case::<Octet, Octet>();
    laws::joined_parts_are_viable_in_turn::<Octet, Octet>();
    laws::farther_refusals_are_those_of_a_choice::<Octet, Octet>();
}
