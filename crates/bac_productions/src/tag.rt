//! Opening and closing tags (clause 20.2.1.3.2).

ghost use Rattle.std.specs.Prelude.{◌≡◌, ◌↔◌, ◌≤◌, ◌∷◌, [], false, nat_le, IsTrue};
ghost use Rattle.bac_tag.specs.Short.{BeginsShort};
ghost use Rattle.bac_productions.specs.Leads.{lead_of};
ghost use Rattle.bac_productions.specs.Collisions.{no_such_number, unless};
ghost use Rattle.bac_productions.specs.Productions.{Head, edge, expected_edge};
ghost use Rattle.bac_productions.specs.Laws.Collisions.{unless_none};
ghost use Rattle.bac_productions.specs.Laws.Production.{head_lawful};
ghost use Rattle.bac_productions.specs.Laws.Tag.{edge_inhabited, edge_least};

use crate::production::{Front, Production, ReadFault, Spelling, complete_at};
use bac_tag::layers::{
    Expected, append_head, is_short_closing, is_short_opening, mark_read_head, read_expected,
};
use bac_tag::{OutOfMemory, TagHead};
use std::alloc::Global;

/// The tag at an edge of a group: the opening one if `OPENS`, and otherwise the closing one.
#[derive(Drop)]
pub(crate) struct Edge<const N: u8, const OPENS: bool>;

/// Returns the head of the tag.
#[inline(always)]
fn head_of(number: u8, opens: bool) -> TagHead
    ensures { result ≡ edge opens number }
{
    if opens {
        TagHead::Open(number)
    } else {
        TagHead::Close(number)
    }
}

/// Returns the expected heads: only the tag.
#[inline(always)]
fn expected_head(number: u8, opens: bool) -> Expected
    ensures { result ≡ expected_edge opens number }
{
    if opens {
        Expected::Open(Some(number))
    } else {
        Expected::Close(Some(number))
    }
}

/// Returns true if the octets begin with the tag in one octet.
#[inline(always)]
fn is_short(octets: &[u8], number: u8, opens: bool) -> bool
    requires { number ≤ 254 }
    ensures { IsTrue result ↔ BeginsShort (edge opens number) octets.now }
{
    if opens {
        is_short_opening(octets, number)
    } else {
        is_short_closing(octets, number)
    }
}

impl<const N: u8, const OPENS: bool> Production for Edge<N, OPENS> {
    ghost Value = { Unit {0} };

    ghost view = { λ tag. tt };

    ghost spells = { Head (edge OPENS N) };

    ghost openers = { lead_of (edge OPENS N) ∷ [] };

    ghost continuers = { [] };

    ghost may_be_empty = { false };

    ghost collisions = { unless (nat_le N 254) (no_such_number N) };

    ghost is_sound = { nat_le N 254 };

    ghost wants_memory = { false };

    ghost has_long_contents = { false };

    #[inline(always)]
    fn read_spelling(
        alloc: Global,
        octets: &[u8],
        _wanted: bool,
    ) -> Option<Spelling<Edge<N, OPENS>>> {
        Some(Self::read(alloc, octets).ok()?.into_spelling())
    }

    #[inline(always)]
    fn read(_alloc: Global, octets: &[u8]) -> Result<Front<Edge<N, OPENS>>, ReadFault> {
        if is_short(octets, N, OPENS) {
            return Ok(Front {
                value: Edge,
                taken: 1,
                mark: None,
                reach: complete_at(octets, 1),
            });
        }
        match read_expected(octets, expected_head(N, OPENS)) {
            Ok((tag, taken)) => Ok(Front {
                value: Edge,
                taken,
                mark: mark_read_head(&octets[..taken], tag, head_of(N, OPENS)),
                reach: complete_at(octets, taken),
            }),
            Err(refusal) => Err(ReadFault::Refused(refusal)),
        }
    }

    #[inline(always)]
    fn check(alloc: Global, octets: &[u8]) -> Result<Front<()>, ReadFault> {
        let (_, front) = Self::read(alloc, octets)?.split();
        Ok(front)
    }

    #[inline(always)]
    fn write(&self, out: &mut Vec<u8>) -> Result<(), OutOfMemory> {
        append_head(head_of(N, OPENS), out)
    }

    ghost decided = { unless_none (nat_le N 254) (no_such_number N) };

    ghost lawful = { λ sound. head_lawful (edge OPENS N) };

    ghost inhabited = { edge_inhabited OPENS N };

    ghost has_least = { edge_least OPENS N };
}
