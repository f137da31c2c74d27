//! Fields that say a word, or octets as they are.

ghost use Rattle.std.specs.Prelude.{ℕ, List, true};
ghost use Rattle.bac_field_parts.specs.Symbols.{no_number, no_octet_number, the_number, no_octets, the_octet};
ghost use Rattle.bac_field_parts.specs.OctetForms.{IsOneOctet, AreTwoOctets, AreCounted};
ghost use Rattle.bac_field_parts.specs.Opaques.{AreTheOctets};
ghost use Rattle.bac_field_parts.specs.Laws.OctetForms.{one_octet_inhabited, two_octets_inhabited, counted_inhabited};
ghost use Rattle.bac_field_parts.specs.Laws.Opaques.{octets_inhabited};
ghost use Rattle.bac_field_parts.specs.Laws.Leaves.{nothing_inhabited, octet_inhabited};

use crate::forms::{Form, Holding};
use crate::names::Name;
use bac_tag::OutOfMemory;

/// A word without octets of its own.
#[derive(Clone, Copy)]
pub struct Word(pub Name);

impl Form for Word {
    ghost Value = { Unit {0} };

    ghost name = { λ form. form.0 };

    ghost number = { λ form. no_number };

    ghost spells = { λ form. no_octets };

    ghost is_form = { λ form. true };

    #[inline(always)]
    fn name(&self) -> Name {
        self.0
    }

    #[inline(always)]
    fn make(&self, given: u64, _out: &mut Vec<u8>) -> Result<bool, OutOfMemory> {
        Ok(given == 0)
    }

    ghost inhabited = { λ form sound. nothing_inhabited };
}

/// A number of one octet.
#[derive(Clone, Copy)]
pub struct Octet(pub Name, pub u8);

/// The octet with this number, and no other one.
impl Form for Octet {
    ghost Value = { Unit {0} };

    ghost name = { λ form. form.0 };

    ghost number = { λ form. the_number form.1 };

    ghost spells = { λ form. the_octet form.1 };

    ghost is_form = { λ form. true };

    #[inline(always)]
    fn name(&self) -> Name {
        self.0
    }

    #[inline(always)]
    fn make(&self, given: u64, out: &mut Vec<u8>) -> Result<bool, OutOfMemory> {
        if given != u64::from(self.1) {
            return Ok(false);
        }
        out.push(self.1)?;
        Ok(true)
    }

    ghost inhabited = { λ form sound. octet_inhabited form.1 };
}

/// A field that says any number of one octet.
#[derive(Drop)]
pub struct AnyOctet(pub Name);

impl Form for AnyOctet {
    ghost Value = { ℕ };

    ghost name = { λ form. form.0 };

    ghost number = { λ form n. n };

    ghost spells = { λ form. IsOneOctet };

    ghost is_form = { λ form. true };

    #[inline(always)]
    fn name(&self) -> Name {
        self.0
    }

    #[inline(always)]
    fn make(&self, given: u64, out: &mut Vec<u8>) -> Result<bool, OutOfMemory> {
        let Ok(octet) = u8::try_from(given) else {
            return Ok(false);
        };
        out.push(octet)?;
        Ok(true)
    }

    ghost inhabited = { λ form sound. one_octet_inhabited };
}

/// A field that says any number of two octets.
#[derive(Drop)]
pub struct AnyTwoOctets(pub Name);

impl Form for AnyTwoOctets {
    ghost Value = { ℕ };

    ghost name = { λ form. form.0 };

    ghost number = { λ form n. n };

    ghost spells = { λ form. AreTwoOctets };

    ghost is_form = { λ form. true };

    #[inline(always)]
    fn name(&self) -> Name {
        self.0
    }

    #[inline(always)]
    fn make(&self, given: u64, out: &mut Vec<u8>) -> Result<bool, OutOfMemory> {
        let Ok(number) = u16::try_from(given) else {
            return Ok(false);
        };
        out.extend_from_slice(&[(number / 256) as u8, (number % 256) as u8])?;
        Ok(true)
    }

    ghost inhabited = { λ form sound. two_octets_inhabited };
}

/// A field that has any octets as they are.
#[derive(Drop)]
pub struct AnyOctets(pub Name);

impl Holding for AnyOctets {
    ghost Value = { List ℕ };

    ghost name = { λ holding. holding.0 };

    ghost number = { no_octet_number };

    ghost contents = { λ octets. octets };

    ghost spells = { AreTheOctets };

    #[inline(always)]
    fn name(&self) -> Name {
        self.0
    }

    #[inline(always)]
    fn has(&self, given: u64) -> bool {
        given == 0
    }

    #[inline(always)]
    fn append(&self, _given: u64, held: &[u8], out: &mut Vec<u8>) -> Result<bool, OutOfMemory> {
        out.extend_from_slice(held)?;
        Ok(true)
    }

    ghost inhabited = { octets_inhabited };
}

/// A field that has at most 255 octets, which are after their number.
#[derive(Drop)]
pub struct CountedOctets(pub Name);

impl Holding for CountedOctets {
    ghost Value = { List ℕ };

    ghost name = { λ holding. holding.0 };

    ghost number = { no_octet_number };

    ghost contents = { λ octets. octets };

    ghost spells = { AreCounted };

    #[inline(always)]
    fn name(&self) -> Name {
        self.0
    }

    #[inline(always)]
    fn has(&self, given: u64) -> bool {
        given == 0
    }

    fn append(&self, _given: u64, held: &[u8], out: &mut Vec<u8>) -> Result<bool, OutOfMemory> {
        let Ok(count) = u8::try_from(held.len()) else {
            return Ok(false);
        };
        out.push(count)?;
        out.extend_from_slice(held)?;
        Ok(true)
    }

    ghost inhabited = { counted_inhabited };
}
