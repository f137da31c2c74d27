//! The record of a line.

ghost use Rattle.std.specs.Prelude.{◌≡◌, IfErr, OnErr, OnOk, length, take};
ghost use Rattle.bac_pack.specs.LineForms.{IsRefused, Pushes};
ghost use Rattle.bac_pack.specs.Lines.{Packs, PacksNone, Spells, SpellsNone};

use crate::PackFault;
use crate::lines::{copy_digits, strip_return};
use bac_record::LONGEST;
use bac_tag::layers::or_cut_back;

/// Appends the record that the digits spell. `number` is that of its line. After a fault, part of the record may have
/// been appended.
///
/// The digits are decoded to the final place of their octets. The length octets come first. If there are too many
/// digits, these two are not their length, and the caller removes them with the rest.
fn push_record(number: u32, digits: &[u8], output: &mut Vec<u8>) -> Result<(), PackFault>
    ensures ok { OnOk result (Pushes (Spells digits.now) output.old.items output.new.items) }
    ensures fault { IfErr result (IsRefused (SpellsNone digits.now) number) }
    ensures front { OnErr result (take (length output.old.items) output.new.items ≡ output.old.items) }
{
    let count = digits.len() / 2;
    let head = [(count / 256 % 256) as u8, (count % 256) as u8];
    if output.extend_from_slice(&head).is_err() {
        return Err(PackFault::OutOfMemory(number));
    }
    let start = output.len();
    if output.resize(start + count, 0).is_err() {
        return Err(PackFault::OutOfMemory(number));
    }
    if hex::decode_to_slice(digits, &mut output[start..]).is_err() {
        return Err(PackFault::NotHex(number));
    }
    if count > LONGEST {
        return Err(PackFault::RecordTooLong(number));
    }
    Ok(())
}

/// Appends the record of a line. If the line has blanks, its digits are first copied to `digits`. After a fault, part
/// of the record may have been appended.
fn push_line(
    number: u32,
    line: &[u8],
    digits: &mut Vec<u8>,
    output: &mut Vec<u8>,
) -> Result<(), PackFault>
    ensures ok { OnOk result (Pushes (Packs line.now) output.old.items output.new.items) }
    ensures fault { IfErr result (IsRefused (PacksNone line.now) number) }
    ensures front { OnErr result (take (length output.old.items) output.new.items ≡ output.old.items) }
{
    let octets = strip_return(line);
    if !octets.contains(&b' ') {
        return push_record(number, octets, output);
    }
    if copy_digits(octets, digits).is_err() {
        return Err(PackFault::OutOfMemory(number));
    }
    push_record(number, digits, output)
}

/// Appends the record of the line of this number, counted from 1. After a fault `output` is as it was.
pub(crate) fn pack_line(
    number: u32,
    line: &[u8],
    digits: &mut Vec<u8>,
    output: &mut Vec<u8>,
) -> Result<(), PackFault>
    ensures ok { OnOk result (Pushes (Packs line.now) output.old.items output.new.items) }
    ensures fault { IfErr result (IsRefused (PacksNone line.now) number) }
    ensures err { OnErr result (output.new.items ≡ output.old.items) }
{
    let start = output.len();
    let pushed = push_line(number, line, digits, output);
    or_cut_back(pushed, start, output)
}
