//! The lines of the pieces of octets, each beside the one of the canonical octets.

ghost use Rattle.std.specs.Prelude.{◌≡◌, ◌++◌, List, ℕ, [], None, OnErr, OnOk};
ghost use Rattle.bac_explain.specs.Explanations.{IsNamedExplanation};
ghost use Rattle.bac_explain.specs.NamedLines.{AreNamedLines};

use crate::explanation::{FEW, pieces_of};
use crate::named_lines::{write_canonical_lines, write_named_lines};
use crate::piece::Piece;
use crate::pieces::write_pieces;
use crate::verdict::Verdict;
use bac_field_parts::Field;
use bac_tag::OutOfMemory;
use std::alloc::Global;

/// Appends the lines of pieces, each beside the one with its index of the canonical octets, with a hint at a refusal.
pub(crate) fn append_beside_each(
    octets: &[u8],
    pieces: &[Piece],
    canonical: &[u8],
    others: &[Piece],
    fields: &[Field],
    hint: &[u8],
    out: &mut Vec<u8>,
) -> Result<(), OutOfMemory>
    ensures ok { OnOk result ((lines : List ℕ) × (out.new.items ≡ out.old.items ++ lines) × AreNamedLines octets.now canonical.now fields.now hint.now pieces.now others.now lines) }
    ensures err { OnErr result (out.new.items ≡ out.old.items) }
{
    let start = out.len();
    match write_named_lines(out, start, octets, pieces, canonical, others, fields, hint) {
        Ok(end) => {
            out.truncate(end);
            Ok(())
        }
        Err(fault) => {
            out.truncate(start);
            Err(fault)
        }
    }
}

/// Appends the lines of the pieces of accepted octets, however many they are.
fn append_many_named(
    alloc: Global,
    octets: &[u8],
    mark: Option<usize>,
    typed: bool,
    canonical: &[u8],
    fields: &[Field],
    out: &mut Vec<u8>,
) -> Result<(), OutOfMemory>
    ensures ok { OnOk result ((lines : List ℕ) × (out.new.items ≡ out.old.items ++ lines) × IsNamedExplanation octets.now mark typed canonical.now fields.now lines) }
    ensures err { OnErr result (out.new.items ≡ out.old.items) }
{
    let pieces = pieces_of(alloc, octets, Verdict::Accepted { mark, typed })?;
    let others = pieces_of(alloc, canonical, Verdict::Accepted { mark: None, typed })?;
    append_beside_each(octets, &pieces, canonical, &others, fields, &[], out)
}

/// Appends the lines of the pieces of accepted octets with this mark, each beside the piece with its index of the
/// canonical octets, of which these are the fields. If memory is refused, `out` stays as it was.
pub(crate) fn append_named_pieces(
    alloc: Global,
    octets: &[u8],
    mark: Option<usize>,
    typed: bool,
    canonical: &[u8],
    fields: &[Field],
    out: &mut Vec<u8>,
) -> Result<(), OutOfMemory>
    ensures ok { OnOk result ((lines : List ℕ) × (out.new.items ≡ out.old.items ++ lines) × IsNamedExplanation octets.now mark typed canonical.now fields.now lines) }
    ensures err { OnErr result (out.new.items ≡ out.old.items) }
{
    let mut room = [Piece::BLANK; FEW];
    let mut beside = [Piece::BLANK; FEW];
    let count = write_pieces(octets, Verdict::Accepted { mark, typed }, &mut room);
    let least = Verdict::Accepted { mark: None, typed };
    let other_count = write_pieces(canonical, least, &mut beside);
    match (room.get(..count), beside.get(..other_count)) {
        (Some(pieces), Some(others)) => {
            append_beside_each(octets, pieces, canonical, others, fields, &[], out)
        }
        _ => append_many_named(alloc, octets, mark, typed, canonical, fields, out),
    }
}

/// Appends the lines of pieces of canonical octets.
fn append_each_canonical(
    octets: &[u8],
    pieces: &[Piece],
    fields: &[Field],
    out: &mut Vec<u8>,
) -> Result<(), OutOfMemory>
    ensures ok { OnOk result ((lines : List ℕ) × (out.new.items ≡ out.old.items ++ lines) × AreNamedLines octets.now octets.now fields.now [] pieces.now pieces.now lines) }
    ensures err { OnErr result (out.new.items ≡ out.old.items) }
{
    let start = out.len();
    match write_canonical_lines(out, start, octets, pieces, fields) {
        Ok(end) => {
            out.truncate(end);
            Ok(())
        }
        Err(fault) => {
            out.truncate(start);
            Err(fault)
        }
    }
}

/// Appends the lines of the pieces of canonical octets, however many they are.
fn append_many_canonical(
    alloc: Global,
    octets: &[u8],
    typed: bool,
    fields: &[Field],
    out: &mut Vec<u8>,
) -> Result<(), OutOfMemory>
    ensures ok { OnOk result ((lines : List ℕ) × (out.new.items ≡ out.old.items ++ lines) × IsNamedExplanation octets.now None typed octets.now fields.now lines) }
    ensures err { OnErr result (out.new.items ≡ out.old.items) }
{
    let pieces = pieces_of(alloc, octets, Verdict::Accepted { mark: None, typed })?;
    append_each_canonical(octets, &pieces, fields, out)
}

/// Appends the lines of the pieces of canonical octets, of which these are the fields. If memory is refused, `out` stays as
/// it was.
pub(crate) fn append_canonical_pieces(
    alloc: Global,
    octets: &[u8],
    typed: bool,
    fields: &[Field],
    out: &mut Vec<u8>,
) -> Result<(), OutOfMemory>
    ensures ok { OnOk result ((lines : List ℕ) × (out.new.items ≡ out.old.items ++ lines) × IsNamedExplanation octets.now None typed octets.now fields.now lines) }
    ensures err { OnErr result (out.new.items ≡ out.old.items) }
{
    let mut room = [Piece::BLANK; FEW];
    let count = write_pieces(octets, Verdict::Accepted { mark: None, typed }, &mut room);
    match room.get(..count) {
        Some(pieces) => append_each_canonical(octets, pieces, fields, out),
        None => append_many_canonical(alloc, octets, typed, fields, out),
    }
}
