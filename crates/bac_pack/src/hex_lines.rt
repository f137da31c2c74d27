//! Lines of hexadecimal digits.

ghost use Rattle.std.specs.Prelude.{refl};
ghost use Rattle.bac_pack.specs.Lines.{LONGEST_LINE, Packs, PacksNone};

use crate::PackFault;
use crate::line_forms::LineForm;
use crate::packing::pack_line;
use std::alloc::Global;

/// How many octets a line has at most, before its LF.
const LONGEST: usize = 200_000;

/// The longest line with its LF.
const PIECE: usize = LONGEST + 1;

/// Lines of hexadecimal digits, two for each octet of a record.
#[derive(Drop)]
pub(crate) struct HexLines {
    /// A buffer for the digits of a line that has blanks.
    digits: Vec<u8>,
}

impl HexLines {
    /// Creates the form, which has no memory yet.
    pub(crate) fn new(alloc: Global) -> HexLines {
        HexLines {
            digits: Vec::new(alloc),
        }
    }
}

impl LineForm<PIECE> for HexLines {
    const LONGEST: usize = LONGEST;

    ghost LONGEST = { LONGEST_LINE };

    ghost packs = { Packs };

    ghost refuses = { PacksNone };

    fn push(&mut self, number: u32, line: &[u8], output: &mut Vec<u8>) -> Result<(), PackFault> {
        pack_line(number, line, &mut self.digits, output)
    }

    ghost small = { λ line octets packs. packs.1 };

    ghost one_more = { refl };
}
