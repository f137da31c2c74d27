//! For the layers above: APDUs that are given to a visitor where they were decoded, and APDUs that are checked and not
//! made. A program that handles whole messages needs none of it.

pub use crate::apdu_checking::check_apdu;
pub use crate::apdu_decoding::visit_apdu;
pub use crate::visiting::ApduVisitor;
