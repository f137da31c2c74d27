//! What comes of a call: the numbers of `enum bactool_code` in `include/bactool.h`.

/// What was asked holds, or is done: the octets are canonical, they are written, both inputs spell one frame.
pub const BACTOOL_OK: u32 = 0;

/// The octets spell a frame, and are not its canonical ones.
pub const BACTOOL_TOLERATED: u32 = 1;

/// The two inputs spell different frames.
pub const BACTOOL_DIFFERENT: u32 = 2;

/// The octets are not accepted.
pub const BACTOOL_REFUSED: u32 = 3;

/// The left one of two inputs spells no frame.
pub const BACTOOL_LEFT_REFUSED: u32 = 4;

/// The right one of two inputs spells no frame, and the left one does.
pub const BACTOOL_RIGHT_REFUSED: u32 = 5;

/// A capacity is too small, and nothing is written.
pub const BACTOOL_NO_ROOM: u32 = 6;

/// Memory was refused, and nothing is written.
pub const BACTOOL_NO_MEMORY: u32 = 7;

/// The frame has no service that is cut.
pub const BACTOOL_NO_SERVICE: u32 = 8;

/// The size of the pieces is 0.
pub const BACTOOL_BAD_SIZE: u32 = 9;

/// The window is not 1 to 127.
pub const BACTOOL_BAD_WINDOW: u32 = 10;

/// A message, or the frame of a segment, has more than 65,535 octets.
pub const BACTOOL_TOO_LONG: u32 = 11;

/// A message would have more than 256 segments.
pub const BACTOOL_TOO_MANY: u32 = 12;

/// The octets end in a record.
pub const BACTOOL_TRUNCATED: u32 = 13;

/// A record holds no segment.
pub const BACTOOL_NO_SEGMENT: u32 = 14;

/// A record is not of the message of those before it.
pub const BACTOOL_CONFLICT: u32 = 15;

/// A segment is missing.
pub const BACTOOL_INCOMPLETE: u32 = 16;

/// The joined octets are no service.
pub const BACTOOL_SERVICE_REFUSED: u32 = 17;
