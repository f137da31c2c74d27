//! What is measured, as tables. A new piece of work is a row of one of them, and a new table is an item of the list.

use crate::lines::{Column, Figure, Layout, Work};
use bac_service::Kind;
use std::alloc::{AllocError, Global};

/// A table of pieces of work.
#[derive(Drop)]
pub struct Table {
    pub layout: Layout,
    /// How many rounds measure a piece.
    pub rounds: u32,
    /// How many messages a repetition does: one short message takes too short a time to be measured.
    pub count: usize,
    pub pieces: &'static [Piece],
}

/// A piece of work: octets that are read, marked and written.
#[derive(Drop)]
pub struct Piece {
    pub name: &'static str,
    /// Whose calls do the work.
    pub calls: Calls,
    /// What the times are compared with: how many octets are before that, and whose calls do it.
    pub below: Option<(usize, Calls)>,
    /// The octets before the runs.
    pub front: &'static [u8],
    /// Must be canonical, with the octets before them: what is written is compared with what was read.
    pub runs: &'static [Run],
}

/// Whose calls do the work.
#[derive(Clone, Copy, Drop)]
pub enum Calls {
    /// A plain copy.
    Copy,
    /// `normalise_frame`.
    Normalise,
    /// `check_frame`, for each frame of a batch.
    Check,
    /// Cutting a message into segments.
    Cut,
    /// Joining the segments of a message, from the first to the last or from the last to the first.
    Join(Order),
    /// An intake, which is fed pieces of so many octets.
    Feed(usize),
    /// Those that read, mark and write a message, for each message of a batch.
    Each(Message),
}

/// In which order segments arrive.
#[derive(Clone, Copy, Drop)]
pub enum Order {
    Forwards,
    Backwards,
}

/// What a message is.
#[derive(Clone, Copy, Drop)]
pub enum Message {
    /// The contents of an octet string.
    Octets,
    /// The contents of a character string.
    Text,
    /// The contents of a bit string.
    Bits,
    /// An open value, with its tags.
    Open,
    /// A service of this kind with this choice, which is encoded.
    Encoded(Kind, u8),
    /// A service of this kind with this choice, which is appended.
    Service(Kind, u8),
    Apdu,
    Frame,
}

/// Some octets.
#[derive(Drop)]
pub enum Run {
    /// These, so often.
    Again(usize, &'static [u8]),
    /// So many that are contents of a value of each type: the 0 at the front is a character set, and no unused bits.
    Contents(usize),
}

impl Piece {
    /// Returns the octets of the piece.
    pub fn octets(&self, alloc: Global) -> Result<Vec<u8>, AllocError> {
        let mut octets = Vec::from_slice(alloc, self.front)?;
        for run in self.runs {
            run.append(&mut octets)?;
        }
        Ok(octets)
    }
}

impl Run {
    /// Appends the octets.
    pub fn append(&self, out: &mut Vec<u8>) -> Result<(), AllocError> {
        match self {
            Run::Again(count, octets) => {
                for _ in 0..*count {
                    out.extend_from_slice(octets)?;
                }
            }
            Run::Contents(size) => {
                for place in 0..*size {
                    out.push((place % 251) as u8)?;
                }
            }
        }
        Ok(())
    }
}

/// The contents of the largest value.
const LARGEST: Run = Run::Contents(1_048_576);

/// An open value with its tags, of one octet string.
const OPEN_STRING: [Run; 3] = [
    Run::Again(1, &[0x3E, 0x65, 0xFF, 0, 0x10, 0, 0]),
    LARGEST,
    Run::Again(1, &[0x3F]),
];

/// Six short primitives in 16 octets: an Unsigned, an Enumerated, a Real, an object identifier, a Boolean and Null.
const SHORT: [u8; 16] = [
    0x21, 0x55, 0x91, 3, 0x44, 0x42, 0xC8, 0, 0, 0xC4, 0, 0, 0, 5, 0x11, 0,
];

/// Property 85 of object 0:5.
const READ_PROPERTY: [u8; 7] = [0x0C, 0, 0, 0, 5, 0x19, 0x55];

/// A ReadPropertyMultiple-ACK of one object with twenty results, a Real each.
const RESULTS: [Run; 3] = [
    Run::Again(1, &[0x0C, 0, 0, 0, 5, 0x1E]),
    Run::Again(20, &[0x29, 0x55, 0x4E, 0x44, 0x42, 0xC8, 0, 0, 0x4F]),
    Run::Again(1, &[0x1F]),
];

/// ReadProperty and ReadProperty-ACK, WriteProperty with a group in its value, three services that hold numbers and
/// identifiers only, and two with lists: the second is a COV notification of one object with four values, a Real each.
/// They are encoded, beside the same ones appended.
const SERVICES: [Piece; 8] = [
    Piece {
        name: "ReadProperty",
        calls: Calls::Each(Message::Encoded(Kind::Confirmed, 12)),
        below: Some((0, Calls::Each(Message::Service(Kind::Confirmed, 12)))),
        front: &READ_PROPERTY,
        runs: &[],
    },
    Piece {
        name: "ReadProperty-ACK",
        calls: Calls::Each(Message::Encoded(Kind::ComplexAck, 12)),
        below: Some((0, Calls::Each(Message::Service(Kind::ComplexAck, 12)))),
        front: &[
            0x0C, 0, 0, 0, 5, 0x19, 0x55, 0x3E, 0x44, 0x42, 0xC8, 0, 0, 0x3F,
        ],
        runs: &[],
    },
    Piece {
        name: "WriteProperty",
        calls: Calls::Each(Message::Encoded(Kind::Confirmed, 15)),
        below: Some((0, Calls::Each(Message::Service(Kind::Confirmed, 15)))),
        front: &[
            0x0C, 0, 0x80, 0, 1, 0x19, 0x55, 0x3E, 0x0E, 0x21, 5, 0x91, 3, 0x0F, 0x1E, 0x44, 0x42,
            0xC8, 0, 0, 0x2E, 0xC4, 0, 0, 0, 5, 0x19, 0x55, 0x2F, 0x1F, 0x75, 6, 0, 0x41, 0x42,
            0x43, 0x44, 0x45, 0xA4, 0x7C, 1, 0x0F, 1, 0xB4, 0x0C, 0, 0, 0, 0x3F, 0x49, 8,
        ],
        runs: &[],
    },
    Piece {
        name: "I-Am",
        calls: Calls::Each(Message::Encoded(Kind::Unconfirmed, 0)),
        below: Some((0, Calls::Each(Message::Service(Kind::Unconfirmed, 0)))),
        front: &[0xC4, 2, 0, 0, 5, 0x22, 5, 0xC4, 0x91, 3, 0x21, 0x0F],
        runs: &[],
    },
    Piece {
        name: "Who-Is",
        calls: Calls::Each(Message::Encoded(Kind::Unconfirmed, 8)),
        below: Some((0, Calls::Each(Message::Service(Kind::Unconfirmed, 8)))),
        front: &[0x0A, 3, 0xE8, 0x1A, 7, 0xD0],
        runs: &[],
    },
    Piece {
        name: "SubscribeCOV",
        calls: Calls::Each(Message::Encoded(Kind::Confirmed, 5)),
        below: Some((0, Calls::Each(Message::Service(Kind::Confirmed, 5)))),
        front: &[0x09, 0x12, 0x1C, 0, 0, 0, 0x0A, 0x29, 1, 0x3A, 1, 0x2C],
        runs: &[],
    },
    Piece {
        name: "ReadPropertyMultiple-ACK",
        calls: Calls::Each(Message::Encoded(Kind::ComplexAck, 14)),
        below: Some((0, Calls::Each(Message::Service(Kind::ComplexAck, 14)))),
        front: &[],
        runs: &RESULTS,
    },
    Piece {
        name: "COVNotification",
        calls: Calls::Each(Message::Encoded(Kind::Unconfirmed, 2)),
        below: Some((0, Calls::Each(Message::Service(Kind::Unconfirmed, 2)))),
        front: &[
            0x09, 0x12, 0x1C, 2, 0, 4, 0xD2, 0x2C, 0, 0, 0, 10, 0x39, 0, 0x4E,
        ],
        runs: &[
            Run::Again(4, &[0x09, 0x55, 0x2E, 0x44, 0x42, 0xC8, 0, 0, 0x2F]),
            Run::Again(1, &[0x4F]),
        ],
    },
];

/// The columns of a layer beside the one below.
const LAYERS: [Column; 8] = [
    Column("octets", 8, 0, Figure::Octets),
    Column("decode/s", 12, 0, Figure::Messages(Work::Read)),
    Column("mark/s", 12, 0, Figure::Messages(Work::Mark)),
    Column("append/s", 12, 0, Figure::Messages(Work::Write)),
    Column("x", 8, 2, Figure::Times(Work::Read)),
    Column("x", 8, 2, Figure::Times(Work::Mark)),
    Column("x", 8, 2, Figure::Times(Work::Write)),
    Column("head ns", 8, 1, Figure::Beyond),
];

/// The octets of a frame before a ReadProperty.
const REQUEST_FRONT: [u8; 6] = [1, 4, 0, 5, 1, 12];

/// The octets of a frame from another network before a ReadPropertyMultiple-ACK.
const ANSWER_FRONT: [u8; 9] = [1, 8, 0, 7, 1, 9, 0x30, 1, 14];

/// The octets of a frame before its open value: the head, the service choice, an object and a property.
const LARGE_FRONT: [u8; 13] = [1, 4, 0, 5, 1, 15, 0x0C, 0, 0, 0, 5, 0x19, 0x55];

/// How often the stream has a record.
pub const RECORDS: usize = 4_096;

/// A record of the request of example 1 of docs/EXAMPLES.md.
const RECORD: [u8; 15] = [0, 13, 1, 4, 0, 5, 1, 12, 0x0C, 0, 0, 0, 5, 0x19, 0x55];

/// How many octets the stream has.
const STREAM: usize = RECORDS * RECORD.len();

/// Returns the tables.
pub fn tables() -> &'static [Table] {
    &TABLES
}

/// The tables. A function that names them carries all of them through its proof, so [`tables`] alone does.
static TABLES: [Table; 10] = [
    // Values, beside a plain copy.
    Table {
        layout: Layout {
            title: "values of the library; the best of 5 rounds of 200 repetitions each",
            of: "value",
            width: 18,
            columns: &[
                Column("octets", 8, 0, Figure::Octets),
                Column("copy MB/s", 10, 0, Figure::Beside),
                Column("read MB/s", 10, 0, Figure::Megabytes(Work::Read)),
                Column("x copy", 7, 2, Figure::Times(Work::Read)),
                Column("mark MB/s", 10, 0, Figure::Megabytes(Work::Mark)),
                Column("x copy", 7, 2, Figure::Times(Work::Mark)),
                Column("write MB/s", 11, 0, Figure::Megabytes(Work::Write)),
                Column("x copy", 7, 2, Figure::Times(Work::Write)),
            ],
        },
        rounds: 5,
        count: 1,
        pieces: &[
            Piece {
                name: "octet string",
                calls: Calls::Each(Message::Octets),
                below: Some((0, Calls::Copy)),
                front: &[],
                runs: &[LARGEST],
            },
            Piece {
                name: "character string",
                calls: Calls::Each(Message::Text),
                below: Some((0, Calls::Copy)),
                front: &[],
                runs: &[LARGEST],
            },
            Piece {
                name: "bit string",
                calls: Calls::Each(Message::Bits),
                below: Some((0, Calls::Copy)),
                front: &[],
                runs: &[LARGEST],
            },
            Piece {
                name: "open, one string",
                calls: Calls::Each(Message::Open),
                below: Some((0, Calls::Copy)),
                front: &[],
                runs: &OPEN_STRING,
            },
            Piece {
                name: "open, short values",
                calls: Calls::Each(Message::Open),
                below: Some((0, Calls::Copy)),
                front: &[0x3E],
                runs: &[Run::Again(4_096, &SHORT), Run::Again(1, &[0x3F])],
            },
            Piece {
                name: "open, short values",
                calls: Calls::Each(Message::Open),
                below: Some((0, Calls::Copy)),
                front: &[0x3E],
                runs: &[Run::Again(65_536, &SHORT), Run::Again(1, &[0x3F])],
            },
        ],
    },
    // Services that are encoded, to a new vector each time.
    Table {
        layout: Layout {
            title: "services; the best of 200 repetitions of 1000 messages each",
            of: "service",
            width: 26,
            columns: &[
                Column("octets", 8, 0, Figure::Octets),
                Column("decode/s", 12, 0, Figure::Messages(Work::Read)),
                Column("mark/s", 12, 0, Figure::Messages(Work::Mark)),
                Column("encode/s", 12, 0, Figure::Messages(Work::Write)),
            ],
        },
        rounds: 1,
        count: 1_000,
        pieces: &SERVICES,
    },
    // The same services, appended to a vector that is kept.
    Table {
        layout: Layout {
            title: "services in a kept vector; the best of 200 repetitions of 1000 messages each",
            of: "kept",
            width: 26,
            columns: &[
                Column("octets", 8, 0, Figure::Octets),
                Column("append/s", 12, 0, Figure::MessagesBeside(Work::Write)),
            ],
        },
        rounds: 1,
        count: 1_000,
        pieces: &SERVICES,
    },
    // APDUs, beside their services alone: a request to read a property, an answer with twenty results, and a segment of a
    // request.
    Table {
        layout: Layout {
            title: "APDUs; the best of 200 repetitions of 1000 messages each; x: times as long as the service alone",
            of: "APDU",
            width: 26,
            columns: &LAYERS,
        },
        rounds: 1,
        count: 1_000,
        pieces: &[
            Piece {
                name: "ReadProperty",
                calls: Calls::Each(Message::Apdu),
                below: Some((4, Calls::Each(Message::Service(Kind::Confirmed, 12)))),
                front: &[0, 5, 1, 12],
                runs: &[Run::Again(1, &READ_PROPERTY)],
            },
            Piece {
                name: "ReadPropertyMultiple-ACK",
                calls: Calls::Each(Message::Apdu),
                below: Some((3, Calls::Each(Message::Service(Kind::ComplexAck, 14)))),
                front: &[0x30, 1, 14],
                runs: &RESULTS,
            },
            Piece {
                name: "segment, opaque service",
                calls: Calls::Each(Message::Apdu),
                below: Some((6, Calls::Each(Message::Service(Kind::Confirmed, 200)))),
                front: &[0x0C, 5, 1, 0, 16, 200],
                runs: &[Run::Contents(480)],
            },
        ],
    },
    // Frames, beside their APDUs alone: a request to read a property, and an answer with twenty results that another
    // network sends.
    Table {
        layout: Layout {
            title: "frames; the best of 200 repetitions of 1000 messages each; x: times as long as the APDU alone",
            of: "frame",
            width: 26,
            columns: &LAYERS,
        },
        rounds: 1,
        count: 1_000,
        pieces: &[
            Piece {
                name: "ReadProperty",
                calls: Calls::Each(Message::Frame),
                below: Some((2, Calls::Each(Message::Apdu))),
                front: &REQUEST_FRONT,
                runs: &[Run::Again(1, &READ_PROPERTY)],
            },
            Piece {
                name: "ReadPropertyMultiple-ACK",
                calls: Calls::Each(Message::Frame),
                below: Some((6, Calls::Each(Message::Apdu))),
                front: &ANSWER_FRONT,
                runs: &RESULTS,
            },
        ],
    },
    // The same frames checked, beside decoding them.
    Table {
        layout: Layout {
            title: "frames checked; the best of 200 repetitions of 1000 messages each; x: times as long as decoding",
            of: "check",
            width: 26,
            columns: &[
                Column("octets", 8, 0, Figure::Octets),
                Column("check/s", 12, 0, Figure::Messages(Work::Read)),
                Column("x", 8, 2, Figure::Times(Work::Read)),
            ],
        },
        rounds: 1,
        count: 1_000,
        pieces: &[
            Piece {
                name: "ReadProperty",
                calls: Calls::Check,
                below: Some((0, Calls::Each(Message::Frame))),
                front: &REQUEST_FRONT,
                runs: &[Run::Again(1, &READ_PROPERTY)],
            },
            Piece {
                name: "ReadPropertyMultiple-ACK",
                calls: Calls::Check,
                below: Some((0, Calls::Each(Message::Frame))),
                front: &ANSWER_FRONT,
                runs: &RESULTS,
            },
        ],
    },
    // A WriteProperty whose value is one string, beside a plain copy: the service, the APDU and the frame.
    Table {
        layout: Layout {
            title: "one string in a frame of 1048597 octets; the best of 200 repetitions each; x: times as long as a copy",
            of: "layer",
            width: 16,
            columns: &[
                Column("decode x", 9, 2, Figure::Times(Work::Read)),
                Column("mark x", 8, 2, Figure::Times(Work::Mark)),
                Column("append x", 8, 2, Figure::Times(Work::Write)),
            ],
        },
        rounds: 1,
        count: 1,
        pieces: &[
            Piece {
                name: "service",
                calls: Calls::Each(Message::Service(Kind::Confirmed, 15)),
                below: Some((0, Calls::Copy)),
                front: &[0x0C, 0, 0, 0, 5, 0x19, 0x55],
                runs: &OPEN_STRING,
            },
            Piece {
                name: "APDU",
                calls: Calls::Each(Message::Apdu),
                below: Some((0, Calls::Copy)),
                front: &[0, 5, 1, 15, 0x0C, 0, 0, 0, 5, 0x19, 0x55],
                runs: &OPEN_STRING,
            },
            Piece {
                name: "frame",
                calls: Calls::Each(Message::Frame),
                below: Some((0, Calls::Copy)),
                front: &LARGE_FRONT,
                runs: &OPEN_STRING,
            },
        ],
    },
    // The frame of that by `normalise_frame`.
    Table {
        layout: Layout {
            title: "the same frame, normalised; the best of 200 repetitions; x: times as long as a copy",
            of: "layer",
            width: 16,
            columns: &[Column("x", 9, 2, Figure::Times(Work::Read))],
        },
        rounds: 1,
        count: 1,
        pieces: &[Piece {
            name: "normalise_frame",
            calls: Calls::Normalise,
            below: Some((0, Calls::Copy)),
            front: &LARGE_FRONT,
            runs: &OPEN_STRING,
        }],
    },
    // The longest message that is cut, and its segments, beside a plain copy.
    Table {
        layout: Layout {
            title: "a message of 65535 octets in 256 segments; the best of 200 repetitions each",
            of: "work",
            width: 18,
            columns: &[
                Column("us", 10, 1, Figure::Microseconds),
                Column("MB/s", 10, 0, Figure::Megabytes(Work::Read)),
                Column("x copy", 7, 2, Figure::Times(Work::Read)),
            ],
        },
        rounds: 1,
        count: 1,
        pieces: &[
            Piece {
                name: "copy",
                calls: Calls::Copy,
                below: None,
                front: &[],
                runs: &[Run::Contents(65_535)],
            },
            Piece {
                name: "cut",
                calls: Calls::Cut,
                below: Some((0, Calls::Copy)),
                front: &[],
                runs: &[Run::Contents(65_535)],
            },
            Piece {
                name: "in order",
                calls: Calls::Join(Order::Forwards),
                below: Some((0, Calls::Copy)),
                front: &[],
                runs: &[Run::Contents(65_535)],
            },
            Piece {
                name: "backwards",
                calls: Calls::Join(Order::Backwards),
                below: Some((0, Calls::Copy)),
                front: &[],
                runs: &[Run::Contents(65_535)],
            },
        ],
    },
    // A stream of records, which an intake takes in by pieces, beside the whole of it as one piece.
    Table {
        layout: Layout {
            title: "a stream of 4096 records; the best of 200 repetitions each",
            of: "pieces",
            width: 18,
            columns: &[
                Column("us", 10, 1, Figure::Microseconds),
                Column("x whole", 7, 2, Figure::Times(Work::Read)),
            ],
        },
        rounds: 1,
        count: 1,
        pieces: &[
            Piece {
                name: "whole",
                calls: Calls::Feed(STREAM),
                below: None,
                front: &[],
                runs: &[Run::Again(RECORDS, &RECORD)],
            },
            Piece {
                name: "of 1,460 octets",
                calls: Calls::Feed(1_460),
                below: Some((0, Calls::Feed(STREAM))),
                front: &[],
                runs: &[Run::Again(RECORDS, &RECORD)],
            },
            Piece {
                name: "of one octet",
                calls: Calls::Feed(1),
                below: Some((0, Calls::Feed(STREAM))),
                front: &[],
                runs: &[Run::Again(RECORDS, &RECORD)],
            },
        ],
    },
];
