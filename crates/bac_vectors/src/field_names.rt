//! The words for the names of fields: the column "In C" of the table in section 8.4 of docs/FORMATS.md, in lower case.

use bac_tables::place_of;

/// A line for each name: its number and its word. Other lines say what the names after them are of.
static NAMES: &str = "
    Frame.
    1 network_priority
    2 reply_expected
    3 destination
    4 hop_count
    5 source

    APDU heads.
    10 confirmed_request
    11 unconfirmed_request
    12 simple_ack
    13 complex_ack
    14 segment_ack
    15 error
    16 reject
    17 abort
    18 request_segment
    19 ack_segment
    20 invoke_id
    21 segmented_accepted
    22 max_segments
    23 max_response
    24 sequence
    25 window
    26 more
    27 negative
    28 server
    29 reason
    30 choice
    31 octets

    Network messages.
    40 network_message
    41 network
    42 networks
    43 listed_network
    44 performance
    45 ports
    46 port_id
    47 port_info
    48 time
    49 flag
    50 vendor
    51 data

    Services.
    60 read_property
    61 read_property_multiple
    62 write_property
    63 write_property_multiple
    64 who_is
    65 i_am
    66 subscribe_cov
    67 confirmed_cov_notification
    68 unconfirmed_cov_notification
    69 opaque

    Parts of services.
    80 object
    81 property
    82 index
    83 priority
    84 process
    85 device
    86 confirmed
    87 lifetime
    88 remaining
    89 low
    90 high
    91 max_apdu
    92 segmentation
    93 error_class
    94 error_code

    Structure.
    110 specifications
    111 properties
    112 results
    113 values
    114 list_end
    115 item
    116 item_end
    117 value
    118 value_end
    119 property_error
    120 property_error_end
    121 group
    122 group_end

    Elements of open values.
    130 null
    131 boolean
    132 unsigned
    133 signed
    134 real
    135 double
    136 octet_string
    137 character_string
    138 bit_string
    139 enumerated
    140 date
    141 time_of_day
    142 object_identifier
    143 context_primitive
";

/// Returns the number of the name with this word. A word that is a number is that of a name that the table need not have.
pub fn name_of(word: &str) -> Option<u32> {
    for line in NAMES.lines() {
        if let Some((number, name)) = line.trim().split_once(" ") {
            if name == word {
                return u32::try_from(place_of(number).ok()?).ok();
            }
        }
    }
    u32::try_from(place_of(word).ok()?).ok()
}

/// Returns true if fields with this name have contents: the column "Its contents" of the table.
pub fn has_contents(name: u32) -> bool {
    matches!(
        name,
        3 | 5 | 31 | 47 | 51 | 136 | 137 | 138 | 140 | 141 | 143
    )
}

/// Returns true if a field with this name may have any number: the names of Unsigned, Signed and Double.
pub fn has_any_number(name: u32) -> bool {
    matches!(name, 132 | 133 | 135)
}

/// Returns the word for the name with this number. None if the table has no such name.
pub fn word_of(name: u32) -> Option<&'static str> {
    for line in NAMES.lines() {
        if let Some((number, word)) = line.trim().split_once(" ") {
            if place_of(number).ok() == Some(name as usize) {
                return Some(word);
            }
        }
    }
    None
}
