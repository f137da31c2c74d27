//! The names of fields.

ghost use Rattle.std.specs.Prelude.{◌≡◌, ◌≤◌, ◌<◌, IfSome, Some};
ghost use Rattle.bac_field_parts.specs.Names.{number_of, word_of};

/// What a field says. In the doc comments a word in code style is how the line of `show` begins the field. The numbers
/// never change.
#[derive(Clone, Copy, Debug, PartialEq, Eq)]
pub enum Name {
    // Names of the frame.
    /// The network priority of the frame, 0 to 3 (clause 6.2.2). `prio=`.
    NetworkPriority = 1,
    /// Whether a reply is expected: 0 or 1 (clause 6.2.2). `reply=`.
    ReplyExpected = 2,
    /// The destination: its network, with the address on it as contents. An address without octets is that of every
    /// device on the network. `dest=`.
    Destination = 3,
    /// The hop count of the destination (clause 6.2.2). `hops=`.
    HopCount = 4,
    /// The source: its network, with the address on it as contents. `src=`.
    Source = 5,

    // Names of the heads of APDUs (clause 20.1).
    /// A Confirmed-Request in one piece. `conf`.
    ConfirmedRequest = 10,
    /// An Unconfirmed-Request. `unconf`.
    UnconfirmedRequest = 11,
    /// A SimpleACK. `simple`.
    SimpleAck = 12,
    /// A ComplexACK in one piece. `ack`.
    ComplexAck = 13,
    /// A SegmentACK. `segack`.
    SegmentAck = 14,
    /// An Error. `error`.
    Error = 15,
    /// A Reject. `reject`.
    Reject = 16,
    /// An Abort. `abort`.
    Abort = 17,
    /// A segment of a Confirmed-Request. `conf-seg`.
    RequestSegment = 18,
    /// A segment of a ComplexACK. `ack-seg`.
    AckSegment = 19,
    /// The invoke id. `id=`.
    InvokeId = 20,
    /// Whether a segmented answer is accepted: 0 or 1. `sa=`.
    SegmentedAccepted = 21,
    /// How many segments of an answer are accepted, as the number 0 to 7 that encodes it. `segs=`.
    MaxSegments = 22,
    /// How long an APDU of the answer may be, as the number 0 to 15 that encodes it. `resp=`.
    MaxResponse = 23,
    /// The sequence number of a segment. `seq=`.
    Sequence = 24,
    /// The proposed or actual window, 1 to 127. `win=`.
    Window = 25,
    /// Whether more segments follow: 0 or 1. `more=`.
    More = 26,
    /// Whether a segment was received out of order: 0 or 1. `nak=`.
    Negative = 27,
    /// Whether the server sent it: 0 or 1. `srv=`.
    Server = 28,
    /// Why a request was rejected, a transaction aborted, or a frame not passed on. `reason=`.
    Reason = 29,
    /// The service choice, where no word names the service. `choice=`.
    Choice = 30,
    /// The octets of an opaque service, or the piece of a segment, as contents. `octets=`.
    Octets = 31,

    // Names of network messages (clause 6.4).
    /// A network message, with its message type. `net type=`.
    NetworkMessage = 40,
    /// The number of a network. `network=`.
    Network = 41,
    /// A list of networks begins. `networks=(`.
    Networks = 42,
    /// One network of a list.
    ListedNetwork = 43,
    /// How well a connection performs. `performance=`.
    Performance = 44,
    /// A routing table begins. `ports=(`.
    Ports = 45,
    /// The number of a port of a routing table. `id=`.
    PortId = 46,
    /// The information on a port, as contents. `info=`.
    PortInfo = 47,
    /// How long a connection is to stay, in minutes; 0 means until it is ended. `time=`.
    Time = 48,
    /// Whether the number of a network was configured or learned. `flag=`.
    Flag = 49,
    /// A vendor identifier. `vendor=`.
    Vendor = 50,
    /// The octets of a network message without a layout, as contents. `data=`.
    Data = 51,

    // Names of services (clause 21), each with its service choice.
    /// A ReadProperty or its answer. `ReadProperty`.
    ReadProperty = 60,
    /// A ReadPropertyMultiple or its answer. `ReadPropertyMultiple`.
    ReadPropertyMultiple = 61,
    /// A WriteProperty. `WriteProperty`.
    WriteProperty = 62,
    /// A WritePropertyMultiple. `WritePropertyMultiple`.
    WritePropertyMultiple = 63,
    /// A Who-Is. `Who-Is`.
    WhoIs = 64,
    /// An I-Am. `I-Am`.
    IAm = 65,
    /// A SubscribeCOV. `SubscribeCOV`.
    SubscribeCov = 66,
    /// A ConfirmedCOVNotification. `ConfirmedCOVNotification`.
    ConfirmedCovNotification = 67,
    /// An UnconfirmedCOVNotification. `UnconfirmedCOVNotification`.
    UnconfirmedCovNotification = 68,
    /// A service whose octets are kept as they are. Its choice is a field of its own. `opaque`.
    Opaque = 69,

    // Names of the parts of services.
    /// An object identifier, as its 32 bits: 10 for the type and 22 for the instance. `object=`.
    Object = 80,
    /// A property identifier. `property=`.
    Property = 81,
    /// The index of an element of an array. `index=`.
    Index = 82,
    /// The priority of a write, 1 to 16. `priority=`.
    Priority = 83,
    /// The number of the subscriber's process. `process=`.
    Process = 84,
    /// The device that sends a notification, as the 32 bits of its object identifier. `device=`.
    Device = 85,
    /// Whether notifications are to be confirmed: 0 or 1. `confirmed=`.
    Confirmed = 86,
    /// How many seconds a subscription is to last; 0 is without end. `lifetime=`.
    Lifetime = 87,
    /// How many seconds a subscription continues; 0 is without end. `remaining=`.
    Remaining = 88,
    /// The lowest instance that is sought. `low=`.
    Low = 89,
    /// The highest instance that is sought. `high=`.
    High = 90,
    /// How many octets of an APDU a device accepts. `apdu=`.
    MaxApdu = 91,
    /// Which segmentation a device supports. `segmentation=`.
    Segmentation = 92,
    /// The class of an error. `class=`.
    ErrorClass = 93,
    /// The code of an error. `code=`.
    ErrorCode = 94,

    // Names of structure: what begins a list, an item, a value or a group, and what ends it.
    /// A list of access specifications begins. `specs=(`.
    Specifications = 110,
    /// A list of references to properties begins. `properties=(`.
    Properties = 111,
    /// A list of results begins. `results=(`.
    Results = 112,
    /// A list of values of properties begins. `values=(`.
    Values = 113,
    /// A list ends. `)`.
    ListEnd = 114,
    /// An item of a list begins. `(`.
    Item = 115,
    /// An item of a list ends. `)`.
    ItemEnd = 116,
    /// An open value begins. `value={`.
    Value = 117,
    /// An open value ends. `}`.
    ValueEnd = 118,
    /// Why a property has no value begins: the class and the code of an error. `error=(`.
    PropertyError = 119,
    /// Why a property has no value ends. `)`.
    PropertyErrorEnd = 120,
    /// A group with this number begins in an open value. `[N]{`.
    Group = 121,
    /// A group ends. It has this number. `}`.
    GroupEnd = 122,

    // Names of the elements of open values, by their types (clause 20.2).
    /// A Null. `null`.
    Null = 130,
    /// A Boolean: 0 or 1. `true` or `false`.
    Boolean = 131,
    /// An Unsigned Integer. `u:`.
    Unsigned = 132,
    /// A Signed Integer, as 64 bits of two's complement. `i:`.
    Signed = 133,
    /// The 32 bits of a Real. `r:`.
    Real = 134,
    /// The 64 bits of a Double. `d:`.
    Double = 135,
    /// An Octet String: its octets as contents. `o:`.
    OctetString = 136,
    /// A Character String: the number of its character set, and the octets after that number as contents. `s:`.
    CharacterString = 137,
    /// A Bit String: how many bits, and the octets that hold them as contents, each from bit 7 downwards. Unused bits
    /// are 0. `b:`.
    BitString = 138,
    /// An Enumerated. `e:`.
    Enumerated = 139,
    /// A Date: its four octets as contents. `D:`.
    Date = 140,
    /// A Time: its four octets as contents. `T:`.
    TimeOfDay = 141,
    /// An object identifier, as its 32 bits. `id:`.
    ObjectIdentifier = 142,
    /// A context primitive: the number of its tag, and its octets as contents. `[N]`.
    ContextPrimitive = 143,
}

impl Name {
    /// Returns its number.
    #[inline(always)]
    pub fn number(self) -> u32
        ensures { result ≡ number_of self }
    {
        self as u32
    }

    /// Returns the name with this number, or None.
    #[inline(always)]
    pub fn of_number(number: u32) -> Option<Name>
        ensures some { (name : Name) → number ≡ number_of name → result ≡ Some name }
        ensures number { IfSome result (λ name. number_of name ≡ number) }
    {
        match number {
            0..=39 => head_of_number(number),
            40..=59 => message_of_number(number),
            60..=109 => service_of_number(number),
            _ => value_of_number(number),
        }
    }

    /// Returns its word: what the line has before the `=`, `(`, `{` or `:` of the field. A field that has no word there
    /// has one that says what it is.
    // One match, so that a name without a word is an error.
    pub fn word(self) -> &'static str
        ensures { result.now ≡ word_of self }
    {
        match self {
            Name::NetworkPriority => "prio",
            Name::ReplyExpected => "reply",
            Name::Destination => "dest",
            Name::HopCount => "hops",
            Name::Source => "src",
            Name::ConfirmedRequest => "conf",
            Name::UnconfirmedRequest => "unconf",
            Name::SimpleAck => "simple",
            Name::ComplexAck => "ack",
            Name::SegmentAck => "segack",
            Name::Error => "error",
            Name::Reject => "reject",
            Name::Abort => "abort",
            Name::RequestSegment => "conf-seg",
            Name::AckSegment => "ack-seg",
            Name::InvokeId => "id",
            Name::SegmentedAccepted => "sa",
            Name::MaxSegments => "segs",
            Name::MaxResponse => "resp",
            Name::Sequence => "seq",
            Name::Window => "win",
            Name::More => "more",
            Name::Negative => "nak",
            Name::Server => "srv",
            Name::Reason => "reason",
            Name::Choice => "choice",
            Name::Octets => "octets",
            Name::NetworkMessage => "net",
            Name::Network => "network",
            Name::Networks => "networks",
            Name::ListedNetwork => "network",
            Name::Performance => "performance",
            Name::Ports => "ports",
            Name::PortId => "id",
            Name::PortInfo => "info",
            Name::Time => "time",
            Name::Flag => "flag",
            Name::Vendor => "vendor",
            Name::Data => "data",
            Name::ReadProperty => "ReadProperty",
            Name::ReadPropertyMultiple => "ReadPropertyMultiple",
            Name::WriteProperty => "WriteProperty",
            Name::WritePropertyMultiple => "WritePropertyMultiple",
            Name::WhoIs => "Who-Is",
            Name::IAm => "I-Am",
            Name::SubscribeCov => "SubscribeCOV",
            Name::ConfirmedCovNotification => "ConfirmedCOVNotification",
            Name::UnconfirmedCovNotification => "UnconfirmedCOVNotification",
            Name::Opaque => "opaque",
            Name::Object => "object",
            Name::Property => "property",
            Name::Index => "index",
            Name::Priority => "priority",
            Name::Process => "process",
            Name::Device => "device",
            Name::Confirmed => "confirmed",
            Name::Lifetime => "lifetime",
            Name::Remaining => "remaining",
            Name::Low => "low",
            Name::High => "high",
            Name::MaxApdu => "apdu",
            Name::Segmentation => "segmentation",
            Name::ErrorClass => "class",
            Name::ErrorCode => "code",
            Name::Specifications => "specs",
            Name::Properties => "properties",
            Name::Results => "results",
            Name::Values => "values",
            Name::ListEnd => "end",
            Name::Item => "item",
            Name::ItemEnd => "end",
            Name::Value => "value",
            Name::ValueEnd => "end",
            Name::PropertyError => "error",
            Name::PropertyErrorEnd => "end",
            Name::Group => "group",
            Name::GroupEnd => "end",
            Name::Null => "null",
            Name::Boolean => "boolean",
            Name::Unsigned => "u",
            Name::Signed => "i",
            Name::Real => "r",
            Name::Double => "d",
            Name::OctetString => "o",
            Name::CharacterString => "s",
            Name::BitString => "b",
            Name::Enumerated => "e",
            Name::Date => "D",
            Name::TimeOfDay => "T",
            Name::ObjectIdentifier => "id",
            Name::ContextPrimitive => "context",
        }
    }
}

/// Returns the name of the frame, or of the head of an APDU with this number, which is below 40, or None.
#[inline(always)]
fn head_of_number(number: u32) -> Option<Name>
    ensures some { number < 40 → (name : Name) → number ≡ number_of name → result ≡ Some name }
    ensures number { IfSome result (λ name. number_of name ≡ number) }
{
    match number {
        1 => Some(Name::NetworkPriority),
        2 => Some(Name::ReplyExpected),
        3 => Some(Name::Destination),
        4 => Some(Name::HopCount),
        5 => Some(Name::Source),
        10 => Some(Name::ConfirmedRequest),
        11 => Some(Name::UnconfirmedRequest),
        12 => Some(Name::SimpleAck),
        13 => Some(Name::ComplexAck),
        14 => Some(Name::SegmentAck),
        15 => Some(Name::Error),
        16 => Some(Name::Reject),
        17 => Some(Name::Abort),
        18 => Some(Name::RequestSegment),
        19 => Some(Name::AckSegment),
        20 => Some(Name::InvokeId),
        21 => Some(Name::SegmentedAccepted),
        22 => Some(Name::MaxSegments),
        23 => Some(Name::MaxResponse),
        24 => Some(Name::Sequence),
        25 => Some(Name::Window),
        26 => Some(Name::More),
        27 => Some(Name::Negative),
        28 => Some(Name::Server),
        29 => Some(Name::Reason),
        30 => Some(Name::Choice),
        31 => Some(Name::Octets),
        _ => None,
    }
}

/// Returns the name of a network message with this number, which is 40 to 59, or None.
#[inline(always)]
fn message_of_number(number: u32) -> Option<Name>
    ensures some { (40 ≤ number) × (number < 60) → (name : Name) → number ≡ number_of name → result ≡ Some name }
    ensures number { IfSome result (λ name. number_of name ≡ number) }
{
    match number {
        40 => Some(Name::NetworkMessage),
        41 => Some(Name::Network),
        42 => Some(Name::Networks),
        43 => Some(Name::ListedNetwork),
        44 => Some(Name::Performance),
        45 => Some(Name::Ports),
        46 => Some(Name::PortId),
        47 => Some(Name::PortInfo),
        48 => Some(Name::Time),
        49 => Some(Name::Flag),
        50 => Some(Name::Vendor),
        51 => Some(Name::Data),
        _ => None,
    }
}

/// Returns the name of a service or of one of its parts with this number, which is 60 to 109, or None.
#[inline(always)]
fn service_of_number(number: u32) -> Option<Name>
    ensures some { (60 ≤ number) × (number < 110) → (name : Name) → number ≡ number_of name → result ≡ Some name }
    ensures number { IfSome result (λ name. number_of name ≡ number) }
{
    match number {
        60 => Some(Name::ReadProperty),
        61 => Some(Name::ReadPropertyMultiple),
        62 => Some(Name::WriteProperty),
        63 => Some(Name::WritePropertyMultiple),
        64 => Some(Name::WhoIs),
        65 => Some(Name::IAm),
        66 => Some(Name::SubscribeCov),
        67 => Some(Name::ConfirmedCovNotification),
        68 => Some(Name::UnconfirmedCovNotification),
        69 => Some(Name::Opaque),
        80 => Some(Name::Object),
        81 => Some(Name::Property),
        82 => Some(Name::Index),
        83 => Some(Name::Priority),
        84 => Some(Name::Process),
        85 => Some(Name::Device),
        86 => Some(Name::Confirmed),
        87 => Some(Name::Lifetime),
        88 => Some(Name::Remaining),
        89 => Some(Name::Low),
        90 => Some(Name::High),
        91 => Some(Name::MaxApdu),
        92 => Some(Name::Segmentation),
        93 => Some(Name::ErrorClass),
        94 => Some(Name::ErrorCode),
        _ => None,
    }
}

/// Returns the name of structure, or of an element of an open value with this number, which is 110 and above, or None.
#[inline(always)]
fn value_of_number(number: u32) -> Option<Name>
    ensures some { 110 ≤ number → (name : Name) → number ≡ number_of name → result ≡ Some name }
    ensures number { IfSome result (λ name. number_of name ≡ number) }
{
    match number {
        110 => Some(Name::Specifications),
        111 => Some(Name::Properties),
        112 => Some(Name::Results),
        113 => Some(Name::Values),
        114 => Some(Name::ListEnd),
        115 => Some(Name::Item),
        116 => Some(Name::ItemEnd),
        117 => Some(Name::Value),
        118 => Some(Name::ValueEnd),
        119 => Some(Name::PropertyError),
        120 => Some(Name::PropertyErrorEnd),
        121 => Some(Name::Group),
        122 => Some(Name::GroupEnd),
        130 => Some(Name::Null),
        131 => Some(Name::Boolean),
        132 => Some(Name::Unsigned),
        133 => Some(Name::Signed),
        134 => Some(Name::Real),
        135 => Some(Name::Double),
        136 => Some(Name::OctetString),
        137 => Some(Name::CharacterString),
        138 => Some(Name::BitString),
        139 => Some(Name::Enumerated),
        140 => Some(Name::Date),
        141 => Some(Name::TimeOfDay),
        142 => Some(Name::ObjectIdentifier),
        143 => Some(Name::ContextPrimitive),
        _ => None,
    }
}
