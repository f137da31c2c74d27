//! A field.

/// A part of the line of a frame: what it says, and where its octets are in the canonical octets of the frame.
///
/// The octets from `place` on are the head of the field, such as a tag, and after it the contents.
#[repr(C)]
#[derive(Clone, Copy, Debug, PartialEq, Eq)]
pub struct Field {
    /// The number of its [`Name`](crate::Name).
    pub name: u32,
    /// The number that it says, or 0 if it says none.
    pub number: u64,
    /// The offset of its first octet, counted from 0.
    pub place: usize,
    /// How many octets its head has.
    pub head: usize,
    /// How many octets its contents have.
    pub length: usize,
}
