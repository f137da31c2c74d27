//! The nodes of a short value.

ghost use Rattle.std.specs.Prelude.{◌≡◌, ◌≤◌, ◌+◌, length, take};
ghost use Rattle.bac_data.specs.ShortNodes.{wide_node, IsShort};

use crate::nodes::Node;
use std::mem::size_of;

/// How many nodes a value holds in itself at most. They then need no memory.
pub(crate) const FEW: usize = 6;

/// How many octets a value holds in itself at most. Most values have no more, and no more nodes than [`FEW`].
pub(crate) const SHORT: usize = 24;

/// A node of a value of at most [`SHORT`] octets and at most [`FEW`] nodes.
#[derive(Clone, Copy, Debug)]
pub(crate) enum ShortNode {
    /// An application Boolean.
    Boolean(bool),
    /// Another application primitive of the type with this number. Its contents are those that are written.
    Application { number: u8, len: u8, start: u8 },
    /// A context primitive.
    Context { number: u8, len: u8, start: u8 },
    /// A group begins. It ends at the node with the index `closing`.
    Open { number: u8, closing: u8 },
    /// The innermost open group ends.
    Close(u8),
}

const _: () = prove!(size_of::<ShortNode>() == 4);

/// Returns the node that a short one stands for.
#[inline(always)]
pub(crate) fn wide(node: ShortNode) -> Node
    ensures { result ≡ wide_node node }
{
    match node {
        ShortNode::Boolean(bit) => Node::Boolean(bit),
        ShortNode::Application { number, len, start } => Node::Application {
            number,
            len: u32::from(len),
            start: usize::from(start),
        },
        ShortNode::Context { number, len, start } => Node::Context {
            number,
            len: u32::from(len),
            start: usize::from(start),
        },
        ShortNode::Open { number, closing } => Node::Open {
            number,
            closing: usize::from(closing),
        },
        ShortNode::Close(number) => Node::Close(number),
    }
}

/// Returns the short node that stands for this one.
#[inline(always)]
pub(crate) fn short(node: Node) -> ShortNode
    requires { IsShort node }
    ensures { wide_node result ≡ node }
{
    match node {
        Node::Boolean(bit) => ShortNode::Boolean(bit),
        Node::Application { number, len, start } => ShortNode::Application {
            number,
            len: len as u8,
            start: start as u8,
        },
        Node::Context { number, len, start } => ShortNode::Context {
            number,
            len: len as u8,
            start: start as u8,
        },
        Node::Open { number, closing } => ShortNode::Open {
            number,
            closing: closing as u8,
        },
        Node::Close(number) => ShortNode::Close(number),
    }
}

/// Copies `size` octets from the front and as many from the end. These are all of them.
#[inline(always)]
fn copy_ends(room: &mut [u8], octets: &[u8], size: usize)
    requires room { length room.old ≡ length octets.now }
    requires some { size ≤ length octets.now }
    requires all { length octets.now ≤ size + size }
    ensures { room.new ≡ octets.now }
{
    let rest = octets.len() - size;
    room[..size].copy_from_slice(&octets[..size]);
    room[rest..].copy_from_slice(&octets[rest..]);
}

/// Copies the octets, at most [`SHORT`], to a room of as many.
// Two copies of a size that is known take fewer steps than one of any size.
#[inline(always)]
pub(crate) fn copy_short(room: &mut [u8], octets: &[u8])
    requires room { length room.old ≡ length octets.now }
    requires short { length octets.now ≤ 24 }
    ensures { room.new ≡ octets.now }
{
    match octets.len() {
        16.. => copy_ends(room, octets, 16),
        8.. => copy_ends(room, octets, 8),
        4.. => copy_ends(room, octets, 4),
        2.. => copy_ends(room, octets, 2),
        1 => room[0] = octets[0],
        _ => {}
    }
}

/// Returns an array that begins with these octets, at most [`SHORT`].
#[inline(always)]
pub(crate) fn short_octets(octets: &[u8]) -> [u8; SHORT]
    requires { length octets.now ≤ 24 }
    ensures octets { take (length octets.now) result ≡ octets.now }
    ensures places { length result ≡ 24 }
{
    let mut short = [0; SHORT];
    copy_short(&mut short[..octets.len()], octets);
    short
}
