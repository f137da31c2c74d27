//! What a value holds.

ghost use Rattle.std.specs.Prelude.{◌≡◌, ◌≤◌, ◌<◌, IfOk, Some, length, map, slice_get, take};
ghost use Rattle.std.specs.List.{All};
ghost use Rattle.bac_data.specs.ShortNodes.{IsShort, wide_node};
ghost use Rattle.bac_data.specs.HeldLists.{octets_of, nodes_of, IsSound};

use crate::nodes::Node;
use crate::short_nodes::{FEW, SHORT, ShortNode, short, short_octets, wide};
use std::alloc::AllocError;
use std::mem::size_of;

/// The canonical octets of a value, and its nodes. If both are few, they lie in the value itself.
// The arrays begin at words, as the vectors do, so that a value is moved in words.
#[derive(Debug)]
pub(crate) enum Held {
    /// At most [`SHORT`] octets, and at most [`FEW`] nodes.
    Short {
        count: u8,
        len: u32,
        nodes: [ShortNode; FEW],
        octets: [u8; SHORT],
    },
    /// Any number of octets and nodes.
    Long {
        nodes: Vec<Node>,
        octets: Vec<u8>,
    },
}

const _: () = prove!(size_of::<Held>() == 56);

impl Drop for Held {
    #[inline(always)]
    fn drop(self) {
        match self {
            Held::Short {
                count: _,
                len: _,
                nodes: _,
                octets: _,
            } => {}
            Held::Long {
                nodes: _,
                octets: _,
            } => {}
        }
    }
}

/// Returns these nodes as short ones, at most [`FEW`]. After them the array is filled up.
fn short_nodes(nodes: &[Node]) -> [ShortNode; FEW]
    requires few { length nodes.now ≤ 6 }
    requires short { All IsShort nodes.now }
    ensures nodes { map wide_node (take (length nodes.now) result) ≡ nodes.now }
    ensures places { length result ≡ 6 }
{
    let mut few = [ShortNode::Close(0); FEW];
    for index in 0..nodes.len() {
        few[index] = short(nodes[index]);
    }
    few
}

impl Held {
    /// Returns what holds these lists. The call takes no memory.
    pub(crate) fn of_lists(octets: Vec<u8>, nodes: Vec<Node>) -> Held
        requires { length octets.items ≤ 24 → length nodes.items ≤ 6 → All IsShort nodes.items }
        ensures octets { octets_of result ≡ octets.items }
        ensures nodes { nodes_of result ≡ nodes.items }
        ensures sound { IsSound result }
    {
        if octets.len() > SHORT || nodes.len() > FEW {
            return Held::Long { nodes, octets };
        }
        Held::Short {
            count: nodes.len() as u8,
            len: octets.len() as u32,
            nodes: short_nodes(nodes.as_slice()),
            octets: short_octets(octets.as_slice()),
        }
    }

    /// Returns the canonical octets.
    #[inline(always)]
    pub(crate) fn octets(&self) -> &[u8]
        requires { IsSound self.now }
        ensures { result.now ≡ octets_of self.now }
    {
        match self {
            Held::Short { len, octets, .. } => &octets[..*len as usize],
            Held::Long { octets, .. } => octets.as_slice(),
        }
    }

    /// Returns how many nodes there are.
    #[inline(always)]
    pub(crate) fn count(&self) -> usize
        requires { IsSound self.now }
        ensures { result ≡ length (nodes_of self.now) }
    {
        match self {
            Held::Short { count, .. } => usize::from(*count),
            Held::Long { nodes, .. } => nodes.len(),
        }
    }

    /// Returns the node with this index.
    #[inline(always)]
    pub(crate) fn node(&self, index: usize) -> Node
        requires sound { IsSound self.now }
        requires within { index < length (nodes_of self.now) }
        ensures { slice_get (nodes_of self.now) index ≡ Some result }
    {
        match self {
            Held::Short { nodes, .. } => wide(nodes[index]),
            Held::Long { nodes, .. } => nodes.as_slice()[index],
        }
    }

    /// Returns a copy.
    ///
    /// # Errors
    /// `AllocError` if memory is refused.
    pub(crate) fn copied(&self) -> Result<Held, AllocError>
        requires { IsSound self.now }
        ensures octets { IfOk result (λ copy. octets_of copy ≡ octets_of self.now) }
        ensures nodes { IfOk result (λ copy. nodes_of copy ≡ nodes_of self.now) }
        ensures sound { IfOk result IsSound }
    {
        match self {
            Held::Short {
                count,
                len,
                nodes,
                octets,
            } => Ok(Held::Short {
                count: *count,
                len: *len,
                nodes: *nodes,
                octets: *octets,
            }),
            Held::Long { nodes, octets } => {
                let alloc = *octets.allocator();
                let octets = Vec::from_slice(alloc, octets.as_slice())?;
                let nodes = Vec::from_slice(alloc, nodes.as_slice())?;
                Ok(Held::Long { nodes, octets })
            }
        }
    }
}
