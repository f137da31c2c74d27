//! The nodes of an open value: one for each of its events, with the place of its contents.

ghost use Rattle.std.specs.Prelude.{◌≡◌, ◌≤◌, ◌<◌, ◌+◌, ◌++◌, ◌∷◌, [], ℕ, List, IsTrue, OnOk, length, slice_get, slice_set, vec_len};
ghost use Rattle.std.specs.Vec.{vec_capacity};
ghost use Rattle.bac_tag.specs.Spelling.{IsLeast};
ghost use Rattle.bac_value.specs.declared.prim.PrimitiveValue.{PrimitiveValue};
ghost use Rattle.bac_value.specs.PrimContents.{ContentsOf, IsWrittenOf, prim_written};
ghost use Rattle.bac_data.specs.declared.nodes.Node.{Node};
ghost use Rattle.bac_data.specs.Spells.{SpellsPrimitive};
ghost use Rattle.bac_data.specs.Events.{Event as EventOf, application};
ghost use Rattle.bac_data.specs.NodeEvents.{Lies, node_event, AreNodes, NodeFor, MayList};
ghost use Rattle.bac_data.specs.Reading.{item_event, IsItem};
ghost use Rattle.bac_data.specs.Walks.{event_of, IsPackedStep};

use crate::building::MAX_GROUPS;
use crate::walking::Event;
use arrayvec::ArrayVec;
use bac_tag::OutOfMemory;
use bac_value::layers::written_len_of;
use bac_value::{Boolean, Prim, PrimRef};
use std::alloc::Global;
use std::mem::size_of;

/// What is known of one event of a value. Contents lie in the canonical octets of the value: `len` octets from `start`
/// on. Numbers are those of the tags.
// The small fields are in front, so that they lie beside the tag of the enum.
#[derive(Clone, Copy, Debug)]
pub(crate) enum Node {
    /// An application Boolean.
    Boolean(bool),
    /// Another application primitive of the type with this number. Its contents are those that are written.
    Application { number: u8, len: u32, start: usize },
    /// A context primitive.
    Context { number: u8, len: u32, start: usize },
    /// A group begins. It ends at the node with the index `closing`, which is 0 while the group is open.
    Open { number: u8, closing: usize },
    /// The innermost open group ends.
    Close(u8),
}

const _: () = prove!(size_of::<Node>() == 16);

// Lists of nodes want a value for places that have none yet.
impl Default for Node {
    fn default() -> Node {
        Node::Close(0)
    }
}

/// Returns the event of a node, with its contents borrowed from the octets.
#[inline(always)]
pub(crate) fn event_at(octets: &[u8], node: Node) -> Event<'_>
    requires { Lies octets.now node }
    ensures event { event_of result ≡ node_event octets.now node }
    ensures packed { IsPackedStep result }
{
    match node {
        Node::Boolean(bit) => Event::App(PrimRef::Boolean(Boolean(bit))),
        Node::Application { number, len, start } => {
            let contents = &octets[start..start + len as usize];
            Event::App(PrimRef::of_contents(number, contents))
        }
        Node::Context { number, len, start } => {
            Event::Ctx(number, &octets[start..start + len as usize])
        }
        Node::Open { number, .. } => Event::Open(number),
        Node::Close(number) => Event::Close(number),
    }
}

/// Returns the node of an application primitive whose canonical octets end at `end`.
#[inline(always)]
pub(crate) fn primitive_node(prim: &Prim, end: usize) -> Node
    requires { (start : ℕ) × (octets : List ℕ) × IsLeast (SpellsPrimitive prim.now) octets × (end ≡ start + length octets) }
    ensures { NodeFor (application prim.now) end result }
{
    if let Prim::Boolean(value) = prim {
        return Node::Boolean(value.0);
    }
    let len = prim.written_len();
    Node::Application {
        number: prim.number(),
        len: len as u32,
        start: end - len,
    }
}

/// Returns how many octets are written for the value of an application primitive. `written` says whether its contents
/// are those.
#[inline(always)]
pub(crate) fn kept_len(number: u8, contents: &[u8], written: bool) -> usize
    requires number { number ≤ 12 }
    requires contents { (prim : PrimitiveValue) × ContentsOf number prim contents.now }
    requires written { IsTrue written → IsWrittenOf number contents.now }
    ensures { (prim : PrimitiveValue) → ContentsOf number prim contents.now → result ≡ length (prim_written prim) }
{
    if written {
        contents.len()
    } else {
        written_len_of(number, contents)
    }
}

/// How many nodes there is room for at least. Nearly all values have no more.
const ROOM: usize = 8;

/// Makes room for as many nodes again as there are, and at least for some.
#[cold]
#[inline(never)]
fn grow(nodes: &mut Vec<Node>) -> Result<(), OutOfMemory>
    ensures items { nodes.new.items ≡ nodes.old.items }
    ensures room { OnOk result (vec_len nodes.new < vec_capacity nodes.new) }
{
    nodes.reserve(nodes.len().max(ROOM))?;
    Ok(())
}

/// The nodes of a value that is being built or read.
#[derive(Debug, Drop)]
pub(crate) struct NodeList {
    /// One for each event so far.
    nodes: Vec<Node>,
    /// The indices of the openings of the open groups, the outermost first.
    groups: ArrayVec<usize, MAX_GROUPS>,
}

impl NodeList {
    /// Returns a list with no node.
    pub(crate) fn new(alloc: Global) -> NodeList
        ensures nodes { result.nodes.items ≡ [] }
        ensures groups { result.groups.items ≡ [] }
    {
        NodeList {
            nodes: Vec::new(alloc),
            groups: ArrayVec::new(),
        }
    }

    /// Makes room for one more node.
    ///
    /// # Errors
    /// `OutOfMemory` if memory is refused.
    #[inline(always)]
    pub(crate) fn reserve(&mut self) -> Result<(), OutOfMemory>
        ensures nodes { self.new.nodes.items ≡ self.old.nodes.items }
        ensures groups { self.new.groups.items ≡ self.old.groups.items }
        ensures room { OnOk result (vec_len self.new.nodes < vec_capacity self.new.nodes) }
    {
        if self.nodes.len() < self.nodes.capacity() {
            return Ok(());
        }
        grow(&mut self.nodes)
    }

    /// Appends a node.
    #[inline(always)]
    pub(crate) fn push(&mut self, node: Node)
        requires { vec_len self.old.nodes < vec_capacity self.old.nodes }
        ensures nodes { self.new.nodes.items ≡ self.old.nodes.items ++ node ∷ [] }
        ensures groups { self.new.groups.items ≡ self.old.groups.items }
    {
        self.nodes.push_reserved(node);
    }

    /// Returns how many groups are open.
    #[inline(always)]
    pub(crate) fn depth(&self) -> usize
        ensures { result ≡ length self.now.groups.items }
    {
        self.groups.len()
    }

    /// Begins a group.
    #[inline(always)]
    pub(crate) fn open(&mut self, number: u8)
        requires room { vec_len self.old.nodes < vec_capacity self.old.nodes }
        requires few { length self.old.groups.items < 32 }
        ensures nodes { self.new.nodes.items ≡ self.old.nodes.items ++ Node.Open number 0 ∷ [] }
        ensures groups { self.new.groups.items ≡ self.old.groups.items ++ length self.old.nodes.items ∷ [] }
    {
        self.groups.push(self.nodes.len());
        self.nodes.push_reserved(Node::Open { number, closing: 0 });
    }

    /// Ends the innermost open group, which has this number.
    #[inline(always)]
    pub(crate) fn close(&mut self, number: u8)
        requires room { vec_len self.old.nodes < vec_capacity self.old.nodes }
        requires some { (outer : List ℕ) × (index : ℕ) × (self.old.groups.items ≡ outer ++ index ∷ []) × (index < length self.old.nodes.items) }
        ensures { (outer : List ℕ) (index : ℕ) → self.old.groups.items ≡ outer ++ index ∷ [] → (self.new.groups.items ≡ outer) × (self.new.nodes.items ≡ slice_set self.old.nodes.items index (Node.Open number (length self.old.nodes.items)) ++ Node.Close number ∷ []) }
    {
        let closing = self.nodes.len();
        let last = self.groups.len() - 1;
        let index = self.groups[last];
        self.groups.pop();
        self.nodes.as_mut_slice()[index] = Node::Open { number, closing };
        self.nodes.push_reserved(Node::Close(number));
    }

    /// Returns the number of the innermost open group.
    #[inline(always)]
    pub(crate) fn innermost(&self) -> Option<u8>
        ensures { (es : List EventOf) (octets numbers : List ℕ) → AreNodes es octets self.now.nodes.items self.now.groups.items numbers → result ≡ slice_get numbers 0 }
    {
        if self.groups.is_empty() {
            return None;
        }
        let index = self.groups[self.groups.len() - 1];
        let nodes = self.nodes.as_slice();
        if index >= nodes.len() {
            return None;
        }
        match nodes[index] {
            Node::Open { number, .. } => Some(number),
            _ => None,
        }
    }

    /// Returns the nodes.
    #[inline(always)]
    pub(crate) fn into_nodes(self) -> Vec<Node>
        ensures { result.items ≡ self.nodes.items }
    {
        self.nodes
    }
}
