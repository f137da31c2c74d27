//! The nodes of a value that is being read.

ghost use Rattle.std.specs.Prelude.{◌≡◌, ◌≤◌, ◌<◌, ◌+◌, ◌++◌, ◌∷◌, ◌↔◌, ℕ, List, [], IsTrue, OnOk, Some, length, slice_get, slice_set, take, vec_len};
ghost use Rattle.std.specs.Vec.{vec_capacity};
ghost use Rattle.bac_data.specs.declared.nodes.Node.{Node};
ghost use Rattle.bac_data.specs.Building.{closing_number};
ghost use Rattle.bac_data.specs.Events.{Event, opening, closing};
ghost use Rattle.bac_data.specs.HeldLists.{octets_of, nodes_of, IsSound};
ghost use Rattle.bac_data.specs.Listings.{all_nodes, listed_nodes, IsSoundListing, SameGroups, Linked, Lists, MayAdd};
ghost use Rattle.bac_data.specs.Reading.{item_event, IsItem};
ghost use Rattle.bac_data.specs.ShortNodes.{IsShort};

use crate::building::MAX_GROUPS;
use crate::held::Held;
use crate::items::Item;
use crate::nodes::{Node, kept_len};
use crate::short_nodes::{FEW, SHORT, ShortNode, short, wide};
use bac_tag::OutOfMemory;
use std::alloc::Global;

/// How many nodes there is room for at least, once they are many.
const ROOM: usize = 16;

/// The nodes of the events so far, and which groups are open. The node of an open group has the index of the group
/// around it in the place of that of its closing.
#[derive(Drop)]
pub(crate) struct Listing {
    /// The nodes, as long as there are at most [`FEW`] and their octets are at most [`SHORT`].
    few: [ShortNode; FEW],
    /// How many of these there are. It is [`FEW`] once there are many.
    count: usize,
    /// All nodes, once they are many. Until then there is none.
    many: Vec<Node>,
    /// The index of the opening of the innermost open group, or 0.
    innermost: usize,
    /// How many groups are open.
    depth: usize,
    /// The number that ends the innermost open group, or the value if none is open.
    closing: u8,
    /// The number that ends the value.
    number: u8,
}

/// Makes room for one more node among the many, which begin with the few.
#[cold]
#[inline(never)]
fn grow(few: &[ShortNode], many: &mut Vec<Node>) -> Result<(), OutOfMemory>
    requires { length few.now ≤ 6 }
    ensures nodes { OnOk result (many.new.items ≡ all_nodes few.now many.old.items) }
    ensures room { OnOk result (vec_len many.new < vec_capacity many.new) }
{
    if !many.is_empty() {
        many.reserve(1)?;
        return Ok(());
    }
    many.reserve(ROOM)?;
    for index in 0..few.len() {
        many.push_reserved(wide(few[index]));
    }
    Ok(())
}

impl Listing {
    /// Returns no nodes, for a value with this number.
    #[inline(always)]
    pub(crate) fn new(alloc: Global, number: u8) -> Listing
        ensures { Lists number result [] [] [] }
    {
        Listing {
            few: [ShortNode::Close(0); FEW],
            count: 0,
            many: Vec::new(alloc),
            innermost: 0,
            depth: 0,
            closing: number,
            number,
        }
    }

    /// Returns true if the nodes are few, and their octets short.
    #[inline(always)]
    pub(crate) fn are_few(&self) -> bool
        ensures { IsTrue result ↔ (self.now.many.items ≡ []) }
    {
        self.many.is_empty()
    }

    /// Returns true if no group is open.
    #[inline(always)]
    pub(crate) fn is_closed(&self) -> bool
        ensures { IsTrue result ↔ (self.now.depth ≡ 0) }
    {
        self.depth == 0
    }

    /// Returns whether another group may begin, and the number that ends the innermost open group, or the value if none
    /// is open.
    #[inline(always)]
    pub(crate) fn place(&self) -> (bool, u8)
        ensures room { IsTrue result.0 ↔ (self.now.depth < 32) }
        ensures closing { result.1 ≡ self.now.closing }
    {
        (self.depth < MAX_GROUPS, self.closing)
    }

    /// Returns how many nodes there are.
    #[inline(always)]
    fn len(&self) -> usize
        requires { IsSoundListing self.now }
        ensures { result ≡ length (listed_nodes self.now) }
    {
        if self.many.is_empty() {
            self.count
        } else {
            self.many.len()
        }
    }

    /// Returns the node with this index.
    #[inline(always)]
    fn node(&self, index: usize) -> Node
        requires sound { IsSoundListing self.now }
        requires within { index < length (listed_nodes self.now) }
        ensures { slice_get (listed_nodes self.now) index ≡ Some result }
    {
        if self.many.is_empty() {
            wide(self.few[index])
        } else {
            self.many.as_slice()[index]
        }
    }

    /// Puts a node in the place of the one with this index.
    #[inline(always)]
    fn set(&mut self, index: usize, node: Node)
        requires sound { IsSoundListing self.old }
        requires within { index < length (listed_nodes self.old) }
        requires short { self.old.many.items ≡ [] → IsShort node }
        ensures nodes { listed_nodes self.new ≡ slice_set (listed_nodes self.old) index node }
        ensures sound { IsSoundListing self.new }
        ensures few { self.new.many.items ≡ [] → self.old.many.items ≡ [] }
        ensures groups { SameGroups self.old self.new }
    {
        if self.many.is_empty() {
            self.few[index] = short(node);
        } else {
            self.many.as_mut_slice()[index] = node;
        }
    }

    /// Appends a node of an event whose octets end at `end`.
    ///
    /// # Errors
    /// `OutOfMemory` if memory is refused.
    #[inline(always)]
    fn push(&mut self, node: Node, end: usize) -> Result<(), OutOfMemory>
        requires sound { IsSoundListing self.old }
        requires short { self.old.count < 6 → end ≤ 24 → IsShort node }
        ensures nodes { OnOk result (listed_nodes self.new ≡ listed_nodes self.old ++ node ∷ []) }
        ensures sound { OnOk result (IsSoundListing self.new) }
        ensures few { OnOk result (self.new.many.items ≡ [] → end ≤ 24) }
        ensures groups { SameGroups self.old self.new }
    {
        if self.count < FEW && end <= SHORT {
            self.few[self.count] = short(node);
            self.count += 1;
            return Ok(());
        }
        if self.many.is_empty() || self.many.len() >= self.many.capacity() {
            grow(&self.few[..self.count], &mut self.many)?;
            self.count = FEW;
        }
        self.many.push_reserved(node);
        Ok(())
    }

    /// Returns the number of the opening with this index, and the index that it has.
    #[inline(always)]
    fn opening_at(&self, index: usize) -> (u8, usize)
        requires sound { IsSoundListing self.now }
        requires some { (number : ℕ) × (closing : ℕ) × (slice_get (listed_nodes self.now) index ≡ Some (Node.Open number closing)) }
        ensures { slice_get (listed_nodes self.now) index ≡ Some (Node.Open result.0 result.1) }
    {
        match self.node(index) {
            Node::Open { number, closing } => (number, closing),
            _ => unreachable!(),
        }
    }

    /// Returns the number that ends the innermost open group, or the value if none is open.
    #[inline(always)]
    fn number_of_innermost(&self) -> u8
        requires sound { IsSoundListing self.now }
        requires linked { (indices : List ℕ) × (numbers : List ℕ) × (self.now.depth ≡ length numbers) × Linked (listed_nodes self.now) indices numbers self.now.innermost }
        ensures { (indices numbers : List ℕ) → self.now.depth ≡ length numbers → Linked (listed_nodes self.now) indices numbers self.now.innermost → result ≡ closing_number self.now.number numbers }
    {
        if self.depth == 0 {
            return self.number;
        }
        let (number, _) = self.opening_at(self.innermost);
        number
    }

    /// Begins a group with this number.
    ///
    /// # Errors
    /// `OutOfMemory` if memory is refused.
    #[inline(always)]
    fn open(&mut self, number: u8, end: usize) -> Result<(), OutOfMemory>
        requires may { (value : ℕ) × (es : List Event) × (octets : List ℕ) × (more : List ℕ) × (before : List ℕ) × (behind : List ℕ) × MayAdd value (opening number) end self.old es octets more before behind }
        ensures { OnOk result ((value : ℕ) (es : List Event) (octets more before behind : List ℕ) → MayAdd value (opening number) end self.old es octets more before behind → Lists value self.new (es ++ opening number ∷ []) (octets ++ more) behind) }
    {
        let outer = self.innermost;
        self.innermost = self.len();
        self.depth += 1;
        self.closing = number;
        let node = Node::Open {
            number,
            closing: outer,
        };
        self.push(node, end)
    }

    /// Ends the innermost open group, which has this number.
    ///
    /// # Errors
    /// `OutOfMemory` if memory is refused.
    #[inline(always)]
    fn close(&mut self, number: u8, end: usize) -> Result<(), OutOfMemory>
        requires may { (value : ℕ) × (es : List Event) × (octets : List ℕ) × (more : List ℕ) × (before : List ℕ) × (behind : List ℕ) × MayAdd value (closing number) end self.old es octets more before behind }
        ensures { OnOk result ((value : ℕ) (es : List Event) (octets more before behind : List ℕ) → MayAdd value (closing number) end self.old es octets more before behind → Lists value self.new (es ++ closing number ∷ []) (octets ++ more) behind) }
    {
        let (_, outer) = self.opening_at(self.innermost);
        let node = Node::Open {
            number,
            closing: self.len(),
        };
        self.set(self.innermost, node);
        self.innermost = outer;
        self.depth -= 1;
        self.closing = self.number_of_innermost();
        self.push(Node::Close(number), end)
    }

    /// Appends the node of an item whose canonical octets end at `end`.
    ///
    /// # Errors
    /// `OutOfMemory` if memory is refused.
    #[inline(always)]
    pub(crate) fn add(&mut self, item: Item<'_>, end: usize) -> Result<(), OutOfMemory>
        requires item { IsItem item }
        requires may { (value : ℕ) × (es : List Event) × (octets : List ℕ) × (more : List ℕ) × (before : List ℕ) × (behind : List ℕ) × MayAdd value (item_event item) end self.old es octets more before behind }
        ensures { OnOk result ((value : ℕ) (es : List Event) (octets more before behind : List ℕ) → MayAdd value (item_event item.entry) end self.old es octets more before behind → Lists value self.new (es ++ item_event item.entry ∷ []) (octets ++ more) behind) }
    {
        match item {
            Item::Boolean(bit) => self.push(Node::Boolean(bit), end),
            Item::Application {
                number,
                contents,
                written,
            } => {
                let len = kept_len(number, contents, written);
                let node = Node::Application {
                    number,
                    len: len as u32,
                    start: end - len,
                };
                self.push(node, end)
            }
            Item::Context { number, octets } => {
                let node = Node::Context {
                    number,
                    len: octets.len() as u32,
                    start: end - octets.len(),
                };
                self.push(node, end)
            }
            Item::Open(number) => self.open(number, end),
            Item::Close(number) => self.close(number, end),
        }
    }

    /// Returns what holds these nodes, which are few, and the first `len` of these octets.
    #[inline(always)]
    pub(crate) fn hold(self, octets: [u8; SHORT], len: usize) -> Held
        requires sound { IsSoundListing self }
        requires few { self.many.items ≡ [] }
        requires len { len ≤ 24 }
        ensures octets { octets_of result ≡ take len octets }
        ensures nodes { nodes_of result ≡ listed_nodes self }
        ensures sound { IsSound result }
    {
        let nodes = self.few;
        Held::Short {
            count: self.count as u8,
            len: len as u32,
            nodes,
            octets,
        }
    }

    /// Returns what holds these nodes, which are many, and these octets.
    #[inline(always)]
    pub(crate) fn hold_many(self, octets: Vec<u8>) -> Held
        requires { self.many.items ≡ [] → ⊥ }
        ensures octets { octets_of result ≡ octets.items }
        ensures nodes { nodes_of result ≡ listed_nodes self }
        ensures sound { IsSound result }
    {
        Held::Long {
            nodes: self.many,
            octets,
        }
    }
}
