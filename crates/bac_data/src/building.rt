//! Building an open value, event by event.

ghost use Rattle.std.specs.Prelude.{◌≡◌, ◌≢◌, ◌<◌, ◌↔◌, ◌⊎◌, ℕ, [], ◌∷◌, ◌++◌, length, IfOk, IfErr, IsOk, OnOk, OnErr, IsErrOf};
ghost use Rattle.bac_data.specs.Events.{application, contextual, opening, closing, events};
ghost use Rattle.bac_data.specs.Building.{HasOpen, IsInnermost};

use crate::build_faults::BuildFault;
use crate::nodes::{Node, NodeList, primitive_node};
use crate::open_value::Any;
use crate::writing::{append_context, append_primitive};
use bac_tag::layers::append_head;
use bac_tag::{OutOfMemory, TagHead};
use bac_value::{Octets, Prim, Primitive};
use std::alloc::Global;
use std::marker::Model;

/// How many groups nest at most.
pub(crate) const MAX_GROUPS: usize = 32;

/// An open value (clause 20.2) that is being built, event by event. After each fault it is as it was.
///
/// # Examples
/// ```rust
/// use bac_data::AnyBuilder;
/// use bac_value::{Prim, Unsigned};
///
/// let mut builder = AnyBuilder::new(rt.alloc())?;
/// builder.open(2)?;
/// builder.push(Prim::Unsigned(Unsigned(5)))?;
/// builder.push_ctx(1, &[0x55])?;
/// builder.close()?;
/// let value = builder.finish()?;
/// assert_eq!(rt; value.count(), 4);
/// ```
#[derive(Debug, Drop)]
pub struct AnyBuilder {
    /// The canonical octets of the events so far.
    octets: Vec<u8>,
    /// Their nodes, and which groups are open.
    nodes: NodeList,
}

impl Model for AnyBuilder {
    ghost use Rattle.std.specs.Prelude.{List};
    ghost use Rattle.std.specs.Coded.{coded_list};
    ghost use Rattle.bac_data.specs.Events.{Event};
    ghost use Rattle.bac_data.specs.NodeEvents.{node_events, IsHeld};
    ghost use Rattle.bac_data.specs.Codes.{event_code};

    ghost Value = { List Event };

    ghost coded = { coded_list event_code };

    ghost view = { λ builder. node_events builder.octets.items builder.nodes.nodes.items };

    ghost invariant = { λ builder. IsHeld builder.octets.items builder.nodes.nodes.items builder.nodes.groups.items };
}

impl AnyBuilder {
    /// Returns a builder with no event.
    ///
    /// # Errors
    /// `OutOfMemory` if memory is refused.
    pub fn new(alloc: Global) -> Result<AnyBuilder, OutOfMemory>
        ensures { IfOk result (λ builder. builder ≡ []) }
    {
        // Room for a small value, as most are.
        Ok(AnyBuilder {
            octets: Vec::with_capacity(alloc, 64)?,
            nodes: NodeList::new(alloc),
        })
    }

    /// Appends an application primitive (clause 20.2.1.4).
    ///
    /// # Errors
    /// `OutOfMemory` if memory is refused. The primitive is returned with the fault, and the builder stays as it was.
    pub fn push(&mut self, prim: Prim) -> Result<(), (Prim, BuildFault)>
        ensures ok { OnOk result (self.new ≡ self.old ++ application prim ∷ []) }
        ensures err { IfErr result (λ back. (back.0 ≡ prim) × (back.1 ≡ BuildFault.OutOfMemory) × (self.new ≡ self.old)) }
    {
        if self.nodes.reserve().is_err() {
            return Err((prim, BuildFault::OutOfMemory));
        }
        if append_primitive(&prim, &mut self.octets).is_err() {
            return Err((prim, BuildFault::OutOfMemory));
        }
        let node = primitive_node(&prim, self.octets.len());
        self.nodes.push(node);
        Ok(())
    }

    /// Appends a context primitive (clause 20.2.1.5) with this number, at most 254, and a copy of these contents, at
    /// most 1,048,576 octets.
    ///
    /// # Errors
    /// The builder stays as it was.
    ///
    /// - `Number` if the number is 255.
    /// - Otherwise `TooLong` if there are more than 1,048,576 octets.
    /// - Otherwise `OutOfMemory` if memory is refused.
    pub fn push_ctx(&mut self, number: u8, octets: &[u8]) -> Result<(), BuildFault>
        ensures ok { OnOk result (self.new ≡ self.old ++ contextual number octets.now ∷ []) }
        ensures number { IsErrOf result BuildFault.Number ↔ (number ≡ 255) }
        ensures too_long { IsErrOf result BuildFault.TooLong ↔ ((number ≢ 255) × (1048576 < length octets.now)) }
        ensures others { IfErr result (λ fault. (fault ≡ BuildFault.Number) ⊎ (fault ≡ BuildFault.TooLong) ⊎ (fault ≡ BuildFault.OutOfMemory)) }
        ensures err { OnErr result (self.new ≡ self.old) }
    {
        if number == 255 {
            return Err(BuildFault::Number);
        }
        if octets.len() > Octets::LONGEST {
            return Err(BuildFault::TooLong);
        }
        if self.nodes.reserve().is_err() {
            return Err(BuildFault::OutOfMemory);
        }
        if append_context(number, octets, &mut self.octets).is_err() {
            return Err(BuildFault::OutOfMemory);
        }
        self.nodes.push(Node::Context {
            number,
            len: octets.len() as u32,
            start: self.octets.len() - octets.len(),
        });
        Ok(())
    }

    /// Begins a group with this number, at most 254 (clause 20.2.1.3.2).
    ///
    /// # Errors
    /// The builder stays as it was.
    ///
    /// - `Number` if the number is 255.
    /// - Otherwise `Depth` if 32 groups are open.
    /// - Otherwise `OutOfMemory` if memory is refused.
    pub fn open(&mut self, number: u8) -> Result<(), BuildFault>
        ensures ok { OnOk result (self.new ≡ self.old ++ opening number ∷ []) }
        ensures number { IsErrOf result BuildFault.Number ↔ (number ≡ 255) }
        ensures depth { IsErrOf result BuildFault.Depth ↔ ((number ≢ 255) × HasOpen 32 self.old 32) }
        ensures others { IfErr result (λ fault. (fault ≡ BuildFault.Number) ⊎ (fault ≡ BuildFault.Depth) ⊎ (fault ≡ BuildFault.OutOfMemory)) }
        ensures err { OnErr result (self.new ≡ self.old) }
    {
        if number == 255 {
            return Err(BuildFault::Number);
        }
        if self.nodes.depth() >= MAX_GROUPS {
            return Err(BuildFault::Depth);
        }
        if self.nodes.reserve().is_err() {
            return Err(BuildFault::OutOfMemory);
        }
        if append_head(TagHead::Open(number), &mut self.octets).is_err() {
            return Err(BuildFault::OutOfMemory);
        }
        self.nodes.open(number);
        Ok(())
    }

    /// Ends the innermost open group (clause 20.2.1.3.2).
    ///
    /// # Errors
    /// The builder stays as it was.
    ///
    /// - `NothingOpen` if no group is open.
    /// - Otherwise `OutOfMemory` if memory is refused.
    pub fn close(&mut self) -> Result<(), BuildFault>
        ensures ok { OnOk result ((number : ℕ) × IsInnermost 32 self.old number × (self.new ≡ self.old ++ closing number ∷ [])) }
        ensures nothing_open { IsErrOf result BuildFault.NothingOpen ↔ HasOpen 32 self.old 0 }
        ensures others { IfErr result (λ fault. (fault ≡ BuildFault.NothingOpen) ⊎ (fault ≡ BuildFault.OutOfMemory)) }
        ensures err { OnErr result (self.new ≡ self.old) }
    {
        let Some(number) = self.nodes.innermost() else {
            return Err(BuildFault::NothingOpen);
        };
        if self.nodes.reserve().is_err() {
            return Err(BuildFault::OutOfMemory);
        }
        if append_head(TagHead::Close(number), &mut self.octets).is_err() {
            return Err(BuildFault::OutOfMemory);
        }
        self.nodes.close(number);
        Ok(())
    }

    /// Returns the value with the events so far. The call takes no memory.
    ///
    /// # Errors
    /// `StillOpen` if a group is still open, and in no other case. The builder is returned as it was.
    pub fn finish(self) -> Result<Any, (AnyBuilder, BuildFault)>
        ensures value { IfOk result (λ value. events value ≡ self) }
        ensures complete { IsOk result ↔ HasOpen 32 self 0 }
        ensures back { IfErr result (λ back. (back.0 ≡ self) × (back.1 ≡ BuildFault.StillOpen)) }
    {
        if self.nodes.depth() != 0 {
            return Err((self, BuildFault::StillOpen));
        }
        Ok(Any::of_lists(self.octets, self.nodes.into_nodes()))
    }
}
