//! The canonical octets of a value that is being read.

ghost use Rattle.std.specs.Prelude.{◌≡◌, ◌≢◌, ◌≤◌, ◌<◌, ◌++◌, [], IfOk, OnOk, OnErr, length};
ghost use Rattle.bac_tag.specs.Heads.{Heads, IsValid};
ghost use Rattle.bac_tag.specs.Spelling.{AppendsLeast};
ghost use Rattle.bac_value.specs.declared.prim.PrimitiveValue.{PrimitiveValue};
ghost use Rattle.bac_value.specs.PrimContents.{ContentsOf};
ghost use Rattle.bac_value.specs.PrimOfContents.{prim_of_contents};
ghost use Rattle.bac_data.specs.HeldLists.{octets_of, nodes_of, IsSound};
ghost use Rattle.bac_data.specs.KeptOctets.{kept_octets};
ghost use Rattle.bac_data.specs.Listings.{listed_nodes, IsSoundListing};
ghost use Rattle.bac_data.specs.Spells.{SpellsPrimitive};

use crate::held::Held;
use crate::listing::Listing;
use crate::short_nodes::{SHORT, copy_short, short_octets};
use crate::writing::append_application;
use bac_tag::{OutOfMemory, TagHead, write_head};
use std::alloc::Global;
use std::marker::Model;

/// The capacity for what follows the first octet that is not canonical. Most values have less.
const ROOM: usize = 48;

/// Octets that are kept. Few of them need no memory.
#[derive(Drop)]
pub(crate) struct Kept {
    /// The octets, as long as there are at most [`SHORT`].
    few: [u8; SHORT],
    /// How many these are, and more than [`SHORT`] once there are many.
    count: usize,
    /// All octets, once there are many. Until then there is none.
    many: Vec<u8>,
}

impl Model for Kept {
    ghost use Rattle.std.specs.Prelude.{◌≡◌, ◌≤◌, ℕ, List, [], length};
    ghost use Rattle.std.specs.Coded.{coded_ℕ, coded_list};
    ghost use Rattle.bac_data.specs.KeptOctets.{kept_octets};

    ghost Value = { List ℕ };

    ghost coded = { coded_list coded_ℕ };

    ghost view = { λ kept. kept_octets kept.count kept.few kept.many.items };

    ghost invariant = { λ kept. (length kept.few ≡ 24) × (kept.count ≤ 24 → kept.many.items ≡ []) };
}

impl Kept {
    /// Returns no octets.
    #[inline(always)]
    pub(crate) fn new(alloc: Global) -> Kept
        ensures { result ≡ [] }
    {
        Kept {
            few: [0; SHORT],
            count: 0,
            many: Vec::new(alloc),
        }
    }

    /// Returns how many octets there are.
    #[inline(always)]
    pub(crate) fn len(&self) -> usize
        ensures { result ≡ length self.now }
    {
        if self.count <= SHORT {
            self.count
        } else {
            self.many.len()
        }
    }

    /// Returns the octets.
    #[inline(always)]
    pub(crate) fn as_slice(&self) -> &[u8]
        ensures { result.now ≡ self.now }
    {
        if self.count <= SHORT {
            &self.few[..self.count]
        } else {
            self.many.as_slice()
        }
    }

    /// Appends octets.
    ///
    /// # Errors
    /// `OutOfMemory` if memory is refused.
    #[inline(always)]
    pub(crate) fn extend(&mut self, octets: &[u8]) -> Result<(), OutOfMemory>
        ensures { OnOk result (self.new ≡ self.old ++ octets.now) }
    {
        if self.count <= SHORT && octets.len() <= SHORT - self.count {
            let end = self.count + octets.len();
            copy_short(&mut self.few[self.count..end], octets);
            self.count = end;
            return Ok(());
        }
        spill(&self.few, &mut self.count, &mut self.many, octets.len())?;
        self.many.extend_from_slice(octets)?;
        Ok(())
    }

    /// Appends the canonical octets of a head.
    ///
    /// # Errors
    /// `OutOfMemory` if memory is refused.
    #[inline(always)]
    pub(crate) fn append_head(&mut self, head: TagHead) -> Result<(), OutOfMemory>
        requires { IsValid head }
        ensures { OnOk result (AppendsLeast (Heads head) self.old self.new) }
    {
        let octets = write_head(head);
        self.extend(octets.as_slice())
    }

    /// Appends the application primitive with this number and these contents, which may differ from those that are
    /// written.
    ///
    /// # Errors
    /// `OutOfMemory` if memory is refused.
    pub(crate) fn append_application(
        &mut self,
        number: u8,
        contents: &[u8],
    ) -> Result<(), OutOfMemory>
        requires number { number ≤ 12 }
        requires other { number ≢ 1 }
        requires contents { (prim : PrimitiveValue) × ContentsOf number prim contents.now }
        ensures { OnOk result (AppendsLeast (SpellsPrimitive (prim_of_contents number contents.now)) self.old self.new) }
    {
        spill(&self.few, &mut self.count, &mut self.many, contents.len())?;
        append_application(number, contents, &mut self.many)
    }

    /// Returns what holds these octets and these nodes.
    ///
    /// # Errors
    /// `OutOfMemory` if memory is refused.
    #[inline(always)]
    pub(crate) fn hold(mut self, nodes: Listing) -> Result<Held, OutOfMemory>
        requires sound { IsSoundListing nodes }
        requires short { nodes.many.items ≡ [] → length self ≤ 24 }
        ensures octets { IfOk result (λ held. octets_of held ≡ self) }
        ensures nodes { IfOk result (λ held. nodes_of held ≡ listed_nodes nodes) }
        ensures sound { IfOk result IsSound }
    {
        if !nodes.are_few() {
            spill(&self.few, &mut self.count, &mut self.many, 0)?;
            return Ok(nodes.hold_many(self.many));
        }
        if self.count > SHORT {
            return Ok(nodes.hold(short_octets(self.many.as_slice()), self.many.len()));
        }
        Ok(nodes.hold(self.few, self.count))
    }
}

/// Moves few octets to where many are, and makes room there for `more`. Many octets stay as they are.
///
/// # Errors
/// `OutOfMemory` if memory is refused.
#[cold]
#[inline(never)]
fn spill(
    few: &[u8; SHORT],
    count: &mut usize,
    many: &mut Vec<u8>,
    more: usize,
) -> Result<(), OutOfMemory>
    requires { count.old ≤ 24 → many.old.items ≡ [] }
    ensures octets { OnOk result (many.new.items ≡ kept_octets count.old few.now many.old.items) }
    ensures many { OnOk result (24 < count.new) }
    ensures count { OnErr result (count.new ≡ count.old) }
    ensures err { OnErr result (many.new.items ≡ many.old.items) }
{
    if *count > SHORT {
        return Ok(());
    }
    many.reserve(more.saturating_add(ROOM))?;
    many.extend_from_slice(&few[..*count])?;
    *count = SHORT + 1;
    Ok(())
}
