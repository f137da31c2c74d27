//! An open value (clause 20.2).

ghost use Rattle.std.specs.Prelude.{◌≡◌, ◌≤◌, ◌↔◌, IsTrue, ℕ, List, [], length, Some, slice_get, IfSome, MatchOption};
ghost use Rattle.std.specs.Cmp.{partial_equiv_from_equiv};
ghost use Rattle.bac_tag.specs.Spelling.{IsLeast};
ghost use Rattle.bac_data.specs.OpenValue.{depth, IsOpenValue};
ghost use Rattle.bac_data.specs.Spells.{SpellsAll};
ghost use Rattle.bac_data.specs.Events.{events, SpellsEvents};
ghost use Rattle.bac_data.specs.HeldLists.{octets_of, nodes_of, IsSound};
ghost use Rattle.bac_data.specs.NodeEvents.{node_events, IsHeld};
ghost use Rattle.bac_data.specs.Same.{same_values};
ghost use Rattle.bac_data.specs.Laws.Same.{same_values_equiv};
ghost use Rattle.bac_data.specs.Walks.{event_of, IsPackedStep};

use crate::held::Held;
use crate::nodes::{Node, event_at};
use crate::walking::{Event, Events};
use std::alloc::AllocError;
use std::marker::Model;

/// An open value: a list of elements, which may be empty. Each is an application primitive, a context primitive
/// (its number and its contents) or a group (its number and its elements). Numbers are 0 to 254, contents have at
/// most 1,048,576 octets, and at most 32 groups nest.
#[derive(Debug)]
pub struct Any {
    /// The canonical octets of its events, and one node for each of them.
    held: Held,
}

impl Drop for Any {
    // Written here, so that how an open value is freed is proved once and not wherever one is dropped.
    #[inline(always)]
    fn drop(self) {
        let Any { held: _ } = self;
    }
}

impl Model for Any {
    ghost use Rattle.std.specs.Prelude.{[]};
    ghost use Rattle.bac_data.specs.OpenValue.{Elements};
    ghost use Rattle.bac_data.specs.HeldLists.{octets_of, nodes_of, IsSound};
    ghost use Rattle.bac_data.specs.NodeEvents.{node_events, IsHeld};
    ghost use Rattle.bac_data.specs.Events.{value_of_events};
    ghost use Rattle.bac_data.specs.Codes.{elements_code};

    ghost Value = { Elements };

    ghost coded = { elements_code };

    ghost view = { λ any. value_of_events (node_events (octets_of any.held) (nodes_of any.held)) };

    ghost invariant = { λ any. IsSound any.held × IsHeld (octets_of any.held) (nodes_of any.held) [] };
}

/// A walk over the value, as [`Any::events`] gives it.
impl<'a> IntoIterator for &'a Any {
    ghost use Rattle.std.specs.Prelude.{◌≡◌};
    ghost use Rattle.bac_data.specs.Events.{events};

    type Item = Event<'a>;

    type IntoIter = Events<'a>;

    ghost into_iter_gives = { λ any walk. walk ≡ events any.now };

    fn into_iter(self) -> Events<'a> {
        self.events()
    }
}

/// Two open values are equal exactly where they are the same value, and so exactly where their canonical octets are
/// equal.
impl PartialEq for Any {
    ghost eq = { same_values };

    ghost laws = { partial_equiv_from_equiv same_values_equiv };

    fn eq(&self, other: &Any) -> bool
        ensures answer { result ≡ same_values self.now other.now }
        ensures same { IsTrue result ↔ (self.now ≡ other.now) }
    {
        self.held.octets() == other.held.octets()
    }
}

impl Eq for Any {
    ghost laws = { same_values_equiv };
}

/// A copy is the same value.
impl Clone for Any {
    ghost is_clone = { λ any copy. copy ≡ any };

    /// # Errors
    /// `AllocError` if memory is refused.
    fn clone(&self) -> Result<Any, AllocError> {
        let held = self.held.copied()?;
        Ok(Any { held })
    }
}

impl Any {
    /// Returns the value with these canonical octets and these nodes. The call takes no memory.
    pub(crate) fn of_lists(octets: Vec<u8>, nodes: Vec<Node>) -> Any
        requires { IsHeld octets.items nodes.items [] }
        ensures { events result ≡ node_events octets.items nodes.items }
    {
        let held = Held::of_lists(octets, nodes);
        Any { held }
    }

    /// Returns the value that is held.
    #[inline(always)]
    pub(crate) fn of_held(held: Held) -> Any
        requires sound { IsSound held }
        requires held { IsHeld (octets_of held) (nodes_of held) [] }
        ensures { events result ≡ node_events (octets_of held) (nodes_of held) }
    {
        Any { held }
    }

    /// Returns the canonical octets of its events.
    #[inline(always)]
    pub(crate) fn octets(&self) -> &[u8]
        ensures least { IsLeast (SpellsEvents (events self.now)) result.now }
        ensures depth { depth self.now ≤ 32 }
    {
        self.held.octets()
    }

    /// Returns a walk over the events of the value, in their order. The tags around the value are not among them. The
    /// walk takes no memory.
    ///
    /// # Examples
    /// ```rust
    /// use bac_data::{Event, read_any};
    ///
    /// // A group of number 2 with one context primitive, between tags of number 3.
    /// let octets = [0x3E, 0x2E, 0x19, 0x55, 0x2F, 0x3F];
    /// let (value, _) = read_any(rt.alloc(), &octets, 3)?;
    /// let mut events = value.events();
    /// assert_eq!(rt; events.next(), Some(Event::Open(2)));
    /// assert_eq!(rt; events.next(), Some(Event::Ctx(1, &[0x55])));
    /// assert_eq!(rt; events.next(), Some(Event::Close(2)));
    /// assert_eq!(rt; events.next(), None);
    /// ```
    pub fn events(&self) -> Events<'_>
        ensures events { result ≡ events self.now }
        ensures value { IsOpenValue 32 self.now }
    {
        Events::over(&self.held)
    }

    /// Returns how many events a walk over the value has: at most the number of octets between the tags in any of its
    /// spellings.
    pub fn count(&self) -> usize
        ensures count { result ≡ length (events self.now) }
        ensures most { (b : List ℕ) → SpellsAll self.now b → result ≤ length b }
    {
        self.held.count()
    }

    /// Returns the event with this index, counted from 0, of those that a walk over the value has, or None if it has no
    /// more than `index`. The call takes no step through the events before it.
    ///
    /// # Examples
    /// ```rust
    /// use bac_data::{Event, read_any};
    ///
    /// let (value, _) = read_any(rt.alloc(), &[0x3E, 0x2E, 0x19, 0x55, 0x2F, 0x3F], 3)?;
    /// assert_eq!(rt; value.event(1), Some(Event::Ctx(1, &[0x55])));
    /// assert_eq!(rt; value.event(3), None);
    /// ```
    pub fn event(&self, index: usize) -> Option<Event<'_>>
        ensures event { MatchOption result (length (events self.now) ≤ index) (λ event. slice_get (events self.now) index ≡ Some (event_of event)) }
        ensures packed { IfSome result IsPackedStep }
    {
        if index >= self.held.count() {
            return None;
        }
        Some(event_at(self.held.octets(), self.held.node(index)))
    }
}
