//! The events of a walk over an open value, one after another.

ghost use Rattle.std.specs.Prelude.{◌≡◌, [], length};
ghost use Rattle.std.specs.Iterator.{item_count};
ghost use Rattle.bac_data.specs.HeldLists.{octets_of, nodes_of, IsSound};
ghost use Rattle.bac_data.specs.NodeEvents.{node_events, AreNodes};
ghost use Rattle.bac_data.specs.Walks.{GivesStep, SkipsGroup};

use crate::held::Held;
use crate::nodes::{Node, event_at};
use bac_value::PrimRef;
use std::marker::Model;

/// One step of a walk over an open value: a primitive, or the opening or closing tag of a group (clause 20.2.1).
/// Numbers are 0 to 254.
#[derive(Clone, Copy, Debug, PartialEq, Eq)]
pub enum Event<'a> {
    /// An application primitive.
    App(PrimRef<'a>),
    /// A context primitive: its number and its contents, at most 1,048,576 octets.
    Ctx(u8, &'a [u8]),
    /// A group with this number begins.
    Open(u8),
    /// The innermost open group ends. It has this number.
    Close(u8),
}

/// A walk over an open value, which gives its events one after another. It takes no memory.
#[derive(Debug, Drop)]
pub struct Events<'a> {
    /// The canonical octets of all events of the value.
    octets: &'a [u8],
    /// What holds them, and the nodes of all events.
    held: &'a Held,
    /// The index of the next one.
    next: usize,
}

impl<'a> Model for Events<'a> {
    ghost use Rattle.std.specs.Prelude.{List, [], ◌≤◌, length, drop};
    ghost use Rattle.std.specs.Coded.{coded_list};
    ghost use Rattle.bac_data.specs.Events.{Event};
    ghost use Rattle.bac_data.specs.HeldLists.{nodes_of, IsSound};
    ghost use Rattle.bac_data.specs.NodeEvents.{node_events, AreNodes};
    ghost use Rattle.bac_data.specs.Codes.{event_code};

    ghost Value = { List Event };

    ghost coded = { coded_list event_code };

    ghost view = { λ walk. drop walk.next (node_events walk.octets.now (nodes_of walk.held.now)) };

    ghost invariant = { λ walk. IsSound walk.held.now × (walk.next ≤ length (nodes_of walk.held.now)) × AreNodes (node_events walk.octets.now (nodes_of walk.held.now)) walk.octets.now (nodes_of walk.held.now) [] [] };
}

impl<'a> Events<'a> {
    /// Returns the walk over the events that are held.
    #[inline(always)]
    pub(crate) fn over(held: &'a Held) -> Events<'a>
        requires sound { IsSound held.now }
        requires nodes { AreNodes (node_events (octets_of held.now) (nodes_of held.now)) (octets_of held.now) (nodes_of held.now) [] [] }
        ensures { result ≡ node_events (octets_of held.now) (nodes_of held.now) }
    {
        Events {
            octets: held.octets(),
            held,
            next: 0,
        }
    }

    /// Returns how many events are left.
    pub fn len(&self) -> usize
        ensures { result ≡ length self.now }
    {
        self.held.count() - self.next
    }

    /// Passes over the group that begins next, with all that is in it, and returns its number. If no group begins next,
    /// returns None, and the walk stays where it is. A long group takes no more time than a short one.
    ///
    /// # Examples
    /// ```rust
    /// use bac_data::{Event, read_any};
    ///
    /// // A group of number 2, and a context primitive after it.
    /// let octets = [0x3E, 0x2E, 0x19, 0x55, 0x2F, 0x19, 0x66, 0x3F];
    /// let (value, _) = read_any(rt.alloc(), &octets, 3)?;
    /// let mut events = value.events();
    /// assert_eq!(rt; events.skip_group(), Some(2));
    /// assert_eq!(rt; events.skip_group(), None);
    /// assert_eq!(rt; events.next(), Some(Event::Ctx(1, &[0x66])));
    /// ```
    pub fn skip_group(&mut self) -> Option<u8>
        ensures { SkipsGroup self.old result self.new }
    {
        if self.next >= self.held.count() {
            return None;
        }
        match self.held.node(self.next) {
            Node::Open { number, closing } => {
                self.next = closing + 1;
                Some(number)
            }
            _ => None,
        }
    }
}

impl<'a> Iterator for Events<'a> {
    type Item = Event<'a>;

    ghost next_gives = { GivesStep };

    ghost remaining = { item_count (λ walk. walk) };

    fn next(&mut self) -> Option<Event<'a>> {
        if self.next >= self.held.count() {
            return None;
        }
        let node = self.held.node(self.next);
        self.next += 1;
        Some(event_at(self.octets, node))
    }

    fn size_hint(&self) -> (usize, Option<usize>) {
        let left = self.len();
        (left, Some(left))
    }
}
