//! What the next instruction of a machine tells.
ghost use Rattle.std.specs.Prelude.{◌≡◌, ◌∷◌, [], slice_get, drop};
ghost use Rattle.rv_machine.specs.Events.{events_in, LieInMemory};

use bb_watch::event::Event;
use std::marker::Model;

/// What the next instruction tells: nothing, an event, or what the environment tells that it asks.
#[derive(Clone, Copy, Debug, PartialEq, Eq)]
pub(crate) enum Told {
    Asks,
    Nothing,
    Happens(Event),
}

/// The events of one instruction, in order.
#[derive(Drop)]
pub struct Events<'a> {
    // An event, before those of the blocks.
    event: Option<Event>,
    // Whether the blocks end, or are made.
    ends: bool,
    // The end of the last block, or the base of the first.
    at: u32,
    // The exponents of the blocks, which lie without gaps.
    exponents: &'a [u8],
}

impl<'a> Model for Events<'a> {
    ghost use Rattle.std.specs.Prelude.{List};
    ghost use Rattle.bb_watch.specs.declared.event.Event.{Event as AnEvent};
    ghost use Rattle.rv_machine.specs.Events.{events_in, LieInMemory};

    ghost Value = { List AnEvent };

    ghost view = { λ e. events_in e.event e.ends e.at e.exponents.now };

    ghost invariant = { λ e. LieInMemory e.ends e.at e.exponents.now };
}

impl<'a> Events<'a> {
    ghost use Rattle.std.specs.Prelude.{◌≡◌, ◌∷◌, [], false, true, Some, None, slice_get, drop};
    ghost use Rattle.rv_machine.specs.Events.{blocks_told, LieInMemory};

    /// No event.
    pub(crate) fn none() -> Events<'static>
        ensures { result ≡ [] }
    {
        Events {
            event: None,
            ends: false,
            at: 0,
            exponents: &[],
        }
    }

    /// One event.
    pub(crate) fn one(event: Event) -> Events<'static>
        ensures { result ≡ event ∷ [] }
    {
        Events {
            event: Some(event),
            ends: false,
            at: 0,
            exponents: &[],
        }
    }

    /// Blocks of these exponents are made from an address on, or end at one, the last one first.
    pub(crate) fn blocks(ends: bool, at: u32, exponents: &'a [u8]) -> Events<'a>
        requires { LieInMemory ends at exponents.now }
        ensures { result ≡ blocks_told ends at exponents.now }
    {
        Events {
            event: None,
            ends,
            at,
            exponents,
        }
    }

    /// The next event, or `None` after the last.
    pub fn next(&mut self) -> Option<Event>
        ensures first { result ≡ slice_get self.old 0 }
        ensures rest { self.new ≡ drop 1 self.old }
    {
        if let Some(event) = self.event {
            self.event = None;
            return Some(event);
        }
        if self.ends {
            let [rest @ .., exponent] = self.exponents else {
                return None;
            };
            self.exponents = rest;
            self.at -= 1 << *exponent;
            Some(Event::Ended {
                at: self.at,
                exponent: *exponent,
            })
        } else {
            let [exponent, rest @ ..] = self.exponents else {
                return None;
            };
            let at = self.at;
            self.exponents = rest;
            self.at += 1 << *exponent;
            Some(Event::Made {
                at,
                exponent: *exponent,
            })
        }
    }
}
