// An event with every field in its range, which contracts see as the event.
ghost use Rattle.std.specs.Prelude.{◌≡◌, true};
ghost use Rattle.sort.specs.declared.event.Event.{Event};
ghost use Rattle.sort.specs.Event.{in_range};

use crate::event::Event;
use std::marker::Model;

#[derive(Clone, Copy)]
pub struct Ranged {
    pub event: Event,
}

impl Model for Ranged {
    ghost Value = { Event };

    ghost view = { λ r. r.event };

    ghost inverse = { λ e. record { event = e } };

    ghost invariant = { λ r. in_range r.event ≡ true };
}
