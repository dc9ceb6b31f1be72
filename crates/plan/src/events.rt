// The events of a plan, one after another.
ghost use Rattle.std.specs.Prelude.{◌≡◌};
ghost use Rattle.std.specs.Iterator.{YieldsFirst, item_count};
ghost use Rattle.plan.specs.Plans.{model};

use crate::event::Event;
use crate::plan::Plan;
use std::marker::Model;

// A proof sees the events that are still to come.
#[derive(Drop)]
pub struct Events<'a> {
    plan: Plan<'a>,
    given: usize,
}

impl<'a> Model for Events<'a> {
    ghost use Rattle.std.specs.Prelude.{◌≤◌, List, drop};
    ghost use Rattle.plan.specs.declared.event.Event.{Event};

    ghost Value = { List Event };

    ghost use Rattle.plan.specs.Plans.{model};

    ghost view = { λ s. drop s.given (model s.plan).events };

    ghost invariant = { λ s. s.given ≤ s.plan.draft.header.count };
}

impl Iterator for Events<'_> {
    type Item = Event;

    ghost next_gives = { YieldsFirst (λ rest. rest) };

    ghost remaining = { item_count (λ rest. rest) };

    fn next(&mut self) -> Option<Event> {
        let event = self.plan.event(self.given + 1)?;
        self.given += 1;
        Some(event)
    }
}

impl<'a> Plan<'a> {
    // All events in their order.
    pub fn events(&self) -> Events<'a>
        ensures value { result ≡ (model self.now).events }
    {
        Events {
            plan: *self,
            given: 0,
        }
    }
}
