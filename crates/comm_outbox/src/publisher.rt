//! The side of the queue that takes.
ghost use Rattle.std.specs.Prelude.{◌≡◌, ◌++◌, ◌∷◌, [], length, MatchOption};
ghost use Rattle.std.specs.Arc.{arc_value};
ghost use Rattle.comm_core.specs.History.{IsLegal};
ghost use Rattle.comm_outbox.specs.Sides.{PublisherView};

use crate::entry_queue::{EntryQueue, QueuePass, TakeStep};
use comm_core::{Entry, prefixes_of_legal_histories_are_legal};
use std::alloc::Global;
use std::marker::Model;
use std::sync::{Arc, Wait};

/// The side that takes entries, in the order in which they were put. Contracts see which queue it is of, the limits
/// by which entries are legal, and what was taken.
#[derive(Drop)]
pub struct Publisher {
    pub(crate) queue: Arc<EntryQueue, Global>,
    pub(crate) pass: QueuePass,
    pub(crate) count: u64,
}

impl Model for Publisher {
    ghost use Rattle.std.specs.Prelude.{◌≡◌, length, true};
    ghost use Rattle.std.specs.Arc.{arc_value};
    ghost use Rattle.crossbeam_queue.specs.Passes.{view as known_at, IsPassOf};
    ghost use Rattle.comm_core.specs.History.{IsLegal};
    ghost use Rattle.comm_outbox.specs.Code.{publisher_code};
    ghost use Rattle.comm_outbox.specs.Sides.{PublisherView};

    ghost Value = { PublisherView };

    ghost coded = { publisher_code };

    ghost view = { λ p. record {
      queue = p.pass.table_id;
      clients = (known_at p.pass).bounds.clients;
      comms = (known_at p.pass).bounds.comms;
      taken = (known_at p.pass).got;
    } };

    ghost invariant = { λ p.
        IsPassOf (arc_value p.queue) p.pass × ((known_at p.pass).takes ≡ true)
        × (p.count ≡ length (known_at p.pass).got)
        × IsLegal (known_at p.pass).bounds.clients (known_at p.pass).bounds.comms
        (known_at p.pass).got };
}

impl Publisher {
    /// Takes the next entry, or gives None where none was there at one moment of the call (no clause says when). It
    /// takes no memory, and enters no lock.
    #[must_use]
    pub fn take<R: Wait>(&mut self, rt: &R) -> Option<Arc<Entry, Global>>
        ensures next { MatchOption result (self.new ≡ self.old) (λ e.
            self.new ≡ record self.old { taken = self.old.taken ++ arc_value e ∷ [] }) }
        ensures legal { IsLegal self.new.clients self.new.comms self.new.taken }
    {
        prefixes_of_legal_histories_are_legal();
        let entry = self.queue.pop_as::<TakeStep, R>(rt, &mut self.pass)?;
        self.count += 1;
        Some(entry)
    }

    /// How many entries were taken.
    #[must_use]
    pub fn taken(&self) -> u64
        ensures { result ≡ length self.now.taken }
    {
        self.count
    }
}
