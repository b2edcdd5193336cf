//! The side of a manager that sends.
ghost use Rattle.std.specs.Prelude.{◌≡◌, ◌++◌, ◌∷◌, [], length, MatchOption};
ghost use Rattle.std.specs.Arc.{arc_value};
ghost use Rattle.comm_core.specs.History.{IsLegal};
ghost use Rattle.comm_outbox.specs.Sides.{PublisherView};
ghost use Rattle.comm_manager.specs.UnderLock.{publisher_after};

use crate::manager_id::ManagerId;
use comm_core::Entry;
use std::alloc::Global;
use std::marker::{Model, PhantomData};
use std::sync::{Arc, Wait};

/// Takes the outgoing entries, for the thread that sends them: each entry of the history once, in order. Contracts
/// see what it has taken.
#[derive(Drop)]
pub struct Publisher<M: ManagerId> {
    side: comm_outbox::Publisher,
    of: PhantomData<M>,
}

impl<M: ManagerId> Model for Publisher<M> {
    ghost use Rattle.std.specs.Prelude.{◌≡◌, List};
    ghost use Rattle.comm_core.specs.declared.entry.Entry.{Entry};
    ghost use Rattle.comm_versions.specs.Code.{entries_code};
    ghost use Rattle.comm_manager.specs.UnderLock.{publisher_after};

    ghost Value = { List Entry };

    ghost coded = { entries_code };

    ghost view = { λ p. p.side.taken };

    ghost invariant = { λ p. p.side ≡ publisher_after M.queue M.limits p.side.taken };
}

impl<M: ManagerId> Publisher<M> {
    /// Says by its type which manager the side is of.
    pub(crate) fn new(side: comm_outbox::Publisher) -> Publisher<M>
        requires { side ≡ publisher_after M.queue M.limits side.taken }
        ensures { result ≡ side.taken }
    {
        Publisher {
            side,
            of: PhantomData,
        }
    }

    /// Takes the next entry, or gives None where none was there at one moment of the call. It takes no memory, and
    /// enters no lock of the changes.
    #[must_use]
    pub fn take<R: Wait>(&mut self, rt: &R) -> Option<Arc<Entry, Global>>
        ensures next { MatchOption result (self.new ≡ self.old) (λ e.
            self.new ≡ self.old ++ arc_value e ∷ []) }
        ensures legal { IsLegal M.limits.clients M.limits.comms self.new }
    {
        self.side.take(rt)
    }

    /// How many entries it has taken.
    #[must_use]
    pub fn taken(&self) -> u64
        ensures { result ≡ length self.now }
    {
        self.side.taken()
    }

    /// The side of the queue, without the type parameter.
    pub(crate) fn into_side(self) -> comm_outbox::Publisher
        ensures { result ≡ publisher_after M.queue M.limits self }
    {
        self.side
    }
}
