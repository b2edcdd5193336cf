//! The side of clients and publisher of a manager that threads share, as what one thread plays a script over.
ghost use Rattle.std.specs.Prelude.{◌≡◌, ◌<◌, ℕ, vec_len, IfErr};
ghost use Rattle.comm_script.specs.Command.{HandsNothing};
ghost use Rattle.comm_script.specs.Player.{IsBackendFault};
ghost use Rattle.shared_script.specs.Heard.{IsLater};

use crate::sequencer::Sequencer;
use crate::wording::append_entry;
use comm_manager::{Client, CountedHistory, Manager, ManagerId, Publisher};
use comm_script::{Backend, Request, RunFault};
use comm_targets::Target;
use std::alloc::Global;
use std::sync::Wait;

/// The clients of a manager and its publisher, and what orders the clients' requests.
#[derive(Drop)]
pub struct SharedSession<M: ManagerId, T: Target> {
    pub clients: Vec<Client<M>>,
    pub publisher: Publisher<M>,
    pub sequencer: Sequencer<M, T>,
}

impl<M: ManagerId, T: Target> SharedSession<M, T> {
    // Appends the lines of what goes out, until the last change that was made has.
    fn publish<R: Wait>(&mut self, rt: &R, text: &mut Vec<u8>) -> Result<(), RunFault>
        ensures clients { self.new.clients ≡ self.old.clients }
        ensures sequencer { self.new.sequencer ≡ self.old.sequencer }
        ensures fault { IfErr result (λ e. e ≡ RunFault.Memory) }
    {
        let made = match &self.sequencer.last {
            Some(stamp) => stamp.number(),
            None => 0,
        };
        for _ in self.publisher.taken()..made {
            let Some(entry) = self.publisher.take(rt) else {
                break;
            };
            append_entry(self.publisher.taken(), &entry, text)?;
        }
        Ok(())
    }

    /// Does what a line of this client asks for, and appends what it is answered and what goes out. Each change comes
    /// after the last one, since its client has heard of that. Err: Memory or NoReader.
    pub fn execute<R: Wait>(
        &mut self,
        rt: &R,
        manager: &Manager<M, T, CountedHistory>,
        alloc: Global,
        number: u64,
        client: u8,
        request: Request,
        text: &mut Vec<u8>,
    ) -> Result<(), RunFault>
        requires client { client < vec_len self.old.clients }
        requires handless { HandsNothing request }
        ensures clients { vec_len self.new.clients ≡ vec_len self.old.clients }
        ensures later { IsLater self.old.sequencer.last self.new.sequencer.last }
        ensures fault { IfErr result IsBackendFault }
    {
        let client = &mut self.clients[usize::from(client)];
        self.sequencer
            .execute(rt, manager, alloc, client, number, request, text)?;
        self.publish(rt, text)?;
        Ok(())
    }
}

impl<M: ManagerId, T: Target> Backend for SharedSession<M, T> {
    ghost use Rattle.std.proofs.Common.{inl, refl};
    ghost use Rattle.shared_script.specs.Heard.{later_self};

    ghost is_sound = { λ clients s. vec_len s.clients ≡ clients };

    // How the shared manager stands isn't known before its end.
    ghost stands = { λ _ _ _. ⊥ };

    ghost follows = { λ old new. IsLater old.sequencer.last new.sequencer.last };

    ghost change_count = { λ _. 0 };

    ghost stops_by = { IsBackendFault };

    ghost stops_by_memory = { inl refl };

    ghost follows_itself = { λ s. later_self s.sequencer.last };

    ghost has_clients = { λ _ _ _ _ _ stands. absurd stands };
}
