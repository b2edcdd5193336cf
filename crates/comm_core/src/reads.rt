//! What a manager is asked without changing it.
ghost use Rattle.std.specs.Prelude.{◌≡◌, IfOk, option_map};
ghost use Rattle.comm_core.specs.Machine.{at, has};
ghost use Rattle.comm_core.specs.Reads.{infos, state_of};
ghost use Rattle.comm_core.specs.Ready.{machine};

use crate::infos::part_of;
use crate::manager::Core;
use crate::reply::StateAnswer;
use comm_messages::Infos;
use comm_targets::{Kind, Target};
use comm_value::Text;
use std::alloc::AllocError;

impl<T: Target> Core<T> {
    /// The open comms with the names of their targets, those of one target where a name is given, in the byte order
    /// of the ids ('Messaging in Jupyter' 5.3, "Comm info"). Err: out of memory, as of each read.
    pub fn infos(&self, target: Option<&Text>) -> Result<Infos, AllocError>
        ensures { IfOk result (λ v. v ≡ infos (machine self.now)
            (option_map (λ t. t.now) target.entry)) }
    {
        let whole = self.comms.listing(self.alloc)?;
        part_of(self.alloc, whole, target)
    }

    /// What `infos` gives. The whole listing is kept until a comm is opened or closed, so that asking again costs no
    /// ordering; a manager that is only read can't keep it, so `infos` stays beside this.
    pub fn listing(&mut self, target: Option<&Text>) -> Result<Infos, AllocError>
        ensures infos { IfOk result (λ v. v ≡ infos (machine self.old)
            (option_map (λ t. t.now) target.entry)) }
        ensures same { self.new ≡ self.old }
    {
        let whole = self.comms.keep_listing(self.alloc)?;
        part_of(self.alloc, whole, target)
    }

    /// Whether a comm of this id is open.
    pub fn has_comm(&self, id: &Text) -> bool
        ensures { result ≡ has (machine self.now).comms id.now }
    {
        self.comms.contains(id)
    }

    /// The name of the target of an open comm; None where no comm has the id.
    pub fn target_of(&self, id: &Text) -> Option<&Text>
        ensures { option_map (λ t. t.now) result
            ≡ option_map (λ c. c.target) (at (machine self.now).comms id.now) }
    {
        match self.comms.get(id) {
            Some(comm) => Some(&comm.target),
            None => None,
        }
    }

    /// The kind of the target of this name; None where no target has it.
    pub fn kind_of(&self, name: &Text) -> Option<Kind>
        ensures { result ≡ option_map (λ r. r.kind) (at (machine self.now).targets name.now) }
    {
        self.targets.kind_of(name)
    }

    /// The state of a comm, shared: no value of it is copied. Err: out of memory.
    pub fn state(&self, id: &Text) -> Result<StateAnswer, AllocError>
        ensures { IfOk result (λ s. s ≡ state_of (machine self.now) id.now) }
    {
        let Some(comm) = self.comms.get(id) else {
            return Ok(StateAnswer::NoComm);
        };
        match &comm.state {
            None => Ok(StateAnswer::NoState),
            Some(state) => Ok(StateAnswer::State(state.copy()?)),
        }
    }
}
