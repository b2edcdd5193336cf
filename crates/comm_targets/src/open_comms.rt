ghost use Rattle.std.specs.Prelude.{◌≡◌, ◌↔◌, [], true, IsTrue, IsSome, None, Some, OnOk, OnErr};
ghost use Rattle.comm_targets.specs.OpenComms.{with_done, with_staged};
ghost use Rattle.comm_targets.specs.declared.staged_event.StagedEvent.{StagedEvent};
ghost use Rattle.comm_targets.specs.Meaning.{has_id, without, stages_message};

use crate::answer::Answer;
use crate::event::Event;
use crate::open_ids::OpenIds;
use crate::staged::Staged;
use std::alloc::AllocError;
use std::marker::Model;

/// What each target keeps: how many comms it has open, and what is staged. Which comms these are, contracts alone see,
/// in the order of opening.
#[derive(Drop)]
pub struct OpenComms {
    count: u64,
    staged: Option<Staged>,
    ids: OpenIds,
}

impl Model for OpenComms {
    ghost use Rattle.std.specs.Prelude.{◌≡◌, length};
    ghost use Rattle.comm_targets.specs.OpenComms.{OpenAndStaged, CanCommit};
    ghost use Rattle.comm_targets.specs.Code.{open_and_staged_code};

    ghost Value = { OpenAndStaged };

    ghost coded = { open_and_staged_code };

    ghost view = { λ b. record { ids = b.ids.ids; staged = b.staged } };

    ghost invariant = { λ b. (b.count ≡ length b.ids.ids) × CanCommit b.staged b.count };
}

impl OpenComms {
    /// No comm is open and nothing is staged.
    pub fn new() -> OpenComms
        ensures { result ≡ record { ids = []; staged = None } }
    {
        OpenComms {
            count: 0,
            staged: None,
            ids: OpenIds::none(),
        }
    }

    /// Whether no comm is open and nothing is staged.
    pub fn is_idle(&self) -> bool
        ensures { IsTrue result ↔ ((self.now.ids ≡ []) × (self.now.staged ≡ None)) }
    {
        self.count == 0 && self.staged.is_none()
    }

    /// Whether a message is staged.
    pub fn has_message(&self) -> bool
        ensures { result ≡ stages_message self.now.staged }
    {
        match &self.staged {
            Some(staged) => staged.is_message(),
            None => false,
        }
    }

    /// Stages an event with its answer. It takes no memory. Err: it opens a comm, and 2^64 - 1 are open; then all stays
    /// as it was.
    pub fn stage(&mut self, event: &Event, answer: &Answer) -> Result<(), AllocError>
        ensures ok { OnOk result (self.new ≡ with_staged self.old event.now answer.now) }
        ensures err { OnErr result (self.new ≡ self.old) }
    {
        let staged = Staged::new(event, answer);
        if staged.opens() && self.count == u64::MAX {
            return Err(AllocError);
        }
        self.staged = Some(staged);
        Ok(())
    }

    /// Makes the staged change: an opening adds its id. It takes no memory.
    pub fn commit(&mut self)
        requires { IsSome self.old.staged }
        ensures { (s : StagedEvent) → self.old.staged ≡ Some s
            → self.new ≡ with_done self.old s.event }
    {
        if let Some(staged) = self.staged.take() {
            if staged.opens() {
                self.count += 1;
            }
            self.ids = self.ids.after(&staged);
        }
    }

    /// Drops the staged change.
    pub fn abandon(&mut self)
        ensures { self.new ≡ record { ids = self.old.ids; staged = None } }
    {
        self.staged = None;
    }

    /// Takes an open comm's id out. It takes no memory.
    pub fn close(&mut self, id: &str)
        requires { has_id self.old.ids id.now ≡ true }
        ensures { self.new ≡
            record { ids = without id.now self.old.ids; staged = self.old.staged } }
    {
        self.ids = self.ids.without(id);
        self.count -= 1;
    }
}
