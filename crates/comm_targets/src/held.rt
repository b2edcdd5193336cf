ghost use Rattle.std.specs.Prelude.{◌≡◌, ◌↔◌, true, IsTrue, IfOk, IfErr, OnErr, IsSome, None, Some, option_map};
ghost use Rattle.comm_targets.specs.declared.staged_event.StagedEvent.{StagedEvent};
ghost use Rattle.comm_targets.specs.Meaning.{IsIdle, IsAskable, is_open};
ghost use Rattle.comm_targets.specs.Meaning.{after_prepare, after_commit, after_abandon, after_close};
ghost use Rattle.comm_targets.specs.Answers.{MayAnswer, MayRefuse};

use crate::answer::Answer;
use crate::event::Event;
use crate::fault::TargetFault;
use crate::kind::Kind;
use crate::target::Target;
use comm_value::Dict;
use std::marker::Model;

/// A target in use, seen as what it means.
///
/// It can't be dropped: `end` alone takes it, once no comm of it is open, and so each target ends after its comms.
#[must_use]
pub struct Held<T: Target> {
    target: T,
}

impl<T: Target> Model for Held<T> {
    ghost use Rattle.comm_targets.specs.Meaning.{Meaning};
    ghost use Rattle.comm_targets.specs.Code.{meaning_code};

    ghost Value = { Meaning };

    ghost coded = { meaning_code };

    ghost view = { λ h. T.means h.target };
}

impl<T: Target> Held<T> {
    /// Takes a target into use.
    pub fn new(target: T) -> Held<T>
        requires { IsIdle (T.means target) }
        ensures { result ≡ T.means target }
    {
        Held { target }
    }

    /// The target's kind.
    pub fn kind(&self) -> Kind
        ensures { result ≡ self.now.kind }
    {
        self.target.kind()
    }

    /// Of a Counter, how many messages came; of any other kind a number that never changes.
    pub fn notes(&self) -> u64
        ensures { result ≡ self.now.notes }
    {
        self.target.notes()
    }

    /// Whether no comm is open and nothing is staged.
    pub fn idle(&self) -> bool
        ensures { IsTrue result ↔ IsIdle self.now }
    {
        self.target.idle()
    }

    /// Works out the answer and stages the change, as `Target::prepare`. `now` is the comm's state, where it has one.
    /// Err: why the target refuses, or Memory; nothing is staged then.
    pub fn prepare(&mut self, event: &Event, now: Option<&Dict>) -> Result<Answer, TargetFault>
        requires unstaged { self.old.staged ≡ None }
        requires askable { IsAskable self.old event.now }
        ensures staged { IfOk result (λ a. self.new ≡ after_prepare self.old event.now a) }
        ensures answers { IfOk result
            (λ a. MayAnswer self.old (option_map (λ d. d.now) now.entry) event.now a) }
        ensures unchanged { OnErr result (self.new ≡ self.old) }
        ensures refuses { IfErr result
            (λ f. MayRefuse self.old (option_map (λ d. d.now) now.entry) event.now f) }
    {
        self.target.prepare(event, now)
    }

    /// Makes the staged change.
    pub fn commit(&mut self)
        requires { IsSome self.old.staged }
        ensures { (s : StagedEvent) → self.old.staged ≡ Some s
            → self.new ≡ after_commit self.old s }
    {
        self.target.commit();
    }

    /// Drops the staged change.
    pub fn abandon(&mut self)
        requires { IsSome self.old.staged }
        ensures { self.new ≡ after_abandon self.old }
    {
        self.target.abandon();
    }

    /// Takes an open comm's id out.
    pub fn close(&mut self, id: &str)
        requires unstaged { self.old.staged ≡ None }
        requires opened { is_open self.old id.now ≡ true }
        ensures { self.new ≡ after_close self.old id.now }
    {
        self.target.close(id);
    }

    /// Calls the target's `stop` and drops it. It takes no memory. It has no `ensures`: it gives nothing, and nothing
    /// is left of the target of which a clause could speak. A test shows that `stop` was called.
    pub fn end(self)
        requires { IsIdle self }
    {
        let Held { mut target } = self;
        target.stop();
    }
}
