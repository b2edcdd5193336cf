ghost use Rattle.std.specs.Prelude.{◌≡◌, ◌↔◌, true, IsTrue, IfOk, IfErr, OnErr, IsSome, None, Some, option_map};
ghost use Rattle.comm_targets.specs.declared.staged_event.StagedEvent.{StagedEvent};
ghost use Rattle.comm_targets.specs.Meaning.{Meaning, IsIdle, IsAskable, is_open};
ghost use Rattle.comm_targets.specs.Meaning.{after_prepare, after_commit, after_abandon, after_close};
ghost use Rattle.comm_targets.specs.Answers.{MayAnswer, MayRefuse};

use crate::answer::Answer;
use crate::event::Event;
use crate::fault::TargetFault;
use crate::kind::Kind;
use comm_value::Dict;

/// An object that comms are opened towards.
///
/// Each event goes through two steps: `prepare` works out the answer and stages the change, and `commit` makes it or
/// `abandon` drops it. All memory is taken in `prepare`, so nothing after it can fail.
pub trait Target: Send + Drop {
    /// What the object means: kind, notes, the ids of its open comms, and what is staged.
    ghost means: { Self → Meaning };

    /// The kind, by which it answers.
    fn kind(&self) -> Kind
        ensures { result ≡ (means self.now).kind };

    /// Of a Counter, how many messages came; of any other kind a number that never changes.
    fn notes(&self) -> u64
        ensures { result ≡ (means self.now).notes };

    /// Whether no comm is open and nothing is staged.
    fn idle(&self) -> bool
        ensures { IsTrue result ↔ IsIdle (means self.now) };

    /// Works out the answer and stages the change. `now` is the comm's state, where it has one.
    ///
    /// Err: why the event is refused, or Memory. Nothing is staged then, and the target means what it meant.
    fn prepare(&mut self, event: &Event, now: Option<&Dict>) -> Result<Answer, TargetFault>
        requires unstaged { (means self.old).staged ≡ None }
        requires askable { IsAskable (means self.old) event.now }
        ensures staged { IfOk result
            (λ a. means self.new ≡ after_prepare (means self.old) event.now a) }
        ensures answers { IfOk result
            (λ a. MayAnswer (means self.old) (option_map (λ d. d.now) now.entry) event.now a) }
        ensures unchanged { OnErr result (means self.new ≡ means self.old) }
        ensures refuses { IfErr result
            (λ f. MayRefuse (means self.old) (option_map (λ d. d.now) now.entry) event.now f) };

    /// Makes the staged change: an opening adds its id, and the notes are those after the event.
    fn commit(&mut self)
        requires { IsSome (means self.old).staged }
        ensures { (s : StagedEvent) → (means self.old).staged ≡ Some s
            → means self.new ≡ after_commit (means self.old) s };

    /// Drops the staged change.
    fn abandon(&mut self)
        requires { IsSome (means self.old).staged }
        ensures { means self.new ≡ after_abandon (means self.old) };

    /// Takes an open comm's id out.
    fn close(&mut self, id: &str)
        requires unstaged { (means self.old).staged ≡ None }
        requires opened { is_open (means self.old) id.now ≡ true }
        ensures { means self.new ≡ after_close (means self.old) id.now };

    /// The last call before the object ends.
    fn stop(&mut self)
        requires { IsIdle (means self.old) }
        ensures { means self.new ≡ means self.old };
}
