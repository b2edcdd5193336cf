ghost use Rattle.std.specs.Prelude.{◌≡◌, IfOk};

use comm_targets::{Answer, Bodies, SharedCustom, TargetFault};
use comm_value::Dict;
use std::alloc::AllocError;
use std::marker::Model;
use std::snapshot::Snapshot;

/// A target's answer as a manager and its entries keep it. Contracts see all of it; its messages are among those that
/// go out.
#[derive(Drop)]
pub struct KeptAnswer {
    pub state: Option<Dict>,
    pub custom: Option<SharedCustom>,
    whole: Snapshot<Answer>,
}

impl Model for KeptAnswer {
    ghost use Rattle.comm_targets.specs.declared.answer.Answer.{Answer};
    ghost use Rattle.comm_targets.specs.contracts.answer.Answer as answer;

    ghost Value = { Answer };

    ghost coded = { answer.the_row.coded };

    ghost view = { λ k. record {
      state = k.state;
      messages = k.whole.value.messages;
      custom = k.custom;
    } };
}

impl KeptAnswer {
    /// An answer without its messages, which are moved out, and these.
    pub fn take(answer: Answer) -> (KeptAnswer, Bodies)
        ensures kept { result.0 ≡ answer }
        ensures messages { result.1 ≡ answer.messages }
    {
        let whole = Snapshot::of(&answer);
        let Answer {
            state,
            messages,
            custom,
        } = answer;
        let kept = KeptAnswer {
            state,
            custom,
            whole,
        };
        (kept, messages)
    }

    /// Its state, shared. Err: its count can't be raised.
    pub fn state_copy(&self) -> Result<Option<Dict>, AllocError>
        ensures { IfOk result (λ s. s ≡ self.now.state) }
    {
        match &self.state {
            Some(state) => Ok(Some(state.copy()?)),
            None => Ok(None),
        }
    }
}

/// What a commit needs of what a target gave: the state of its answer, if it has one. Contracts see all of it.
#[derive(Drop)]
pub struct StagedAnswer {
    pub state: Option<Dict>,
    outcome: Snapshot<Option<Result<KeptAnswer, TargetFault>>>,
}

impl Model for StagedAnswer {
    ghost use Rattle.std.specs.Prelude.{Option};
    ghost use Rattle.comm_core.specs.Step.{Outcome};
    ghost use Rattle.comm_core.specs.ReadyCode.{outcome_code};
    ghost use Rattle.comm_core.specs.Told.{HasStateOf};

    ghost Value = { Option Outcome };

    ghost coded = { outcome_code };

    ghost view = { λ s. s.outcome.value };

    ghost invariant = { λ s. HasStateOf s.outcome.value s.state };
}

impl StagedAnswer {
    /// What is needed of this outcome, whose state is moved out.
    pub fn take(outcome: Option<Result<KeptAnswer, TargetFault>>) -> StagedAnswer
        ensures { result ≡ outcome }
    {
        let seen = Snapshot::of(&outcome);
        let state = match outcome {
            Some(Ok(answer)) => answer.state,
            _ => None,
        };
        StagedAnswer {
            state,
            outcome: seen,
        }
    }

    /// What is needed of this outcome, whose state is shared. Err: its count can't be raised.
    pub fn of(outcome: &Option<Result<KeptAnswer, TargetFault>>) -> Result<StagedAnswer, AllocError>
        ensures { IfOk result (λ s. s ≡ outcome.now) }
    {
        let state = match outcome {
            Some(Ok(answer)) => answer.state_copy()?,
            _ => None,
        };
        Ok(StagedAnswer {
            state,
            outcome: Snapshot::of(outcome),
        })
    }
}
