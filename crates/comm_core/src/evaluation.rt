//! What a call comes to, once its target was asked.
ghost use Rattle.std.specs.Prelude.{◌≡◌, [], None};
ghost use Rattle.comm_core.specs.declared.table_update.TableUpdate.TheVariants.{Nothing};

use crate::kept_answer::KeptAnswer;
use crate::reply::Reply;
use crate::table_update::TableUpdate;
use comm_messages::Outgoing;
use comm_targets::TargetFault;
use std::alloc::Global;

/// What a call comes to, once its target was asked.
#[derive(Drop)]
pub struct Evaluation {
    /// What the target gave, where one was asked.
    pub outcome: Option<Result<KeptAnswer, TargetFault>>,
    pub reply: Reply,
    /// What goes out, in its order.
    pub outgoing: Vec<Outgoing>,
    pub table_update: TableUpdate,
}

impl Evaluation {
    /// This, where no target was asked.
    pub fn of_no_target(
        reply: Reply,
        outgoing: Vec<Outgoing>,
        table_update: TableUpdate,
    ) -> Evaluation
        ensures outcome { result.outcome ≡ None }
        ensures reply { result.reply ≡ reply }
        ensures outgoing { result.outgoing ≡ outgoing }
        ensures table_update { result.table_update ≡ table_update }
    {
        Evaluation {
            outcome: None,
            reply,
            outgoing,
            table_update,
        }
    }

    /// Just this reply: nothing changes, and nothing goes out.
    pub fn of_reply(alloc: Global, reply: Reply) -> Evaluation
        ensures outcome { result.outcome ≡ None }
        ensures reply { result.reply ≡ reply }
        ensures outgoing { result.outgoing.items ≡ [] }
        ensures table_update { result.table_update ≡ Nothing }
    {
        Evaluation::of_no_target(reply, Vec::new(alloc), TableUpdate::Nothing)
    }
}
