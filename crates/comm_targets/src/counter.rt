ghost use Rattle.std.specs.Prelude.{◌≡◌, ℕ, pos, IfOk};
ghost use Rattle.comm_value.specs.View.{tree};
ghost use Rattle.comm_value.specs.Tree.{whole};
ghost use Rattle.comm_targets.specs.Meaning.{count_with, new_of, one_more};
ghost use Rattle.comm_targets.specs.Answers.{count_answer, count_of};

use crate::answer::{Answer, Bodies};
use crate::event::Event;
use crate::fault::TargetFault;
use crate::kind::Kind;
use crate::open_comms::OpenComms;
use crate::target::Target;
use comm_messages::{Body, OutgoingBody};
use comm_value::{Buffers, Dict, Text, Val, Whole};
use std::alloc::{AllocError, Global};

/// A target of kind Counter: each message is answered with `{"count":n}`, where n is how many came to all its comms.
#[derive(Drop)]
pub struct Counter {
    alloc: Global,
    comms: OpenComms,
    count: u64,
}

impl Counter {
    /// A target with no comm, to which no message came. It takes no memory.
    pub fn new(alloc: Global) -> Counter
        ensures { ⟦<Counter as Target>⟧.means result ≡ new_of Kind.Counter }
    {
        Counter {
            alloc,
            comms: OpenComms::new(),
            count: 0,
        }
    }

    // The count once one more message came.
    fn next(&self) -> u64
        ensures { result ≡ one_more self.now.count }
    {
        self.count.saturating_add(1)
    }

    // The count once what is staged is done.
    fn count_staged(&self) -> u64
        ensures { result ≡ count_with self.now.comms.staged self.now.count }
    {
        if self.comms.has_message() {
            self.next()
        } else {
            self.count
        }
    }
}

// The answer, where a message makes the count this.
fn count_answer(alloc: Global, next: u64, event: &Event) -> Result<Answer, AllocError>
    ensures { (notes : ℕ) → next ≡ one_more notes
        → IfOk result (λ a. a ≡ count_answer notes event.now) }
{
    let messages = match event {
        Event::Msg { .. } => { Bodies::one(alloc, OutgoingBody::new(count_body(alloc, next)?))? }
        _ => Bodies::new(alloc),
    };
    Ok(Answer {
        state: None,
        messages,
        custom: None,
    })
}

// `{"count":n}`
fn count_body(alloc: Global, count: u64) -> Result<Body, AllocError>
    ensures { IfOk result (λ b. b ≡ count_of count) }
{
    let key = Text::copy_of(alloc, "count")?;
    let content = Dict::new().insert(alloc, key, number(count))?;
    Ok(Body::new(content, Buffers::none(alloc)))
}

fn number(count: u64) -> Val
    ensures { tree result ≡ whole (pos count) }
{
    match Whole::new(count as i128) {
        Some(whole) => Val::Whole(whole),
        None => unreachable!(),
    }
}

impl Target for Counter {
    ghost use Rattle.comm_targets.specs.declared.kind.Kind.TheVariants as kind;

    ghost means = { λ c. record { kind = kind.Counter; notes = c.count; ids = c.comms.ids; staged = c.comms.staged } };

    fn kind(&self) -> Kind {
        Kind::Counter
    }

    fn notes(&self) -> u64 {
        self.count
    }

    fn idle(&self) -> bool {
        self.comms.is_idle()
    }

    fn prepare(&mut self, event: &Event, _now: Option<&Dict>) -> Result<Answer, TargetFault> {
        let answer = count_answer(self.alloc, self.next(), event)?;
        if self.comms.stage(event, &answer).is_err() {
            drop(answer);
            return Err(TargetFault::Memory);
        }
        Ok(answer)
    }

    fn commit(&mut self) {
        self.count = self.count_staged();
        self.comms.commit();
    }

    fn abandon(&mut self) {
        self.comms.abandon();
    }

    fn close(&mut self, id: &str) {
        self.comms.close(id);
    }

    fn stop(&mut self) {}
}
