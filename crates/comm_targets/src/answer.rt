ghost use Rattle.std.specs.Prelude.{◌≡◌, ◌++◌, [], ◌∷◌, IfOk, OnOk, OnErr};
ghost use Rattle.comm_targets.specs.Widget.{nothing};

use crate::shared_custom::SharedCustom;
use comm_messages::OutgoingBody;
use comm_value::{Buffers, Dict, Val};
use std::alloc::{AllocError, Global};
use std::marker::Model;

/// What the caller of a message is handed: a value and the buffers that came with it.
#[derive(Drop)]
pub struct Custom {
    pub content: Val,
    pub buffers: Buffers,
}

/// Bodies of messages in the order in which they go out.
#[derive(Drop)]
pub struct Bodies {
    all: Vec<OutgoingBody>,
}

impl Model for Bodies {
    ghost use Rattle.std.specs.Prelude.{List};
    ghost use Rattle.std.specs.Coded.{coded_list};
    ghost use Rattle.comm_messages.specs.Content.{Content, content_code};

    ghost Value = { List Content };

    ghost coded = { coded_list content_code };

    ghost view = { λ b. b.all.items };
}

/// What a target answers to an event.
#[derive(Drop)]
pub struct Answer {
    /// The comm's new state. With none it keeps what it had; at an opening none means a comm without a state.
    pub state: Option<Dict>,
    /// What goes out on the comm, each as one `comm_msg`.
    pub messages: Bodies,
    /// What the caller is handed. At an opening there is none.
    pub custom: Option<SharedCustom>,
}

impl Bodies {
    /// No body.
    pub fn new(alloc: Global) -> Bodies
        ensures { result ≡ [] }
    {
        Bodies {
            all: Vec::new(alloc),
        }
    }

    /// This body alone. Err: memory.
    pub fn one(alloc: Global, body: OutgoingBody) -> Result<Bodies, AllocError>
        ensures { IfOk result (λ b. b ≡ body ∷ []) }
    {
        match Vec::with_capacity(alloc, 1) {
            Ok(mut all) => {
                all.push_reserved(body);
                Ok(Bodies { all })
            }
            Err(fault) => {
                drop(body);
                Err(fault)
            }
        }
    }

    /// Adds a body, which goes out last. Err: memory; the bodies stay as they were.
    pub fn push(&mut self, body: OutgoingBody) -> Result<(), AllocError>
        ensures ok { OnOk result (self.new ≡ self.old ++ body ∷ []) }
        ensures err { OnErr result (self.new ≡ self.old) }
    {
        self.all.push(body)?;
        Ok(())
    }

    /// The bodies, in the order in which they go out.
    pub fn as_slice(&self) -> &[OutgoingBody]
        ensures { result.now ≡ self.now }
    {
        self.all.as_slice()
    }

    /// The bodies, which are moved out, in the order in which they go out.
    pub fn into_vec(self) -> Vec<OutgoingBody>
        ensures { result.items ≡ self }
    {
        let Bodies { all } = self;
        all
    }

    /// A copy, which shares each body's data and buffers. Err: memory.
    pub fn copy(&self, alloc: Global) -> Result<Bodies, AllocError>
        ensures { IfOk result (λ b. b ≡ self.now) }
    {
        let mut all = Vec::with_capacity(alloc, self.all.len())?;
        for body in &self.all {
            all.push(body.copy(alloc)?)?;
        }
        Ok(Bodies { all })
    }
}

impl Answer {
    /// An answer that changes nothing and sends nothing.
    pub fn empty(alloc: Global) -> Answer
        ensures { result ≡ nothing }
    {
        Answer {
            state: None,
            messages: Bodies::new(alloc),
            custom: None,
        }
    }

    /// A copy, which shares the state, bodies and buffers. Err: memory.
    pub fn copy(&self, alloc: Global) -> Result<Answer, AllocError>
        ensures { IfOk result (λ a. a ≡ self.now) }
    {
        let state = match &self.state {
            Some(state) => Some(state.copy()?),
            None => None,
        };
        let custom = match &self.custom {
            Some(custom) => Some(custom.copy()?),
            None => None,
        };
        Ok(Answer {
            state,
            messages: self.messages.copy(alloc)?,
            custom,
        })
    }
}
