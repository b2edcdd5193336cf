ghost use Rattle.std.specs.Prelude.{◌≡◌, false, IfOk};
ghost use Rattle.comm_value.specs.Places.{members_have_bytes};

use comm_value::{Buffers, Dict};
use std::alloc::{AllocError, Global};
use std::marker::Model;

/// The payload of a comm's message: `data`, which contains no bytes, and the binary buffers beside it ('Messaging in
/// Jupyter' 5.3, "Custom Messages").
#[derive(Drop)]
pub struct Body {
    content: Dict,
    buffers: Buffers,
}

impl Model for Body {
    ghost use Rattle.std.specs.Prelude.{◌≡◌, false};
    ghost use Rattle.comm_value.specs.Places.{members_have_bytes};
    ghost use Rattle.comm_messages.specs.Content.{Content, content_code};

    ghost Value = { Content };

    ghost coded = { content_code };

    ghost view = { λ b. record { content = b.content; buffers = b.buffers } };

    ghost invariant = { λ b. members_have_bytes b.content ≡ false };
}

impl Body {
    /// A body of this `data` and these buffers, which are moved in.
    pub fn new(content: Dict, buffers: Buffers) -> Body
        requires { members_have_bytes content ≡ false }
        ensures { result ≡ record { content = content; buffers = buffers } }
    {
        Self { content, buffers }
    }

    /// A copy that shares the members and the bytes of the buffers. Err: out of memory.
    pub fn copy(&self, alloc: Global) -> Result<Body, AllocError>
        ensures { IfOk result (λ b. b ≡ self.now) }
    {
        let content = self.content.copy()?;
        let buffers = self.buffers.copy(alloc)?;
        Ok(Body { content, buffers })
    }

    /// The `data` of the message, which contains no bytes.
    pub fn content(&self) -> &Dict
        ensures content { result.now ≡ self.now.content }
        ensures plain { members_have_bytes self.now.content ≡ false }
    {
        &self.content
    }

    /// The buffers of the message, in order.
    pub fn buffers(&self) -> &Buffers
        ensures { result.now ≡ self.now.buffers }
    {
        &self.buffers
    }

    /// The `data` and the buffers, moved out.
    pub fn into_parts(self) -> (Dict, Buffers)
        ensures content { result.0 ≡ self.content }
        ensures buffers { result.1 ≡ self.buffers }
        ensures plain { members_have_bytes self.content ≡ false }
    {
        let Body { content, buffers } = self;
        (content, buffers)
    }
}
