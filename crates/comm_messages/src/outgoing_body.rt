ghost use Rattle.std.specs.Prelude.{◌≡◌, ◌++◌, [], false, IfOk, OnOk, codes};
ghost use Rattle.json.specs.Json.{object};
ghost use Rattle.json.specs.Print.{quoted};
ghost use Rattle.comm_json.specs.Text.{compact_text};
ghost use Rattle.comm_value.specs.Places.{members_have_bytes};
ghost use Rattle.comm_value.specs.ToJson.{json_members};
ghost use Rattle.comm_messages.specs.Told.{method_name, said, told_data};

use crate::body::Body;
use crate::telling::Telling;
use comm_value::{Buffers, Dict, Path, Text, Val, paths_val};
use std::alloc::{AllocError, Global};
use std::marker::Model;

/// The payload of a message that the kernel sends: any [`Body`], or one that tells a state. Where that state has no
/// bytes, no dict is made around it: what stands before and behind it is written as it is.
#[derive(Drop)]
pub struct OutgoingBody {
    // The payload, or in place of its data the state that they tell, which has no bytes.
    body: Body,
    telling: Option<Telling>,
}

impl Model for OutgoingBody {
    ghost use Rattle.comm_messages.specs.Content.{Content, content_code};
    ghost use Rattle.comm_messages.specs.Told.{said};

    ghost Value = { Content };

    ghost coded = { content_code };

    ghost view = { λ b. said b.telling b.body };
}

impl OutgoingBody {
    /// A payload as it is.
    pub fn new(body: Body) -> OutgoingBody
        ensures { result ≡ body }
    {
        OutgoingBody {
            body,
            telling: None,
        }
    }

    /// The payload that tells a state, or some of its keys: `{"buffer_paths":..,"method":..,"state":..}`. Bytes were
    /// taken out of the state; these are where they stood, and the bytes. Err: out of memory.
    pub fn told(
        alloc: Global,
        telling: Telling,
        plain: Dict,
        paths: &[Path],
        buffers: Buffers,
    ) -> Result<OutgoingBody, AllocError>
        requires { members_have_bytes plain ≡ false }
        ensures { IfOk result (λ b. b ≡ record {
          content = told_data (method_name telling) paths.now plain;
          buffers = buffers;
        }) }
    {
        if paths.is_empty() {
            return Ok(OutgoingBody {
                body: Body::new(plain, buffers),
                telling: Some(telling),
            });
        }
        let content = told_data(alloc, telling, plain, paths)?;
        Ok(OutgoingBody::new(Body::new(content, buffers)))
    }

    /// A copy that shares the members and the bytes of the buffers. Err: out of memory.
    pub fn copy(&self, alloc: Global) -> Result<OutgoingBody, AllocError>
        ensures { IfOk result (λ b. b ≡ self.now) }
    {
        Ok(OutgoingBody {
            body: self.body.copy(alloc)?,
            telling: self.telling,
        })
    }

    /// The `data` of the message. Err: out of memory.
    pub fn content(&self, alloc: Global) -> Result<Dict, AllocError>
        ensures { IfOk result (λ d. d ≡ self.now.content) }
    {
        let content = self.body.content().copy()?;
        match self.telling {
            Some(telling) => told_data(alloc, telling, content, &[]),
            None => Ok(content),
        }
    }

    /// The buffers of the message, in order.
    pub fn buffers(&self) -> &Buffers
        ensures { result.now ≡ self.now.buffers }
    {
        self.body.buffers()
    }

    /// Appends the `data` as compact JSON with its keys in byte order. Err: out of memory; `out` may hold a part of
    /// the text.
    pub fn write_json(&self, out: &mut Vec<u8>) -> Result<(), AllocError>
        ensures { OnOk result (out.new.items
            ≡ out.old.items ++ compact_text (object (json_members self.now.content))) }
    {
        let Some(telling) = self.telling else {
            return self.body.content().write_json(out);
        };
        out.extend_from_slice(before_state(telling))?;
        self.body.content().write_json(out)?;
        out.extend_from_slice(b"}")?;
        Ok(())
    }
}

// The text before a state without bytes.
fn before_state(telling: Telling) -> &'static [u8]
    ensures { result.now ≡ codes "{\"buffer_paths\":[],\"method\":"
        ++ (quoted (method_name telling) ++ codes ",\"state\":") }
{
    match telling {
        Telling::Update => b"{\"buffer_paths\":[],\"method\":\"update\",\"state\":",
        Telling::EchoUpdate => b"{\"buffer_paths\":[],\"method\":\"echo_update\",\"state\":",
    }
}

// The data that tell a state. Err: out of memory.
fn told_data(
    alloc: Global,
    telling: Telling,
    plain: Dict,
    paths: &[Path],
) -> Result<Dict, AllocError>
    ensures told { IfOk result (λ d. d ≡ told_data (method_name telling) paths.now plain) }
    ensures no_bytes { members_have_bytes plain ≡ false
        → IfOk result (λ d. members_have_bytes d ≡ false) }
{
    let paths = (
        Text::copy_of(alloc, "buffer_paths")?,
        paths_val(alloc, paths)?,
    );
    let name = Text::copy_of(alloc, telling.name())?;
    let method = (Text::copy_of(alloc, "method")?, Val::Text(name));
    let state = (Text::copy_of(alloc, "state")?, Val::Dict(plain));
    Dict::of_three(alloc, paths, method, state)
}
