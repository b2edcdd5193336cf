ghost use Rattle.std.specs.Prelude.{◌≡◌, ◌<◌, ℕ, Ok, IfOk, IfSome};
ghost use Rattle.comm_core.specs.declared.call.Call.TheVariants as call;
ghost use Rattle.comm_messages.specs.Envelope.{envelope};
ghost use Rattle.comm_messages.specs.Fields.{fields};
ghost use Rattle.comm_script.specs.Line.{Gives};
ghost use Rattle.comm_script.specs.Command.{asked_by_message, asked_from, asked_in, asked, HandsNothing};
ghost use Rattle.comm_script.specs.declared.asked.Request.TheVariants.{Change};

use crate::asked::{LineFault, Request};
use crate::command::command;
use bumpalo::Bump;
use comm_core::Call;
use comm_json::TextScratch;
use comm_messages::{
    EnvelopeRef, Fields, Incoming, client_of, envelope_of_line, fields_of, member, message_from,
    object_among,
};
use comm_reader::{message_at_once, push_at_once};
use comm_value::{Dict, KnownTexts, Numbers, Text};
use std::alloc::Global;

/// The memory that lines are read with: what they are parsed into, and the short texts that were met before. It changes
/// nothing of what is read: keep one from line to line, so that few lines take memory for it.
#[derive(Drop)]
pub struct LineMemory {
    scratch: TextScratch,
    lists: Bump,
    texts: KnownTexts,
}

impl LineMemory {
    /// An empty one, which has allocated nothing.
    pub fn new(alloc: Global) -> LineMemory {
        LineMemory {
            scratch: TextScratch::new(alloc),
            lists: Bump::new(alloc),
            texts: KnownTexts::new(alloc),
        }
    }
}

/// What a frontend's message asks for.
pub fn asked_by_message(incoming: Incoming) -> Request
    ensures asked { result ≡ asked_by_message incoming }
    ensures handless { HandsNothing result }
{
    match incoming {
        Incoming::Open {
            id,
            target,
            version,
            body,
        } => Request::Change(Call::Open {
            id,
            target,
            version,
            body,
        }),
        Incoming::Msg { id, body } => Request::Change(Call::Msg { id, body }),
        Incoming::Close { id } => Request::Change(Call::Close { id }),
        Incoming::InfoRequest { target } => Request::Infos { target },
    }
}

/// What the message of an envelope asks for, with these numbers as values, and the index of its client. Err: the first
/// test that fails, or Memory.
pub fn asked_from(
    alloc: Global,
    from: &EnvelopeRef<'_, '_>,
    clients: u8,
    numbers: Numbers,
    texts: &mut KnownTexts,
) -> Result<(u8, Request), LineFault>
    requires { 0 < clients }
    ensures asked { Gives (λ r. (r.0, r.1)) result
        (asked_from numbers clients (envelope from.now)) }
    ensures below { IfOk result (λ r. r.0 < clients) }
    ensures handless { IfOk result (λ r. HandsNothing r.1) }
{
    let (client, incoming) = message_from(alloc, from, clients, numbers, texts)?;
    Ok((client, asked_by_message(incoming)))
}

fn asked_in(
    alloc: Global,
    line: Fields<'_, '_>,
    clients: u8,
    numbers: Numbers,
    texts: &mut KnownTexts,
) -> Result<(u8, Request), LineFault>
    requires { 0 < clients }
    ensures asked { Gives (λ r. (r.0, r.1)) result (asked_in numbers clients (fields line.entry)) }
    ensures below { IfOk result (λ r. r.0 < clients) }
    ensures handless { IfOk result (λ r. HandsNothing r.1) }
{
    match member(line, "call") {
        None => asked_from(alloc, &envelope_of_line(line), clients, numbers, texts),
        Some(call) => {
            let client = client_of(member(line, "client"), clients)?;
            let asked = command(alloc, numbers, texts, call, line)?;
            Ok((client, asked))
        }
    }
}

/// The client of a line, and what the line asks for. Err: the first test that fails, or Memory.
pub fn parse_line(
    alloc: Global,
    line: &[u8],
    clients: u8,
    numbers: Numbers,
    memory: &mut LineMemory,
) -> Result<(u8, Request), LineFault>
    requires { 0 < clients }
    ensures asked { Gives (λ r. (r.0, r.1)) result (asked numbers clients line.now) }
    ensures below { IfOk result (λ r. r.0 < clients) }
    ensures handless { IfOk result (λ r. HandsNothing r.1) }
{
    let LineMemory {
        scratch,
        lists,
        texts,
    } = memory;
    // The lists of the last line were dropped. If one were left, the arena would grow instead of being emptied.
    let _ = lists.reset();
    parse_line_among(alloc, line, clients, numbers, scratch, &*lists, texts)
}

// The id and the state of a push without buffers, if the line can be read at once as one.
#[inline(always)]
fn pushed_at_once<'a>(
    alloc: Global,
    line: &'a [u8],
    numbers: Numbers,
    scratch: &'a mut TextScratch,
    texts: &mut KnownTexts,
) -> Option<(Text, Dict)>
    ensures { IfSome result (λ p. (clients : ℕ) → asked numbers clients line.now
        ≡ Ok (0, Change (call.Push p.0 p.1))) }
{
    if line.starts_with(b"{\"call\":\"push\"") {
        push_at_once(alloc, line, numbers, scratch, texts)
    } else {
        None
    }
}

/// Reads a line as [`parse_line`] does. Its strings are parsed into the scratch, its lists into the arena. The line of
/// a frontend's message is read in one walk where it can be ([`message_at_once`]), and so is a push without buffers
/// ([`push_at_once`]), else from its parsed object.
#[inline(always)]
pub fn parse_line_among<'a>(
    alloc: Global,
    line: &'a [u8],
    clients: u8,
    numbers: Numbers,
    scratch: &'a mut TextScratch,
    lists: &'a Bump,
    texts: &mut KnownTexts,
) -> Result<(u8, Request), LineFault>
    requires { 0 < clients }
    ensures asked { Gives (λ r. (r.0, r.1)) result (asked numbers clients line.now) }
    ensures below { IfOk result (λ r. r.0 < clients) }
    ensures handless { IfOk result (λ r. HandsNothing r.1) }
{
    // Another command isn't tried.
    if line.starts_with(b"{\"call\"") {
        if let Some((id, state)) = pushed_at_once(alloc, line, numbers, scratch, texts) {
            return Ok((0, Request::Change(Call::Push { id, state })));
        }
    } else if let Some((client, incoming)) = message_at_once(
        alloc, line, "call", clients, numbers, scratch, lists, texts,
    ) {
        return Ok((client, asked_by_message(incoming)));
    }
    let members = object_among(line, scratch, lists)?;
    asked_in(alloc, fields_of(&members), clients, numbers, texts)
}
