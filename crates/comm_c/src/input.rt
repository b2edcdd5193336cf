//! What a call asks for, and the tests of what it is given.
ghost use Rattle.std.specs.Prelude.{◌≡◌, ◌↔◌, IfOk, IsTrue};
ghost use Rattle.std.specs.List.{sum};
ghost use Rattle.json.specs.Value.{value_view};
ghost use Rattle.comm_json.specs.Behind.{tidy};
ghost use Rattle.comm_messages.specs.Buffers.{raw_buffers};
ghost use Rattle.comm_script.specs.Command.{HandsNothing, of_client};
ghost use Rattle.comm_script.specs.Line.{Reading, Gives as ReadGives};
ghost use Rattle.comm_script.specs.declared.asked.Request.{Request};
ghost use Rattle.comm_c.specs.Handles.{IsAllowed};
ghost use Rattle.comm_c.specs.Inputs.{Gives, input_of, json_tested, name_tested, pair_tested, raw_tested};

use bumpalo::Bump;
use comm_json::{JsonFault, LineValue, TextScratch, read_among};
use comm_messages::{MessageFault, PartsScratch, RawBuffers};
use comm_script::{LineFault, Request};
use comm_value::Text;
use std::alloc::AllocError;
use std::str;

/// How many clients there are: a call names one by 0 to 3.
pub const MAX_CLIENTS: u8 = 4;

/// What a call asks for.
#[derive(Drop)]
pub struct Input {
    /// The client, and its request, or why they can't be read. None: a blank line, which asks for nothing.
    pub asked: Option<Result<(u8, Request), LineFault>>,
    /// The id of a comm that a frontend opens by what can't be read, where the id can: it waits for a close.
    pub opening: Option<Text>,
}

/// Why a call isn't played: the first of its tests that fails, or Memory.
#[derive(Clone, Copy, Drop)]
pub enum CallFault {
    Memory,
    /// An id, a name or a UUID isn't UTF-8.
    BadName,
    /// The sizes don't add up to the buffers.
    BadSizes,
    /// A part isn't one JSON text.
    NotJson,
}

impl From<AllocError> for CallFault {
    ghost use Rattle.comm_c.specs.declared.input.CallFault.TheVariants.{Memory};

    ghost from_gives = { λ _ f. f ≡ Memory };

    fn from(_e: AllocError) -> CallFault {
        CallFault::Memory
    }
}

// ---- tests

// Whether the sizes add up to the whole, without a sum that could overflow.
fn add_up(sizes: &[usize], whole: usize) -> bool
    ensures { IsTrue result ↔ (sum sizes.now ≡ whole) }
{
    let mut left = whole;
    for size in sizes {
        if *size > left {
            return false;
        }
        left -= *size;
    }
    left == 0
}

/// Tests whether buffers that stand one after another are, in these sizes, all of their bytes. Err: BadSizes.
#[tactic(auto, using(crate::proofs::Tests::sizes_add_up, crate::proofs::Tests::sizes_do_not), unfolding(crate::specs::Inputs::frames_tested))]
pub fn test_buffers(buffers: RawBuffers<'_>) -> Result<(), CallFault>
    ensures { Gives (λ _. raw_buffers buffers.entry) result (raw_tested buffers.entry) }
{
    match buffers {
        RawBuffers::Joined { bytes, sizes } if !add_up(sizes, bytes.len()) => Err(
            CallFault::BadSizes,
        ),
        RawBuffers::Joined { .. } | RawBuffers::Frames(_) => Ok(()),
    }
}

/// The text of an id, a name or a UUID. Err: BadName.
#[tactic(auto, using(crate::proofs::Tests::is_a_name, crate::proofs::Tests::is_no_name))]
pub fn name_of(bytes: &[u8]) -> Result<&str, CallFault>
    ensures { Gives (λ s. s.now) result (name_tested bytes.now) }
{
    match str::from_utf8(bytes) {
        Ok(text) => Ok(text),
        Err(_) => Err(CallFault::BadName),
    }
}

/// The value of one JSON text. Err: NotJson or Memory.
pub fn json_of<'a>(
    text: &'a [u8],
    scratch: &'a mut TextScratch,
    lists: &'a Bump,
) -> Result<LineValue<'a>, CallFault>
    ensures { Gives (λ v. tidy (value_view v)) result (json_tested text.now) }
{
    match read_among(text, scratch, lists) {
        Ok(value) => Ok(value),
        Err(JsonFault::NotJson) => Err(CallFault::NotJson),
        Err(JsonFault::Memory) => Err(CallFault::Memory),
    }
}

/// The values of two JSON texts. Err: NotJson or Memory.
pub fn json_pair<'a>(
    first: &'a [u8],
    second: &'a [u8],
    scratch: &'a mut PartsScratch,
    lists: &'a Bump,
) -> Result<(LineValue<'a>, LineValue<'a>), CallFault>
    ensures { Gives (λ p. (tidy (value_view p.0), tidy (value_view p.1))) result
        (pair_tested first.now second.now) }
{
    let PartsScratch {
        header: for_first,
        metadata: for_second,
        content: _,
    } = scratch;
    let first = json_of(first, for_first, lists)?;
    let second = json_of(second, for_second, lists)?;
    Ok((first, second))
}

// ---- inputs

impl Input {
    /// What was read for one of the clients, or why it can't be.
    pub fn reading(read: Result<(u8, Request), LineFault>) -> Input
        ensures { result ≡ input_of read }
    {
        Input {
            asked: Some(read),
            opening: None,
        }
    }

    /// A client's request, where there is such a client. Err: memory, which was the request's fault.
    pub fn for_client(client: u32, request: Result<Request, LineFault>) -> Result<Input, AllocError>
        requires { IfOk request HandsNothing }
        ensures input { (reading : Reading Request) → ReadGives (λ a. a) request reading
            → IfOk result (λ i. i ≡ input_of (of_client 4 client reading)) }
        ensures allowed { IfOk result IsAllowed }
    {
        if client < 4 {
            match request {
                Ok(request) => Ok(Input::reading(Ok((client as u8, request)))),
                Err(fault) if fault.is_memory() => Err(AllocError),
                Err(fault) => Ok(Input::reading(Err(fault))),
            }
        } else {
            drop(request);
            Ok(Input::reading(Err(LineFault::Message(MessageFault::BadClient))))
        }
    }
}
