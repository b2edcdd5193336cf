//! What lines and the kernel's calls ask for.
ghost use Rattle.std.specs.Prelude.{◌≡◌, IfOk};
ghost use Rattle.comm_c.specs.Handles.{IsAllowed};
ghost use Rattle.comm_c.specs.Inputs.{Gives, close_input, launch_input, line_input, push_input, send_input};
ghost use Rattle.comm_c.specs.Inputs.{raw_tested, state_input, unregister_input};

use crate::input::{CallFault, Input, MAX_CLIENTS, json_of, json_pair, name_of, test_buffers};
use bumpalo::Bump;
use comm_core::Call;
use comm_json::{JsonRef, TextScratch};
use comm_messages::{BuffersRef, PartsScratch, RawBuffers};
use comm_script::{Request, is_blank, launch_with, parse_line_among, push_with, send_with};
use comm_value::{KnownTexts, Numbers, Text};
use std::alloc::{AllocError, Global};

/// What a line asks for. Err: memory.
pub fn line_input<'a>(
    alloc: Global,
    numbers: Numbers,
    line: &'a [u8],
    scratch: &'a mut TextScratch,
    texts: &mut KnownTexts,
) -> Result<Input, AllocError>
    ensures input { IfOk result (λ i. i ≡ line_input numbers line.now) }
    ensures allowed { IfOk result IsAllowed }
{
    if is_blank(line) {
        return Ok(Input {
            asked: None,
            opening: None,
        });
    }
    let lists = Bump::new(alloc);
    match parse_line_among(alloc, line, MAX_CLIENTS, numbers, scratch, &lists, texts) {
        Ok((client, request)) => Ok(Input::reading(Ok((client, request)))),
        Err(fault) if fault.is_memory() => Err(AllocError),
        Err(fault) => Ok(Input::reading(Err(fault))),
    }
}

/// What a launch by its parts asks for. The sizes are tested first, then the names, then the JSON texts. Err: the first
/// test that fails, or Memory; so of each of these.
#[tactic(auto, unfolding(crate::specs::Inputs::launch_input))]
pub fn launch_input<'a>(
    alloc: Global,
    numbers: Numbers,
    client: u32,
    target: &[u8],
    uuid: &[u8],
    state: &'a [u8],
    paths: &'a [u8],
    buffers: RawBuffers<'_>,
    scratch: &'a mut PartsScratch,
    texts: &mut KnownTexts,
) -> Result<Input, CallFault>
    ensures input { Gives (λ i. i) result (launch_input numbers client target.now uuid.now
        state.now paths.now (raw_tested buffers.entry)) }
    ensures allowed { IfOk result IsAllowed }
{
    test_buffers(buffers)?;
    let name = name_of(target)?;
    let id = name_of(uuid)?;
    let lists = Bump::new(alloc);
    let values = json_pair(state, paths, scratch, &lists)?;
    let request = launch_with(
        alloc,
        numbers,
        texts,
        name,
        id,
        JsonRef::Borrowed(&values.0),
        JsonRef::Borrowed(&values.1),
        BuffersRef::Raw(buffers),
    );
    Ok(Input::for_client(client, request)?)
}

/// What a push by its parts asks for.
#[tactic(auto, unfolding(crate::specs::Inputs::push_input))]
pub fn push_input<'a>(
    alloc: Global,
    numbers: Numbers,
    client: u32,
    id: &[u8],
    state: &'a [u8],
    paths: &'a [u8],
    buffers: RawBuffers<'_>,
    scratch: &'a mut PartsScratch,
    texts: &mut KnownTexts,
) -> Result<Input, CallFault>
    ensures input { Gives (λ i. i) result (push_input numbers client id.now state.now paths.now
        (raw_tested buffers.entry)) }
    ensures allowed { IfOk result IsAllowed }
{
    test_buffers(buffers)?;
    let name = name_of(id)?;
    let lists = Bump::new(alloc);
    let values = json_pair(state, paths, scratch, &lists)?;
    let request = push_with(
        alloc,
        numbers,
        texts,
        name,
        JsonRef::Borrowed(&values.0),
        JsonRef::Borrowed(&values.1),
        BuffersRef::Raw(buffers),
    );
    Ok(Input::for_client(client, request)?)
}

/// What a send by its parts asks for.
#[tactic(auto, unfolding(crate::specs::Inputs::send_input))]
pub fn send_input<'a>(
    alloc: Global,
    numbers: Numbers,
    client: u32,
    id: &[u8],
    content: &'a [u8],
    buffers: RawBuffers<'_>,
    scratch: &'a mut TextScratch,
    texts: &mut KnownTexts,
) -> Result<Input, CallFault>
    ensures input { Gives (λ i. i) result
        (send_input numbers client id.now content.now (raw_tested buffers.entry)) }
    ensures allowed { IfOk result IsAllowed }
{
    test_buffers(buffers)?;
    let name = name_of(id)?;
    let lists = Bump::new(alloc);
    let value = json_of(content, scratch, &lists)?;
    let request = send_with(
        alloc,
        numbers,
        texts,
        name,
        JsonRef::Borrowed(&value),
        BuffersRef::Raw(buffers),
    );
    Ok(Input::for_client(client, request)?)
}

/// What a close by the kernel asks for.
#[tactic(auto, unfolding(crate::specs::Inputs::close_input))]
pub fn close_input(alloc: Global, client: u32, id: &[u8]) -> Result<Input, CallFault>
    ensures input { Gives (λ i. i) result (close_input client id.now) }
    ensures allowed { IfOk result IsAllowed }
{
    let name = name_of(id)?;
    let id = Text::copy_of(alloc, name)?;
    Ok(Input::for_client(client, Ok(Request::Change(Call::HangUp { id })))?)
}

/// What an unregister asks for.
#[tactic(auto, unfolding(crate::specs::Inputs::unregister_input))]
pub fn unregister_input(alloc: Global, client: u32, name: &[u8]) -> Result<Input, CallFault>
    ensures input { Gives (λ i. i) result (unregister_input client name.now) }
    ensures allowed { IfOk result IsAllowed }
{
    let name = name_of(name)?;
    let name = Text::copy_of(alloc, name)?;
    Ok(Input::for_client(client, Ok(Request::Change(Call::Unregister { name })))?)
}

/// What a read of a comm's state asks for.
#[tactic(auto, unfolding(crate::specs::Inputs::state_input))]
pub fn state_input(alloc: Global, id: &[u8]) -> Result<Input, CallFault>
    ensures input { Gives (λ i. i) result (state_input id.now) }
    ensures allowed { IfOk result IsAllowed }
{
    let name = name_of(id)?;
    let id = Text::copy_of(alloc, name)?;
    Ok(Input::reading(Ok((0, Request::State { id }))))
}
