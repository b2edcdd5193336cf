ghost use Rattle.std.specs.Prelude.{◌≡◌, Ok, IfOk, IfErr, option_map};
ghost use Rattle.comm_json.specs.Behind.{behind as of_ref};
ghost use Rattle.comm_value.specs.View.{tree};
ghost use Rattle.comm_messages.specs.Envelope.{buffers_in};
ghost use Rattle.comm_messages.specs.Fields.{behind, fields};
ghost use Rattle.comm_value.specs.Paths.{read_paths, Refuses};
ghost use Rattle.comm_script.specs.Line.{Gives};
ghost use Rattle.comm_script.specs.Command.{text_field, object_field, list_or_empty, list_field, kind_named};
ghost use Rattle.comm_script.specs.Command.{kind_field, value_in, placed_at, state_with, state_in};
ghost use Rattle.comm_script.specs.Command.{register_in, unregister_in};
ghost use Rattle.comm_script.specs.Command.{launched, launch_in, push_in, send_in, hang_up_in, state_read_in};
ghost use Rattle.comm_script.specs.Command.{command_named, command, HandsNothing};
ghost use Rattle.uuid.specs.Text.{parsed};
ghost use Rattle.comm_value.specs.Gives.{or_fault};
ghost use Rattle.comm_script.specs.declared.asked.LineFault.TheVariants.{BadUuid};

use crate::asked::{Key, LineFault, Request};
use crate::stock::StockKind;
use comm_core::Call;
use comm_json::{JsonKind, JsonRef};
use comm_messages::{
    BuffersRef, Fields, body_of, buffers_in, dict_of, member, object_or_empty, text,
};
use comm_value::{
    Buffers, Dict, KnownTexts, Numbers, Path, Text, Val, ValueFault, paths_of, put_all,
};
use std::alloc::Global;
use uuid::Uuid;

#[inline(always)]
fn text_field<'v>(key: Key, name: &str, line: Fields<'v, '_>) -> Result<&'v str, LineFault>
    ensures { Gives (λ t. t.now) result (text_field key name.now (fields line.entry)) }
{
    match text(member(line, name)) {
        Some(text) => Ok(text),
        None => Err(LineFault::BadField(key)),
    }
}

#[inline(always)]
fn object_field<'v, 'a>(
    key: Key,
    name: &str,
    line: Fields<'v, 'a>,
) -> Result<Fields<'v, 'a>, LineFault>
    ensures { Gives fields result (object_field key name.now (fields line.entry)) }
{
    match object_or_empty(member(line, name)) {
        Some(object) => Ok(object),
        None => Err(LineFault::BadField(key)),
    }
}

// Whether the buffers are a list; absent or null is an empty one.
fn list_field(line: Fields<'_, '_>) -> Result<(), LineFault>
    ensures { Gives (λ u. u) result (list_field (fields line.entry)) }
{
    let Some(buffers) = member(line, "buffers") else {
        return Ok(());
    };
    match buffers.kind() {
        JsonKind::Null | JsonKind::Items(_) => Ok(()),
        JsonKind::Bool(_) | JsonKind::Number(_) | JsonKind::Text(_) | JsonKind::Object(_) => Err(
            LineFault::BadField(Key::Buffers),
        ),
    }
}

fn kind_named(name: &str) -> Option<StockKind>
    ensures { result ≡ kind_named name.now }
{
    if name == "echo" {
        Some(StockKind::Echo)
    } else if name == "counter" {
        Some(StockKind::Counter)
    } else if name == "widget" {
        Some(StockKind::Widget)
    } else if name == "widget_echo" {
        Some(StockKind::WidgetEcho)
    } else {
        None
    }
}

fn kind_field(line: Fields<'_, '_>) -> Result<StockKind, LineFault>
    ensures { Gives (λ k. k) result (kind_field (fields line.entry)) }
{
    match text(member(line, "kind")) {
        Some(name) => match kind_named(name) {
            Some(kind) => Ok(kind),
            None => Err(LineFault::BadField(Key::Kind)),
        },
        None => Err(LineFault::BadField(Key::Kind)),
    }
}

fn value_in(
    alloc: Global,
    numbers: Numbers,
    texts: &mut KnownTexts,
    json: Option<JsonRef<'_, '_>>,
) -> Result<Option<Val>, LineFault>
    ensures { Gives (λ v. option_map tree v) result (value_in numbers (behind json.entry)) }
{
    match json {
        None => Ok(None),
        Some(json) => Ok(Some(Val::from_ref(alloc, numbers, texts, json)?)),
    }
}

fn paths_in(alloc: Global, value: &Option<Val>) -> Result<Vec<Path>, ValueFault>
    ensures read { IfOk result (λ ps. read_paths (option_map tree value.now) ≡ Ok ps.items) }
    ensures fault { IfErr result (λ e. Refuses e (read_paths (option_map tree value.now))) }
{
    match value {
        Some(value) => paths_of(alloc, Some(value)),
        None => paths_of(alloc, None),
    }
}

fn placed_at(
    alloc: Global,
    paths: Option<Val>,
    buffers: Buffers,
    state: Dict,
) -> Result<Dict, LineFault>
    ensures { Gives (λ d. d) result (placed_at (read_paths (option_map tree paths)) buffers state) }
{
    let read = paths_in(alloc, &paths);
    drop(paths);
    match read {
        Ok(paths) => match put_all(alloc, state, &paths, buffers) {
            Ok(state) => Ok(state),
            Err(fault) => Err(LineFault::Value(fault)),
        },
        Err(fault) => {
            drop(state);
            Err(LineFault::Value(fault))
        }
    }
}

/// A state with the buffers at their paths. Err: the first test that fails, or Memory.
#[tactic(auto, unfolding(crate::specs::Command::state_with))]
pub fn state_with(
    alloc: Global,
    numbers: Numbers,
    texts: &mut KnownTexts,
    object: Fields<'_, '_>,
    paths: Option<JsonRef<'_, '_>>,
    buffers: BuffersRef<'_, '_>,
) -> Result<Dict, LineFault>
    ensures { Gives (λ d. d) result
        (state_with numbers (fields object.entry) (behind paths.entry) (buffers_in buffers.entry)) }
{
    let state = dict_of(alloc, numbers, texts, object)?;
    let paths = match value_in(alloc, numbers, texts, paths) {
        Ok(paths) => paths,
        Err(fault) => {
            drop(state);
            return Err(fault);
        }
    };
    match buffers_in(alloc, buffers) {
        Ok(buffers) => placed_at(alloc, paths, buffers, state),
        Err(fault) => {
            drop(paths);
            drop(state);
            Err(LineFault::Message(fault))
        }
    }
}

fn state_in(
    alloc: Global,
    numbers: Numbers,
    texts: &mut KnownTexts,
    object: Fields<'_, '_>,
    line: Fields<'_, '_>,
) -> Result<Dict, LineFault>
    ensures { Gives (λ d. d) result (state_in numbers (fields object.entry) (fields line.entry)) }
{
    let paths = member(line, "buffer_paths");
    let buffers = BuffersRef::Encoded(member(line, "buffers"));
    state_with(alloc, numbers, texts, object, paths, buffers)
}

#[tactic(auto, unfolding(crate::specs::Command::register_in))]
fn register_in(alloc: Global, line: Fields<'_, '_>) -> Result<Request, LineFault>
    ensures asked { Gives (λ a. a) result (register_in (fields line.entry)) }
    ensures handless { IfOk result HandsNothing }
{
    let kind = kind_field(line)?;
    let name = text_field(Key::Name, "name", line)?;
    let name = Text::copy_of(alloc, name)?;
    Ok(Request::Register { kind, name })
}

fn unregister_in(alloc: Global, line: Fields<'_, '_>) -> Result<Request, LineFault>
    ensures asked { Gives (λ a. a) result (unregister_in (fields line.entry)) }
    ensures handless { IfOk result HandsNothing }
{
    let name = text_field(Key::Name, "name", line)?;
    let name = Text::copy_of(alloc, name)?;
    Ok(Request::Change(Call::Unregister { name }))
}

fn uuid_of(text: &str) -> Result<Uuid, LineFault>
    ensures { Gives (λ u. u) result (or_fault BadUuid (parsed text.now)) }
{
    match Uuid::parse_str(text) {
        Ok(uuid) => Ok(uuid),
        Err(_) => Err(LineFault::BadUuid),
    }
}

/// The launch of a widget with this state. Err: BadUuid or Memory.
pub fn launched(alloc: Global, name: &str, uuid: &str, state: Dict) -> Result<Request, LineFault>
    ensures asked { Gives (λ a. a) result (launched name.now uuid.now state) }
    ensures handless { IfOk result HandsNothing }
{
    match uuid_of(uuid) {
        Ok(id) => match Text::copy_of(alloc, name) {
            Ok(target) => Ok(Request::Change(Call::Launch { id, target, state })),
            Err(fault) => {
                drop(state);
                Err(LineFault::from(fault))
            }
        },
        Err(fault) => {
            drop(state);
            Err(fault)
        }
    }
}

#[tactic(auto, unfolding(crate::specs::Command::launch_in))]
fn launch_in(
    alloc: Global,
    numbers: Numbers,
    texts: &mut KnownTexts,
    line: Fields<'_, '_>,
) -> Result<Request, LineFault>
    ensures asked { Gives (λ a. a) result (launch_in numbers (fields line.entry)) }
    ensures handless { IfOk result HandsNothing }
{
    let name = text_field(Key::Name, "name", line)?;
    let uuid = text_field(Key::Uuid, "uuid", line)?;
    let object = object_field(Key::State, "state", line)?;
    list_field(line)?;
    let state = state_in(alloc, numbers, texts, object, line)?;
    launched(alloc, name, uuid, state)
}

#[tactic(auto, unfolding(crate::specs::Command::push_in))]
fn push_in(
    alloc: Global,
    numbers: Numbers,
    texts: &mut KnownTexts,
    line: Fields<'_, '_>,
) -> Result<Request, LineFault>
    ensures asked { Gives (λ a. a) result (push_in numbers (fields line.entry)) }
    ensures handless { IfOk result HandsNothing }
{
    let id = text_field(Key::Id, "id", line)?;
    let object = object_field(Key::State, "state", line)?;
    list_field(line)?;
    let id = texts.text(alloc, id)?;
    let state = state_in(alloc, numbers, texts, object, line)?;
    Ok(Request::Change(Call::Push { id, state }))
}

#[tactic(auto, unfolding(crate::specs::Command::send_in))]
fn send_in(
    alloc: Global,
    numbers: Numbers,
    texts: &mut KnownTexts,
    line: Fields<'_, '_>,
) -> Result<Request, LineFault>
    ensures asked { Gives (λ a. a) result (send_in numbers (fields line.entry)) }
    ensures handless { IfOk result HandsNothing }
{
    let id = text_field(Key::Id, "id", line)?;
    let object = object_field(Key::Data, "data", line)?;
    list_field(line)?;
    let id = texts.text(alloc, id)?;
    let body = body_of(alloc, numbers, texts, object, line)?;
    Ok(Request::Change(Call::Send { id, body }))
}

fn hang_up_in(alloc: Global, line: Fields<'_, '_>) -> Result<Request, LineFault>
    ensures asked { Gives (λ a. a) result (hang_up_in (fields line.entry)) }
    ensures handless { IfOk result HandsNothing }
{
    let id = text_field(Key::Id, "id", line)?;
    let id = Text::copy_of(alloc, id)?;
    Ok(Request::Change(Call::HangUp { id }))
}

fn state_read_in(alloc: Global, line: Fields<'_, '_>) -> Result<Request, LineFault>
    ensures asked { Gives (λ a. a) result (state_read_in (fields line.entry)) }
    ensures handless { IfOk result HandsNothing }
{
    let id = text_field(Key::Id, "id", line)?;
    let id = Text::copy_of(alloc, id)?;
    Ok(Request::State { id })
}

fn command_named(
    alloc: Global,
    numbers: Numbers,
    texts: &mut KnownTexts,
    name: &str,
    line: Fields<'_, '_>,
) -> Result<Request, LineFault>
    ensures asked { Gives (λ a. a) result (command_named numbers name.now (fields line.entry)) }
    ensures handless { IfOk result HandsNothing }
{
    if name == "register" {
        register_in(alloc, line)
    } else if name == "unregister" {
        unregister_in(alloc, line)
    } else if name == "launch" {
        launch_in(alloc, numbers, texts, line)
    } else if name == "push" {
        push_in(alloc, numbers, texts, line)
    } else if name == "send" {
        send_in(alloc, numbers, texts, line)
    } else if name == "hang_up" {
        hang_up_in(alloc, line)
    } else if name == "state" {
        state_read_in(alloc, line)
    } else {
        Err(LineFault::UnknownCall)
    }
}

/// What a command asks for: a line with the key `call`, whose value is handed in.
pub fn command(
    alloc: Global,
    numbers: Numbers,
    texts: &mut KnownTexts,
    call: JsonRef<'_, '_>,
    line: Fields<'_, '_>,
) -> Result<Request, LineFault>
    ensures asked { Gives (λ a. a) result
        (command numbers (of_ref call.entry) (fields line.entry)) }
    ensures handless { IfOk result HandsNothing }
{
    match call.kind() {
        JsonKind::Text(name) => command_named(alloc, numbers, texts, name, line),
        JsonKind::Null
        | JsonKind::Bool(_)
        | JsonKind::Number(_)
        | JsonKind::Items(_)
        | JsonKind::Object(_) => Err(LineFault::UnknownCall),
    }
}
