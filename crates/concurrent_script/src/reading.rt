//! What a line says beside what it asks for.
use crate::limits::CLIENTS;
use comm_json::{JsonKind, ParseArena};
use comm_messages::{MessageFault, client_of, fields_of, member, object_in};
use comm_script::RunFault;
use std::alloc::Global;

/// The client that a line names by its key `hear`. What isn't the number of a client names none.
pub(crate) fn heard(alloc: Global, text: &[u8]) -> Result<Option<u8>, RunFault> {
    let mut arena = ParseArena::new(alloc);
    let object = match object_in(text, &mut arena) {
        Ok(object) => object,
        Err(MessageFault::Memory) => return Err(RunFault::Memory),
        Err(_) => return Ok(None),
    };
    let Some(hear) = member(fields_of(&object), "hear") else {
        return Ok(None);
    };
    match hear.kind() {
        JsonKind::Number(_) => Ok(client_of(Some(hear), CLIENTS).ok()),
        _ => Ok(None),
    }
}
