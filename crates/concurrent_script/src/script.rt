//! A script, taken apart by clients.
use crate::limits::CLIENTS;
use crate::transcript::Transcript;
use comm_script::{LineMemory, RunFault, is_blank, parse_line, split_line};
use comm_value::Numbers;
use std::alloc::{AllocError, Global};
use std::io::{ErrorKind, Read};
use std::sync::Mutex;

/// A line that isn't blank, by its number in the script, from 1.
#[derive(Drop)]
pub struct ScriptLine {
    pub number: u64,
    pub text: Vec<u8>,
}

/// A client's lines, and what came of them, which the thread that plays them notes.
#[derive(Drop)]
pub struct ClientScript {
    pub lines: Vec<ScriptLine>,
    pub transcript: Mutex<Transcript>,
}

/// Each client's lines, in their order.
#[derive(Drop)]
pub struct Script {
    alloc: Global,
    memory: LineMemory,
    count: u64,
    parts: Vec<ClientScript>,
}

impl Script {
    fn new(alloc: Global) -> Result<Script, AllocError> {
        let mut parts = Vec::new(alloc);
        for _ in 0..CLIENTS {
            parts.push(ClientScript {
                lines: Vec::new(alloc),
                transcript: Mutex::new(Transcript::new(alloc)),
            })?;
        }
        Ok(Script {
            alloc,
            memory: LineMemory::new(alloc),
            count: 0,
            parts,
        })
    }

    // The client of a line. One that can't be read is client 0's.
    fn client_of_line(&mut self, text: &[u8]) -> Result<u8, RunFault> {
        match parse_line(self.alloc, text, CLIENTS, Numbers::Whole, &mut self.memory) {
            Ok((client, _asked)) => Ok(client),
            Err(fault) if fault.is_memory() => Err(RunFault::Memory),
            Err(_) => Ok(0),
        }
    }

    // The next line; a blank one is only counted.
    fn push_line(&mut self, text: &[u8]) -> Result<(), RunFault> {
        self.count = self.count.saturating_add(1);
        if is_blank(text) {
            return Ok(());
        }
        let client = self.client_of_line(text)?;
        let mut copy = Vec::new(self.alloc);
        copy.extend_from_slice(text)?;
        let Some(part) = self.parts.get_mut(usize::from(client)) else {
            return Err(RunFault::NoReader);
        };
        part.lines.push(ScriptLine {
            number: self.count,
            text: copy,
        })?;
        Ok(())
    }

    // The lines of a text.
    fn push_lines(&mut self, text: &[u8]) -> Result<(), RunFault> {
        let mut rest = text;
        while let Some((line, more)) = split_line(rest) {
            self.push_line(line)?;
            rest = more;
        }
        if !rest.is_empty() {
            self.push_line(rest)?;
        }
        Ok(())
    }

    /// The clients' lines, in the order of their numbers.
    pub(crate) fn into_parts(self) -> Vec<ClientScript> {
        self.parts
    }
}

// All that the reader has.
fn read_whole<I: Read>(alloc: Global, reader: &mut I) -> Result<Vec<u8>, RunFault> {
    let mut text = Vec::new(alloc);
    match reader.read_to_end(&mut text) {
        Ok(_) => Ok(text),
        Err(e) => match e.kind() {
            ErrorKind::OutOfMemory => Err(RunFault::Memory),
            _ => Err(RunFault::Read),
        },
    }
}

/// Reads the whole script. Err: Read where the reader fails, or Memory.
pub(crate) fn read_script<I: Read>(alloc: Global, reader: &mut I) -> Result<Script, RunFault> {
    let text = read_whole(alloc, reader)?;
    let mut script = Script::new(alloc)?;
    script.push_lines(&text)?;
    Ok(script)
}
