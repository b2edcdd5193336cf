// Buffers that come as bytes, beside a message's texts.
ghost use Rattle.std.specs.Prelude.{◌≡◌, IfOk, take, drop};
ghost use Rattle.comm_messages.specs.Buffers.{framed, raw_buffers, split_buffers};

use comm_value::{Buffers, Bytes};
use std::alloc::{AllocError, Global};

/// A buffer where it lies. To C it is a pointer to the first byte, and then how many there are.
#[repr(C)]
#[derive(Clone, Copy)]
pub struct Frame<'a> {
    pub bytes: &'a [u8],
}

/// Buffers as bytes.
#[derive(Clone, Copy)]
pub enum RawBuffers<'a> {
    /// Of these sizes, one after another. One that reaches past the end has the bytes that are there.
    Joined { bytes: &'a [u8], sizes: &'a [usize] },
    /// Each where it lies.
    Frames(&'a [Frame<'a>]),
}

/// Copies each buffer once. Err: memory.
pub fn copy_buffers(alloc: Global, buffers: RawBuffers<'_>) -> Result<Buffers, AllocError>
    ensures { IfOk result (λ b. b ≡ raw_buffers buffers.entry) }
{
    match buffers {
        RawBuffers::Joined { bytes, sizes } => split_buffers(alloc, bytes, sizes),
        RawBuffers::Frames(frames) => copy_frames(alloc, frames),
    }
}

fn copy_frames(alloc: Global, frames: &[Frame<'_>]) -> Result<Buffers, AllocError>
    ensures { IfOk result (λ b. b ≡ framed frames.now) }
{
    let mut all = Vec::with_capacity(alloc, frames.len())?;
    for frame in frames {
        all.push(Bytes::new(alloc, Vec::from_slice(alloc, frame.bytes)?)?)?;
    }
    Ok(Buffers::new(all))
}

// Copies the buffers of these sizes. One that reaches past the end has the bytes that are there.
fn split_buffers(alloc: Global, bytes: &[u8], sizes: &[usize]) -> Result<Buffers, AllocError>
    ensures { IfOk result (λ b. b ≡ split_buffers bytes.now sizes.now) }
{
    let mut all = Vec::with_capacity(alloc, sizes.len())?;
    let mut rest = bytes;
    for size in sizes {
        let (buffer, more) = split_within(rest, *size);
        all.push(Bytes::new(alloc, Vec::from_slice(alloc, buffer)?)?)?;
        rest = more;
    }
    Ok(Buffers::new(all))
}

// The first bytes, as many as the size or all, and those after them.
fn split_within(bytes: &[u8], size: usize) -> (&[u8], &[u8])
    ensures front { result.0.now ≡ take size bytes.now }
    ensures back { result.1.now ≡ drop size bytes.now }
{
    if size <= bytes.len() {
        bytes.split_at(size)
    } else {
        (bytes, &[])
    }
}
