// Strings as JSON text.
ghost use Rattle.std.specs.Prelude.{◌≡◌, ◌+◌, ◌-◌, ◌<◌, ◌≤◌, OnOk, vec_len, vec_capacity};
ghost use Rattle.std.specs.Prelude.{[], ◌∷◌, ◌++◌, length, take, drop};
ghost use Rattle.std.specs.Bool.{OnTrue, OnFalse};
ghost use Rattle.std.specs.Char.{digit_char};
ghost use Rattle.json.specs.Print.{escape_letter, escape_byte, escape, quoted};
ghost use Rattle.json.specs.Written.{PlainBetween};

use std::alloc::AllocError;
use std::simd::Simd;

/// Appends a byte. Where there is room for it no function is called. Err: out of memory.
#[inline(always)]
pub fn push_byte(byte: u8, out: &mut Vec<u8>) -> Result<(), AllocError>
    ensures { OnOk result (out.new.items ≡ out.old.items ++ byte ∷ []) }
{
    if out.len() < out.capacity() {
        out.push_reserved(byte);
        return Ok(());
    }
    Ok(out.push(byte)?)
}

// Makes room for so many bytes more, in the same way.
#[inline(always)]
fn make_room(more: usize, out: &mut Vec<u8>) -> Result<(), AllocError>
    ensures items { out.new.items ≡ out.old.items }
    ensures room { OnOk result (vec_len out.new + more ≤ vec_capacity out.new) }
{
    if more <= out.capacity() - out.len() {
        return Ok(());
    }
    out.reserve(more)
}

// So few bytes are appended one by one: a call that copies them takes longer.
const FEW: usize = 4;

// Appends bytes for which there is room.
#[inline(always)]
fn push_bytes(bytes: &[u8], out: &mut Vec<u8>) -> Result<(), AllocError>
    requires { vec_len out.old + length bytes.now ≤ vec_capacity out.old }
    ensures items { OnOk result (out.new.items ≡ out.old.items ++ bytes.now) }
    ensures len { OnOk result (vec_len out.new ≡ vec_len out.old + length bytes.now) }
    ensures capacity { vec_capacity out.old ≤ vec_capacity out.new }
{
    if bytes.len() > FEW {
        return out.extend_from_slice(bytes);
    }
    let mut at = 0;
    while at < bytes.len() {
        out.push_reserved(bytes[at]);
        at += 1;
    }
    Ok(())
}

/// Appends a string as JSON text with the shortest escapes (RFC 8259, 7). Err: out of memory; `out` may hold a part
/// of it.
pub fn write_text(text: &str, out: &mut Vec<u8>) -> Result<(), AllocError>
    ensures { OnOk result (out.new.items ≡ out.old.items ++ quoted text.now) }
{
    let bytes = text.as_bytes();
    if !is_plain(bytes) {
        return write_quoted_escapes(bytes, out);
    }
    make_room(bytes.len() + 2, out)?;
    out.push_reserved(b'"');
    push_bytes(bytes, out)?;
    out.push_reserved(b'"');
    Ok(())
}

#[inline(never)]
fn write_quoted_escapes(bytes: &[u8], out: &mut Vec<u8>) -> Result<(), AllocError>
    ensures { OnOk result (out.new.items ≡ out.old.items ++ 34 ∷ (escape bytes.now ++ 34 ∷ [])) }
{
    push_byte(b'"', out)?;
    write_escaped(bytes, out)?;
    push_byte(b'"', out)
}

/// Appends a member's key with its colon, and before it the comma or the bracket that stands there. Err: out of memory;
/// `out` may hold a part of it.
#[inline(always)]
pub fn write_key(first: u8, key: &str, out: &mut Vec<u8>) -> Result<(), AllocError>
    ensures { OnOk result (out.new.items
        ≡ out.old.items ++ first ∷ (quoted key.now ++ 58 ∷ [])) }
{
    let bytes = key.as_bytes();
    if !is_plain(bytes) {
        out.push(first)?;
        write_quoted_escapes(bytes, out)?;
        return Ok(out.push(b':')?);
    }
    make_room(bytes.len() + 4, out)?;
    out.push_reserved(first);
    out.push_reserved(b'"');
    push_bytes(bytes, out)?;
    out.push_reserved(b'"');
    out.push_reserved(b':');
    Ok(())
}

// Whether no byte needs an escape, as in most strings. Two vectors that overlap cover one of up to 64 bytes.
fn is_plain(bytes: &[u8]) -> bool
    ensures { OnTrue result (escape bytes.now ≡ bytes.now) }
{
    let len = bytes.len();
    if len < 4 {
        few_are_plain(bytes)
    } else if len <= 8 {
        ends_are_plain::<4>(bytes)
    } else if len <= 16 {
        ends_are_plain::<8>(bytes)
    } else if len <= 32 {
        ends_are_plain::<16>(bytes)
    } else if len <= 64 {
        ends_are_plain::<32>(bytes)
    } else {
        many_are_plain(bytes)
    }
}

#[inline(always)]
fn few_are_plain(bytes: &[u8]) -> bool
    ensures { OnTrue result (escape bytes.now ≡ bytes.now) }
{
    for byte in bytes {
        if needs_escape(*byte) {
            return false;
        }
    }
    true
}

#[inline(always)]
fn ends_are_plain<const N: usize>(bytes: &[u8]) -> bool
    requires { (N ≤ 64) × (N ≤ length bytes.now) × (length bytes.now ≤ N + N) }
    ensures { OnTrue result (PlainBetween bytes.now 0 (length bytes.now)) }
{
    plain_at::<N>(bytes, 0) && plain_at::<N>(bytes, bytes.len() - N)
}

#[inline(always)]
fn many_are_plain(bytes: &[u8]) -> bool
    requires { 64 ≤ length bytes.now }
    ensures { OnTrue result (PlainBetween bytes.now 0 (length bytes.now)) }
{
    let mut at = 0;
    while bytes.len() - at > 64 {
        if !plain_at::<64>(bytes, at) {
            return false;
        }
        at += 64;
    }
    plain_at::<64>(bytes, bytes.len() - 64)
}

// Whether none of the N bytes from `at` on needs an escape.
#[inline(always)]
fn plain_at<const N: usize>(bytes: &[u8], at: usize) -> bool
    requires { (N ≤ 64) × (at + N ≤ length bytes.now) }
    ensures { OnTrue result (PlainBetween bytes.now at (at + N)) }
{
    let lanes = Simd::<u8, N>::from_slice(&bytes[at..]);
    let escaped = lanes.simd_eq(Simd::splat(b'"'))
        | lanes.simd_eq(Simd::splat(b'\\'))
        | lanes.simd_lt(Simd::splat(0x20));
    escaped.to_bitmask() == 0
}

// Bytes between two escapes are appended at once.
fn write_escaped(bytes: &[u8], out: &mut Vec<u8>) -> Result<(), AllocError>
    ensures { OnOk result (out.new.items ≡ out.old.items ++ escape bytes.now) }
{
    let mut at = 0;
    while at < bytes.len() {
        let end = plain_end(bytes, at);
        out.extend_from_slice(&bytes[at..end])?;
        at = end;
        if at < bytes.len() {
            write_escape(bytes[at], out)?;
            at += 1;
        }
    }
    Ok(())
}

// An end of bytes from `from` on that need no escape, eight at a time where there are as many.
#[inline(always)]
fn plain_end(bytes: &[u8], from: usize) -> usize
    requires { from ≤ length bytes.now }
    ensures within { (from ≤ result) × (result ≤ length bytes.now) }
    ensures plain { escape (drop from bytes.now)
        ≡ take (result - from) (drop from bytes.now) ++ escape (drop result bytes.now) }
{
    let mut at = from;
    while bytes.len() - at >= 8 && plain_at::<8>(bytes, at) {
        at += 8;
    }
    while at < bytes.len() && !needs_escape(bytes[at]) {
        at += 1;
    }
    at
}

#[tactic(auto, unfolding(json::specs::Print::escape_byte))]
fn needs_escape(byte: u8) -> bool
    ensures { OnFalse result (escape_byte byte ≡ byte ∷ []) }
{
    byte < 0x20 || byte == b'"' || byte == b'\\'
}

#[tactic(auto, unfolding(json::specs::Print::escape_byte))]
fn write_escape(byte: u8, out: &mut Vec<u8>) -> Result<(), AllocError>
    ensures { OnOk result (out.new.items ≡ out.old.items ++ escape_byte byte) }
{
    let letter = letter_of(byte);
    if letter > 0 {
        push_byte(b'\\', out)?;
        push_byte(letter, out)
    } else if byte < 0x20 {
        out.extend_from_slice(&[b'\\', b'u', b'0', b'0', hex(byte / 16), hex(byte % 16)])
    } else {
        Ok(out.push(byte)?)
    }
}

fn letter_of(byte: u8) -> u8
    ensures { result ≡ escape_letter byte }
{
    match byte {
        b'"' | b'\\' => byte,
        8 => b'b',
        12 => b'f',
        b'\n' => b'n',
        b'\r' => b'r',
        b'\t' => b't',
        _ => 0,
    }
}

fn hex(digit: u8) -> u8
    requires { digit < 16 }
    ensures { result ≡ digit_char digit }
{
    if digit < 10 {
        b'0' + digit
    } else {
        b'a' - 10 + digit
    }
}
