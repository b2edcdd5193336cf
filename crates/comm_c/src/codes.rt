//! The status numbers that C gets. `rolgunai.h` has the same.
ghost use Rattle.std.specs.Prelude.{◌≡◌, option_map};
ghost use Rattle.comm_c.specs.BuiltinTarget.{kind_of};
ghost use Rattle.comm_c.specs.Codes.{kind_numbered};

use crate::builtin_target::BuiltinKind;

/// The call was made.
pub const OK: u32 = 0;

/// The handle has no manager.
pub const CLOSED: u32 = 1;

/// Out of memory, and nothing has changed.
pub const MEMORY: u32 = 2;

/// The limit of comms is out of its bounds.
pub const BAD_LIMIT: u32 = 3;

/// The handle has a manager already.
pub const ALREADY_OPEN: u32 = 4;

/// The call was made, and what is asked for, which the manager keeps, is longer than the caller's buffer.
pub const BUFFER_TOO_SMALL: u32 = 5;

/// The manager has had as many calls as it takes.
pub const EXHAUSTED: u32 = 6;

/// An id, a name or a UUID isn't UTF-8.
pub const BAD_NAME: u32 = 7;

/// No kind of target has the number.
pub const BAD_KIND: u32 = 8;

/// The sizes aren't those of the binary buffers.
pub const BAD_SIZES: u32 = 9;

/// A part isn't JSON.
pub const NOT_JSON: u32 = 10;

/// There is no such message, or it has no such part.
pub const NO_PART: u32 = 11;

/// The line was played, and out of memory for its text, which may be asked for again.
pub const NO_TEXT: u32 = 12;

/// Another client's call is inside; nothing has changed, and the call may be made again.
pub const BUSY: u32 = 13;

/// What is shown isn't as late as was asked for, or as what the client has seen; nothing has changed.
pub const AGAIN: u32 = 14;

/// There are as many clients as a manager has at a time.
pub const NO_SEAT: u32 = 15;

/// The client and the manager don't fit, which can't be.
pub const STRANGER: u32 = 16;

/// The kind of target that has this number; `Echo` and `Counter` have none, since they are for scripts and
/// tests.
pub fn kind_numbered(number: u32) -> Option<BuiltinKind>
    ensures { option_map kind_of result ≡ kind_numbered number }
{
    if number == 2 {
        Some(BuiltinKind::Widget)
    } else if number == 3 {
        Some(BuiltinKind::Plain)
    } else if number == 4 {
        Some(BuiltinKind::WidgetEcho)
    } else if number == 5 {
        Some(BuiltinKind::Opaque)
    } else {
        None
    }
}
