ghost use Rattle.std.specs.Prelude.{◌≡◌, ◌∷◌, ◌++◌, false, IfSome, IfNone};
ghost use Rattle.comm_script.specs.Lines.{has_line_feed, is_blank};

use memchr::memchr;

/// What stands before the first line feed, and what follows it.
pub fn split_line(bytes: &[u8]) -> Option<(&[u8], &[u8])>
    ensures parts { IfSome result (λ p. bytes.now ≡ p.0.now ++ 10 ∷ p.1.now) }
    ensures first { IfSome result (λ p. has_line_feed p.0.now ≡ false) }
    ensures none { IfNone result (has_line_feed bytes.now ≡ false) }
{
    match memchr(b'\n', bytes) {
        Some(end) => Some((&bytes[..end], &bytes[end + 1..])),
        None => None,
    }
}

/// Whether nothing but spaces, tabs and carriage returns stands in the line.
pub fn is_blank(line: &[u8]) -> bool
    ensures { result ≡ is_blank line.now }
{
    line.iter().all(|b| *b == 32 || (*b == 9 || *b == 13))
}
