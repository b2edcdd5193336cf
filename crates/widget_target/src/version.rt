ghost use Rattle.std.specs.Prelude.{◌≡◌, option_map};
ghost use Rattle.comm_targets.specs.Widget.{major, is_supported};

use comm_value::Text;

/// Whether the widget protocol of this version is spoken: what stands before the first '.' is '2'.
/// No version counts as the empty text.
pub fn is_supported(version: Option<&Text>) -> bool
    ensures { result ≡ is_supported (option_map (λ v. v.now) version.entry) }
{
    match version {
        Some(version) => major(version.as_str()) == "2",
        None => false,
    }
}

// What stands before the first '.', or all.
fn major(version: &str) -> &str
    ensures { result.now ≡ major version.now }
{
    match version.split_once('.') {
        Some((major, _)) => major,
        None => version,
    }
}
