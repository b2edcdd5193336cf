//! What readers are shown.
ghost use Rattle.std.specs.Prelude.{◌≡◌, IfOk};

use comm_versions::{RawFront, Version};
use counted_slot::Fits;
use shelf::Shown;
use std::alloc::AllocError;

/// A version of one history: that of its tag.
#[derive(Drop)]
pub struct ShownVersion {
    pub version: Version,
}

impl Fits for ShownVersion {
    type Tag = RawFront;

    ghost use Rattle.std.specs.Prelude.{◌≡◌};

    ghost fits = { λ tag shown. shown.version.front.origin ≡ tag.origin };
}

impl Shown for ShownVersion {
    fn share(&self) -> Result<ShownVersion, AllocError> {
        let version = self.version.try_clone()?;
        Ok(ShownVersion { version })
    }
}
