ghost use Rattle.std.specs.Prelude.{◌≡◌, IfOk};

use crate::answer::Custom;
use std::alloc::{AllocError, Global};
use std::marker::Model;
use std::sync::Arc;

/// What the caller of a message is handed, in a block that copies share. Few messages have it, so it takes little room
/// where it is absent.
#[derive(Drop)]
pub struct SharedCustom {
    shared: Arc<Custom, Global>,
}

impl Model for SharedCustom {
    ghost use Rattle.std.specs.Arc.{arc_value};
    ghost use Rattle.comm_targets.specs.declared.answer.Custom.{Custom};
    ghost use Rattle.comm_targets.specs.contracts.answer.Custom as custom;

    ghost Value = { Custom };

    ghost coded = { custom.the_row.coded };

    ghost view = { λ c. arc_value c.shared };
}

impl SharedCustom {
    /// Puts it into a block. Err: memory.
    pub fn new(alloc: Global, custom: Custom) -> Result<SharedCustom, AllocError>
        ensures { IfOk result (λ c. c ≡ custom) }
    {
        let shared = Arc::new(alloc, custom)?;
        Ok(SharedCustom { shared })
    }

    /// The value and the buffers.
    pub fn parts(&self) -> &Custom
        ensures { result.now ≡ self.now }
    {
        &self.shared
    }

    /// A copy, which shares them and takes no memory. Err: they can't be shared once more.
    pub fn copy(&self) -> Result<SharedCustom, AllocError>
        ensures { IfOk result (λ c. c ≡ self.now) }
    {
        Ok(SharedCustom {
            shared: Arc::try_clone(&self.shared)?,
        })
    }
}
