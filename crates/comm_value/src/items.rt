ghost use Rattle.std.specs.Prelude.{◌≡◌, true, IfOk};
ghost use Rattle.comm_value.specs.Order.{items_ordered};
ghost use Rattle.comm_value.specs.View.{items_of};

use crate::val::{Items, Val, Values};
use std::alloc::{AllocError, Global};
use std::sync::Arc;

impl Items {
    /// The values, moved out. They are copied only where copies of the list share them.
    pub(crate) fn into_values(self, alloc: Global) -> Result<Vec<Val>, AllocError>
        ensures shown { IfOk result (λ all. items_of all.items ≡ self) }
        ensures ordered { items_ordered self ≡ true }
    {
        match self.all {
            Values::Nothing => Ok(Vec::new(alloc)),
            Values::Some(all) => match Arc::try_unwrap(all) {
                Ok(all) => Ok(all),
                Err(shared) => copy_values(alloc, shared.as_slice()),
            },
        }
    }

    /// The values.
    pub(crate) fn as_slice(&self) -> &[Val]
        ensures { items_of result.now ≡ self.now }
    {
        match &self.all {
            Values::Nothing => &[],
            Values::Some(all) => all.as_slice(),
        }
    }
}

fn copy_values(alloc: Global, all: &[Val]) -> Result<Vec<Val>, AllocError>
    ensures { IfOk result (λ copies. items_of copies.items ≡ items_of all.now) }
{
    let mut copies = Vec::with_capacity(alloc, all.len())?;
    for value in all {
        copies.push(value.copy()?)?;
    }
    Ok(copies)
}
