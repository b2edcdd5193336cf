//! Listings: the whole one, of what stands in order, and the part of one target.
ghost use Rattle.std.specs.Prelude.{◌≡◌, IfOk, map, filter, option_map};
ghost use Rattle.comm_messages.specs.Listed.{IdsAreInOrder};
ghost use Rattle.comm_core.specs.Reads.{passes};
ghost use Rattle.comm_core.specs.Kept.{shown};

use comm_messages::{Info, Infos};
use comm_value::Text;
use std::alloc::{AllocError, Global};
use std::collections::BTreeMap;

/// The comms of these ids, in their order, with the names of their targets.
pub fn infos_of(alloc: Global, pairs: BTreeMap<Text, Text>) -> Result<Infos, AllocError>
    requires { IdsAreInOrder (map shown pairs.entries) }
    ensures { IfOk result (λ v. v ≡ map shown pairs.entries) }
{
    let mut all = Vec::with_capacity(alloc, pairs.len())?;
    for (id, target) in pairs {
        all.push(Info { id, target })?;
    }
    Infos::new(alloc, all)
}

/// Those of one target where a name is given, otherwise all.
pub fn part_of(alloc: Global, whole: Infos, target: Option<&Text>) -> Result<Infos, AllocError>
    ensures { IfOk result (λ v. v ≡
        filter (λ i. passes (option_map (λ t. t.now) target.entry) i.target) whole) }
{
    let Some(name) = target else {
        return Ok(whole);
    };
    let mut all = Vec::new(alloc);
    for info in whole.as_slice() {
        if name == &info.target {
            let id = info.id.copy()?;
            let target = info.target.copy()?;
            all.push(Info { id, target })?;
        }
    }
    Infos::new(alloc, all)
}
