//! New managers.
ghost use Rattle.std.specs.Prelude.{◌≡◌, ◌↔◌, [], true, IfOk, IfErr, IsOk, IsTrue};
ghost use Rattle.comm_core.specs.Limits.{AreAllowed, IsCommsLimit};
ghost use Rattle.comm_core.specs.Ready.{state};
ghost use Rattle.comm_core.specs.Tables.{TargetsMean};
ghost use Rattle.comm_core.specs.declared.limits.NewFault.TheVariants.{BadLimits};

use super::Core;
use crate::comms::Comms;
use crate::limits::{BadCommsLimit, Limits, NewFault, is_comms_limit};
use crate::target_table::TargetTable;
use comm_targets::Target;
use std::alloc::Global;

impl<T: Target> Core<T> {
    /// A manager without targets and comms. BadLimits exactly where a limit is out of its bounds.
    pub fn new(alloc: Global, limits: Limits) -> Result<Core<T>, NewFault>
        ensures allowed { IsOk result ↔ AreAllowed limits }
        ensures core { IfOk result (λ c. c ≡ state limits.comms [] [] true) }
        ensures means { IfOk result (λ c. TargetsMean c.targets c.comms) }
        ensures err { IfErr result (λ e. e ≡ BadLimits) }
    {
        if !limits.are_allowed() {
            return Err(NewFault::BadLimits);
        }
        Ok(Core::empty(alloc, limits.comms))
    }

    /// [`Core::new`] for more comms: as many as `comms` may be open at a time, from 1 to [`MOST_COMMS`]. It allocates
    /// nothing, and no call costs more where the limit is greater. Err: `comms` is out of these bounds.
    ///
    /// [`MOST_COMMS`]: crate::MOST_COMMS
    pub fn with_comms_limit(alloc: Global, comms: usize) -> Result<Core<T>, BadCommsLimit>
        ensures allowed { IsOk result ↔ IsCommsLimit comms }
        ensures core { IfOk result (λ c. c ≡ state comms [] [] true) }
        ensures means { IfOk result (λ c. TargetsMean c.targets c.comms) }
    {
        if !is_comms_limit(comms) {
            return Err(BadCommsLimit);
        }
        Ok(Core::empty(alloc, comms))
    }

    // A manager without targets and comms, of which at most `limit` comms may be open.
    fn empty(alloc: Global, limit: usize) -> Core<T>
        ensures core { result ≡ state limit [] [] true }
        ensures means { TargetsMean result.targets result.comms }
    {
        Core {
            alloc,
            limit,
            settled: true,
            targets: TargetTable::new(alloc),
            comms: Comms::new(alloc),
        }
    }
}
