ghost use Rattle.std.specs.Prelude.{◌≡◌};
ghost use Rattle.comm_script.specs.Status.{status_of};

use crate::fault::RunFault;

/// The exit status of a program that played a script: 0 where the whole script was played, 1 where it couldn't be
/// read or what is said couldn't be written, 2 where memory ran out, a limit is out of its bounds, or a client had no
/// version to read.
pub fn exit_status(end: Result<(), RunFault>) -> u8
    ensures { result ≡ status_of end }
{
    match end {
        Ok(()) => 0,
        Err(RunFault::Read | RunFault::Write) => 1,
        Err(RunFault::Memory | RunFault::BadLimits | RunFault::NoReader) => 2,
    }
}
