//! How often a script's reader is called.
ghost use Rattle.std.specs.Prelude.{◌≡◌};
ghost use Rattle.comm_script.specs.Reads.{max_reads};

// 4,294,967,295.
const MAX_READS: u32 = u32::MAX;

/// How often the reader of one script is called, at most.
pub fn max_reads() -> u32
    ensures { result ≡ max_reads }
{
    MAX_READS
}
