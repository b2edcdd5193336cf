//! What a load came to.
use std::fmt;

/// The counts of a whole load. It is displayed as a JSON object, with `nanos` as `ns`.
#[derive(Clone, Copy)]
pub struct LoadReport {
    pub changes: u64,
    pub reads: u64,
    /// All entries, an end as the last.
    pub history: u64,
    pub taken: u64,
    pub untaken: usize,
    pub sum: u64,
    pub nanos: u128,
}

impl fmt::Display for LoadReport {
    fn fmt<W: fmt::Write>(&self, f: &mut fmt::Formatter<W>) -> fmt::Result {
        let LoadReport {
            changes,
            reads,
            history,
            taken,
            untaken,
            sum,
            nanos,
        } = *self;
        write!(
            f,
            "{{\"changes\":{changes},\"reads\":{reads},\"history\":{history},\"taken\":{taken},"
        )?;
        write!(f, "\"untaken\":{untaken},\"sum\":{sum},\"ns\":{nanos}}}")
    }
}
