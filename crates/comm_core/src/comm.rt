use comm_value::{Dict, Text};

/// An open comm: the name of its target, and its state if it has one.
#[derive(Drop)]
pub struct Comm {
    pub target: Text,
    pub state: Option<Dict>,
}
