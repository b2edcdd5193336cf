//! What a manager goes by in contracts.
use comm_versions::History;
use std::marker::Brand;

/// Which manager it is: its history, with its limits, the names of its clients' ledgers, and its queue. Each call of
/// a function that opens a manager picks them, in its proof; no code looks at them.
pub trait ManagerId: History {
    ghost use Rattle.std.specs.Prelude.{ℕ};
    ghost use Rattle.atomic_table.specs.Seated.{TableId};

    ghost ledgers: { ℕ → ℕ };

    ghost queue: { TableId };
}

impl ManagerId for Brand {
    ghost use Rattle.std.specs.Prelude.{[]};

    ghost ledgers = { λ _. 0 };

    ghost queue = { record {
      words = 0;
      slots = 0;
      views_name = 0;
      atom = 0;
      block = 0;
      offset = 0;
      slot_names = [];
    } };
}
