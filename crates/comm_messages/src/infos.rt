ghost use Rattle.std.specs.Prelude.{◌≡◌, IfOk};
ghost use Rattle.comm_messages.specs.Listed.{IdsAreInOrder};

use comm_value::Text;
use std::alloc::{AllocError, Global};
use std::marker::Model;
use std::sync::Arc;

/// An open comm in a `comm_info_reply`.
#[derive(Drop)]
pub struct Info {
    /// The comm's id.
    pub id: Text,
    /// The name of its target.
    pub target: Text,
}

/// The open comms of a `comm_info_reply`, in the byte order of their ids, each id once. Copies share the list.
#[derive(Drop)]
pub struct Infos {
    all: Arc<Vec<Info>, Global>,
}

impl Model for Infos {
    ghost use Rattle.std.specs.Prelude.{List};
    ghost use Rattle.std.specs.Arc.{arc_value};
    ghost use Rattle.comm_messages.specs.Listed.{IdsAreInOrder};
    ghost use Rattle.comm_messages.specs.declared.infos.Info.{Info};

    ghost Value = { List Info };

    ghost view = { λ i. (arc_value i.all).items };

    ghost invariant = { λ i. IdsAreInOrder (arc_value i.all).items };
}

impl Infos {
    /// The list of these comms, which are moved in; their ids are in byte order, each once. Err: out of memory.
    pub fn new(alloc: Global, all: Vec<Info>) -> Result<Infos, AllocError>
        requires { IdsAreInOrder all.items }
        ensures { IfOk result (λ i. i ≡ all.items) }
    {
        Ok(Infos {
            all: Arc::new(alloc, all)?,
        })
    }

    /// A copy that shares the list. Err: the reference count is at its maximum.
    pub fn copy(&self) -> Result<Infos, AllocError>
        ensures { IfOk result (λ i. i ≡ self.now) }
    {
        Ok(Infos {
            all: Arc::try_clone(&self.all)?,
        })
    }

    /// The comms, in the byte order of their ids.
    pub fn as_slice(&self) -> &[Info]
        ensures listed { result.now ≡ self.now }
        ensures in_order { IdsAreInOrder self.now }
    {
        self.all.as_slice()
    }
}
