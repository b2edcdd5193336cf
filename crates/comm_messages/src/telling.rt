ghost use Rattle.std.specs.Prelude.{◌≡◌};
ghost use Rattle.comm_messages.specs.Told.{method_name};

/// Which message tells a state, or some of its keys ('Jupyter widgets messaging protocol' 2.1.0, "State update
/// messages").
#[derive(Clone, Copy, Debug, PartialEq, Eq, Drop)]
pub enum Telling {
    /// `update`: the kernel changed the state, or was asked for it.
    Update,
    /// `echo_update`: a frontend changed it.
    EchoUpdate,
}

impl Telling {
    /// The name of its method.
    pub fn name(self) -> &'static str
        ensures { result.now ≡ method_name self }
    {
        match self {
            Telling::Update => "update",
            Telling::EchoUpdate => "echo_update",
        }
    }
}
