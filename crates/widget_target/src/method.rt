ghost use Rattle.std.specs.Prelude.{◌≡◌, codes};
ghost use Rattle.comm_value.specs.Node.{get};
ghost use Rattle.widget_target.specs.Method.{method_of, method_named};

use comm_targets::TargetFault;
use comm_value::{Dict, Val};

/// What a widget's message asks for.
#[derive(Clone, Copy, Debug, PartialEq, Eq, Drop)]
pub enum Method {
    /// Some keys of the state have new values ("State update messages").
    Update,
    /// The whole state is to be told.
    RequestState,
    /// The message is the caller's own ("Custom messages").
    Custom,
}

/// The method that the data of a message names; NoMethod where it names none by a text.
pub fn method_of(content: &Dict) -> Result<Method, TargetFault>
    ensures { result ≡ method_of (get (codes "method") content.now) }
{
    match content.get("method") {
        Some(Val::Text(name)) => method_named(name.as_str()),
        _ => Err(TargetFault::NoMethod),
    }
}

fn method_named(name: &str) -> Result<Method, TargetFault>
    ensures { result ≡ method_named name.now }
{
    match name {
        "update" => Ok(Method::Update),
        "request_state" => Ok(Method::RequestState),
        "custom" => Ok(Method::Custom),
        _ => Err(TargetFault::UnknownMethod),
    }
}
