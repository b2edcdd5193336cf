//! The target of Jupyter widgets, by the 'Jupyter widgets messaging protocol' 2.1.0.
//!
//! A comm of it is a widget. The frontend opens it with a state, or the kernel launches it with one; `update` and a
//! push by the kernel replace top-level keys, `request_state` has the whole state sent, and `custom` hands its
//! content to the caller. A target with echo repeats to the frontends what an `update` brought. What each event is
//! answered is `answer_of` of `comm_targets`' definitions.
#![tactic(auto)]

mod answers;
mod message;
mod method;
mod open;
mod state;
mod update;
mod version;
mod widget;

pub use widget::WidgetTarget;
