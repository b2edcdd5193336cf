//! The targets that the library has, as one type without a box: what C holds can't have a `dyn` in it.
ghost use Rattle.std.specs.Prelude.{◌≡◌, [], None, Some};
ghost use Rattle.comm_c.specs.BuiltinTarget.{kind_of, means_of};
ghost use Rattle.comm_c.specs.Opaque.{is_opaque};

use comm_targets::{Answer, Counter, Echo, Event, Kind, PlainTarget, Target, TargetFault};
use comm_value::Dict;
use std::alloc::Global;
use widget_target::WidgetTarget;

/// The kinds of targets that the library has.
#[derive(Drop)]
pub enum BuiltinKind {
    Echo,
    Counter,
    Widget,
    WidgetEcho,
    Plain,
    Opaque,
}

impl BuiltinKind {
    /// Whether it is the kind of a target whose comms' data nobody here reads.
    pub fn is_opaque(&self) -> bool
        ensures { result ≡ is_opaque (Some (kind_of self.now)) }
    {
        match self {
            BuiltinKind::Opaque => true,
            _ => false,
        }
    }
}

/// A target of any of the six kinds.
#[derive(Drop)]
pub enum BuiltinTarget {
    Echo(Echo),
    Counter(Counter),
    Widget(WidgetTarget),
    Plain(PlainTarget),
}

impl BuiltinTarget {
    /// A new target of this kind, with no comm. It allocates nothing.
    pub fn new(alloc: Global, kind: BuiltinKind) -> BuiltinTarget
        ensures { means_of result
            ≡ record { kind = kind_of kind; notes = 0; ids = []; staged = None } }
    {
        match kind {
            BuiltinKind::Echo => BuiltinTarget::Echo(Echo::new(alloc)),
            BuiltinKind::Counter => BuiltinTarget::Counter(Counter::new(alloc)),
            BuiltinKind::Widget => BuiltinTarget::Widget(WidgetTarget::new(alloc)),
            BuiltinKind::WidgetEcho => BuiltinTarget::Widget(WidgetTarget::with_echo(alloc)),
            BuiltinKind::Plain => BuiltinTarget::Plain(PlainTarget::new(alloc)),
            BuiltinKind::Opaque => BuiltinTarget::Plain(PlainTarget::opaque(alloc)),
        }
    }
}

impl Target for BuiltinTarget {
    ghost means = { means_of };

    fn kind(&self) -> Kind {
        match self {
            BuiltinTarget::Echo(target) => target.kind(),
            BuiltinTarget::Counter(target) => target.kind(),
            BuiltinTarget::Widget(target) => target.kind(),
            BuiltinTarget::Plain(target) => target.kind(),
        }
    }

    fn notes(&self) -> u64 {
        match self {
            BuiltinTarget::Echo(target) => target.notes(),
            BuiltinTarget::Counter(target) => target.notes(),
            BuiltinTarget::Widget(target) => target.notes(),
            BuiltinTarget::Plain(target) => target.notes(),
        }
    }

    fn idle(&self) -> bool {
        match self {
            BuiltinTarget::Echo(target) => target.idle(),
            BuiltinTarget::Counter(target) => target.idle(),
            BuiltinTarget::Widget(target) => target.idle(),
            BuiltinTarget::Plain(target) => target.idle(),
        }
    }

    fn prepare(&mut self, event: &Event, now: Option<&Dict>) -> Result<Answer, TargetFault> {
        match self {
            BuiltinTarget::Echo(target) => target.prepare(event, now),
            BuiltinTarget::Counter(target) => target.prepare(event, now),
            BuiltinTarget::Widget(target) => target.prepare(event, now),
            BuiltinTarget::Plain(target) => target.prepare(event, now),
        }
    }

    fn commit(&mut self) {
        match self {
            BuiltinTarget::Echo(target) => target.commit(),
            BuiltinTarget::Counter(target) => target.commit(),
            BuiltinTarget::Widget(target) => target.commit(),
            BuiltinTarget::Plain(target) => target.commit(),
        }
    }

    fn abandon(&mut self) {
        match self {
            BuiltinTarget::Echo(target) => target.abandon(),
            BuiltinTarget::Counter(target) => target.abandon(),
            BuiltinTarget::Widget(target) => target.abandon(),
            BuiltinTarget::Plain(target) => target.abandon(),
        }
    }

    fn close(&mut self, id: &str) {
        match self {
            BuiltinTarget::Echo(target) => target.close(id),
            BuiltinTarget::Counter(target) => target.close(id),
            BuiltinTarget::Widget(target) => target.close(id),
            BuiltinTarget::Plain(target) => target.close(id),
        }
    }

    fn stop(&mut self) {
        match self {
            BuiltinTarget::Echo(target) => target.stop(),
            BuiltinTarget::Counter(target) => target.stop(),
            BuiltinTarget::Widget(target) => target.stop(),
            BuiltinTarget::Plain(target) => target.stop(),
        }
    }
}
