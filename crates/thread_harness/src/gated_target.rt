//! Targets that count their ends, and that wait for other threads at gates.
ghost use Rattle.std.specs.Prelude.{◌≡◌};

use crate::flags::Flags;
use crate::scenario::Scenario;
use comm_targets::{Answer, Counter, Echo, Event, Kind, Latest, PlainTarget, Target, TargetFault};
use comm_value::Dict;
use std::alloc::{AllocError, Global};
use std::sync::Arc;
use test_harness::ScriptedTarget;
use widget_target::WidgetTarget;

/// At which calls a target waits, each by the number of a flag: it sets that one, and waits for the next.
#[derive(Clone, Copy)]
pub struct Gates {
    pub message: Option<u64>,
    pub close: Option<u64>,
    pub stop: Option<u64>,
}

impl Gates {
    /// It waits at none.
    pub const NONE: Gates = Gates {
        message: None,
        close: None,
        stop: None,
    };
}

/// A target that is another, waits at gates, and counts its end.
#[derive(Drop)]
pub struct GatedTarget<T: Target> {
    inner: T,
    flags: Arc<Flags>,
    gates: Gates,
}

fn pass(flags: &Flags, gate: Option<u64>) {
    if let Some(number) = gate {
        flags.set(number);
        if !flags.wait(number.saturating_add(1)) {
            flags.miss();
        }
    }
}

impl<T: Target> Target for GatedTarget<T> {
    ghost means = { λ w. T.means w.inner };

    fn kind(&self) -> Kind {
        self.inner.kind()
    }

    fn notes(&self) -> u64 {
        self.inner.notes()
    }

    fn idle(&self) -> bool {
        self.inner.idle()
    }

    fn prepare(&mut self, event: &Event, now: Option<&Dict>) -> Result<Answer, TargetFault> {
        if let Event::Msg { .. } = event {
            pass(&self.flags, self.gates.message);
        }
        self.inner.prepare(event, now)
    }

    fn commit(&mut self) {
        self.inner.commit();
    }

    fn abandon(&mut self) {
        self.inner.abandon();
    }

    fn close(&mut self, id: &str) {
        pass(&self.flags, self.gates.close);
        self.inner.close(id);
    }

    fn stop(&mut self) {
        self.flags.end(self.inner.idle());
        pass(&self.flags, self.gates.stop);
        self.inner.stop();
    }
}

/// A target that tests name by its type.
pub trait TestTarget: Target {
    /// With no comm. Of a widget `echoes` says whether it echoes updates.
    fn build(alloc: Global, echoes: bool) -> Self;
}

impl TestTarget for Echo {
    fn build(alloc: Global, _echoes: bool) -> Echo {
        Echo::new(alloc)
    }
}

impl TestTarget for Counter {
    fn build(alloc: Global, _echoes: bool) -> Counter {
        Counter::new(alloc)
    }
}

impl TestTarget for PlainTarget {
    fn build(alloc: Global, _echoes: bool) -> PlainTarget {
        PlainTarget::new(alloc)
    }
}

impl TestTarget for Latest {
    fn build(alloc: Global, _echoes: bool) -> Latest {
        Latest::new(alloc)
    }
}

impl TestTarget for WidgetTarget {
    fn build(alloc: Global, echoes: bool) -> WidgetTarget {
        if echoes {
            WidgetTarget::with_echo(alloc)
        } else {
            WidgetTarget::new(alloc)
        }
    }
}

impl TestTarget for ScriptedTarget {
    fn build(alloc: Global, _echoes: bool) -> ScriptedTarget {
        ScriptedTarget::new(alloc)
    }
}

/// As many targets as a scenario has, which wait where it says. Err: memory.
pub fn targets_of<K: TestTarget>(
    alloc: Global,
    scenario: &Scenario,
    flags: &Arc<Flags>,
) -> Result<Vec<GatedTarget<K>>, AllocError> {
    let mut all = Vec::with_capacity(alloc, scenario.targets)?;
    for _ in 0..scenario.targets {
        let flags = Arc::try_clone(flags)?;
        let inner = K::build(alloc, scenario.echoes);
        all.push(GatedTarget {
            inner,
            flags,
            gates: scenario.gates,
        })?;
    }
    Ok(all)
}
