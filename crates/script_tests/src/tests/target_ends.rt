//! Each target that was registered is ended once, when no comm of it is open, however the run ends.
ghost use Rattle.std.specs.Prelude.{◌≡◌, [], None, IfOk, map};
ghost use Rattle.comm_script.specs.Stock.{AreIdle};

use super::harness::{ScriptRun, expect_answers, expect_result, run_script};
use super::injected_faults::{FaultPlan, InjectedFault, each_fault, plan_of};
use comm_script::{RunFault, push_target};
use comm_targets::{Answer, Echo, Event, Kind, Target, TargetFault};
use comm_value::Dict;
use std::alloc::Global;
use std::io::{Eprint, ErrorKind};
use std::sync::atomic::{AtomicU64, Ordering};
use std::sync::{Arc, Wait};
use std::test::Fail;
use test_harness::{BOTH_MANAGERS, ManagerKind, TestFault, holds};
use test_support::WriteFault;

/// An echo that counts its ends: 1 for each where no comm is open, else 100.
#[derive(Drop)]
struct EndCounter {
    echo: Echo,
    ends: Arc<AtomicU64>,
}

impl EndCounter {
    fn new(alloc: Global, ends: Arc<AtomicU64>) -> EndCounter
        ensures { ⟦<EndCounter as Target>⟧.means result
            ≡ record { kind = Kind.Echo; notes = 0; ids = []; staged = None } }
    {
        EndCounter {
            echo: Echo::new(alloc),
            ends,
        }
    }
}

impl Target for EndCounter {
    ghost means = { λ c. ⟦<Echo as Target>⟧.means c.echo };

    fn kind(&self) -> Kind {
        self.echo.kind()
    }

    fn notes(&self) -> u64 {
        self.echo.notes()
    }

    fn idle(&self) -> bool {
        self.echo.idle()
    }

    fn prepare(&mut self, event: &Event, now: Option<&Dict>) -> Result<Answer, TargetFault> {
        self.echo.prepare(event, now)
    }

    fn commit(&mut self) {
        self.echo.commit();
    }

    fn abandon(&mut self) {
        self.echo.abandon();
    }

    fn close(&mut self, id: &str) {
        self.echo.close(id);
    }

    fn stop(&mut self) {
        let ended = if self.echo.idle() { 1 } else { 100 };
        let _before = self.ends.fetch_add(ended, Ordering::SeqCst);
    }
}

/// One such target.
pub fn counted_stock(alloc: Global, ends: &Arc<AtomicU64>) -> Result<Vec<Box<dyn Target>>, RunFault>
    ensures { IfOk result (λ v. AreIdle (map (λ b. means b) v.items)) }
{
    let mut stock = Vec::new(alloc);
    let target: Box<dyn Target> = Box::new(alloc, EndCounter::new(alloc, Arc::try_clone(ends)?))?;
    push_target(&mut stock, target)?;
    Ok(stock)
}

/// A registration, an open, another of the same id, and a message.
const SCRIPT: &[u8] = br#"{"call":"register","kind":"echo","name":"t"}
{"header":{"msg_type":"comm_open"},"content":{"comm_id":"a","target_name":"t","data":{}}}
{"header":{"msg_type":"comm_open"},"content":{"comm_id":"a","target_name":"nowhere","data":{}}}
{"header":{"msg_type":"comm_msg"},"content":{"comm_id":"a","data":{"n":1}}}
"#;

const ANSWERS: &[u8] = br#"reply 1 registered
reply 2 opened
reply 3 id_in_use
reply 4 delivered
out {"buffers":[],"call":4,"client":0,"content":{"comm_id":"a","data":{"n":1}},"header":{"msg_type":"comm_msg"},"metadata":{}}
"#;

const fn counting_plan(fault: InjectedFault, read: usize, write: usize) -> FaultPlan {
    FaultPlan {
        script: SCRIPT,
        answers: ANSWERS,
        is_counted: true,
        ..plan_of(fault, read, write)
    }
}

#[test]
fn a_target_ends_where_the_input_ends(rt: HostRuntime) -> Result<(), Fail> {
    for over in BOTH_MANAGERS {
        let script = ScriptRun {
            read: 64,
            is_counted: true,
            ..ScriptRun::over(over, SCRIPT)
        };
        let came = expect_answers(&rt, rt.alloc(), "the input ends", &script, Ok(()), ANSWERS)?;
        holds(came.ended == 1, "the target isn't ended once")?;
    }
    Ok(())
}

#[test]
fn a_target_ends_after_a_read_fault(rt: HostRuntime) -> Result<(), Fail> {
    let faults = counting_plan(InjectedFault::Reader(ErrorKind::Other), 1, 4096);
    Ok(each_fault(&rt, rt.alloc(), &faults)?)
}

/// What must come of a writer that takes nothing, at a write or at a flush, where another that fails took so much.
fn expected_after(is_write: bool, taken: &[u8]) -> (Result<(), RunFault>, &[u8]) {
    if is_write {
        (Err(RunFault::Write), taken)
    } else {
        (Ok(()), ANSWERS)
    }
}

/// A writer fails at this call, and another takes no byte there: that is a fault where it was a write, after which
/// more is taken, and not a flush. Tells whether it wasn't called so often.
fn take_nothing_at<R: Eprint + Wait>(
    rt: &R,
    alloc: Global,
    over: ManagerKind,
    call: u64,
) -> Result<bool, TestFault> {
    let fails = ScriptRun {
        read: 64,
        write: 7,
        write_fails: call,
        write_fault: WriteFault::Fail(ErrorKind::Other),
        ..ScriptRun::over(over, SCRIPT)
    };
    let failed = run_script(rt, alloc, &fails)?;
    if failed.writes < call {
        return Ok(true);
    }
    let later = ScriptRun {
        write_fails: call.saturating_add(1),
        ..fails
    };
    let behind = run_script(rt, alloc, &later)?;
    let nothing = ScriptRun {
        write_fault: WriteFault::TakeNothing,
        ..fails
    };
    let came = run_script(rt, alloc, &nothing)?;
    let is_write = behind.text.len() > failed.text.len();
    let (result, text) = expected_after(is_write, failed.text.as_slice());
    expect_result(rt, alloc, "nothing is taken", &nothing, &came, result, text)?;
    Ok(false)
}

#[test]
fn a_target_ends_after_a_write_fault(rt: HostRuntime) -> Result<(), Fail> {
    for fault in [WriteFault::Fail(ErrorKind::Other), WriteFault::TakeNothing] {
        each_fault(
            &rt,
            rt.alloc(),
            &counting_plan(InjectedFault::Writer(fault), 64, 7),
        )?;
    }
    for over in BOTH_MANAGERS {
        let mut is_over = false;
        for call in 1..10_000u64 {
            is_over = take_nothing_at(&rt, rt.alloc(), over, call)?;
            if is_over {
                break;
            }
        }
        holds(is_over, "it never answered")?;
    }
    Ok(())
}

/// A target ends after a refused allocation, too.
#[test]
fn refused_run_ends_its_target(rt: HostRuntime) -> Result<(), Fail> {
    Ok(each_fault(
        &rt,
        rt.alloc(),
        &counting_plan(InjectedFault::Heap, 64, 4096),
    )?)
}
