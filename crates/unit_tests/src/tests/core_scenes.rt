//! Tables of lines that are played over a manager of boxed targets.
use comm_targets::{Counter, Echo, Target};
use std::alloc::Global;
use std::process::Abort;
use std::test::Fail;
use test_harness::{
    CallLog, Case, CorePlayer, ScriptedTarget, TestFault, is_expected, play_over_core,
};
use widget_target::WidgetTarget;

/// What is played over a manager of at most `comms` open comms, once with each of these stocks: `scripted`, `echo` and
/// `counter` are two targets of the kind, `widget` and `widget_echo` two boxes, of which the first is a widget that is
/// silent or echoes.
#[derive(Clone, Copy)]
pub(super) struct CoreScene {
    pub stocks: &'static [&'static str],
    pub comms: usize,
    pub case: Case,
}

fn play_with<T: Target>(
    alloc: Global,
    scene: &CoreScene,
    log: CallLog,
    first: T,
    second: T,
) -> Result<Vec<u8>, TestFault> {
    let mut stock = Vec::new(alloc);
    stock.push(first)?;
    stock.push(second)?;
    let player = CorePlayer {
        stock,
        log,
        answered: 0,
    };
    play_over_core(alloc, scene.comms, player, scene.case.lines)
}

// Two widgets behind boxes, of which the one that echoes comes first or last.
fn play_widgets(
    alloc: Global,
    scene: &CoreScene,
    log: CallLog,
    echoes: bool,
) -> Result<Vec<u8>, TestFault> {
    let silent: Box<dyn Target> = Box::new(alloc, WidgetTarget::new(alloc))?;
    let echoing: Box<dyn Target> = Box::new(alloc, WidgetTarget::with_echo(alloc))?;
    if echoes {
        play_with(alloc, scene, log, echoing, silent)
    } else {
        play_with(alloc, scene, log, silent, echoing)
    }
}

// The scene with the targets of this name.
fn play_scene(alloc: Global, scene: &CoreScene, name: &str) -> Result<Vec<u8>, TestFault> {
    let log = CallLog::new(alloc)?;
    if name == "echo" {
        play_with(alloc, scene, log, Echo::new(alloc), Echo::new(alloc))
    } else if name == "counter" {
        play_with(alloc, scene, log, Counter::new(alloc), Counter::new(alloc))
    } else if name == "scripted" {
        let first = ScriptedTarget::with_log(alloc, "", log.share()?);
        let second = ScriptedTarget::with_log(alloc, "next.", log.share()?);
        play_with(alloc, scene, log, first, second)
    } else {
        play_widgets(alloc, scene, log, name == "widget_echo")
    }
}

fn is_scene_expected(rt: &HostRuntime, scene: &CoreScene) -> bool {
    let mut all = true;
    for names in scene.stocks {
        let is = is_expected(rt, &scene.case, play_scene(rt.alloc(), scene, names));
        if !is {
            let _is_printed = eprintln!(rt; "  with {names}");
        }
        all = all && is;
    }
    all
}

/// Plays each scene. Err where one comes to another text than is wanted: each such scene is printed to standard error.
pub(super) fn play_scenes(rt: &HostRuntime, scenes: &[CoreScene]) -> Result<(), Fail> {
    let mut all = true;
    for scene in scenes {
        let is = is_scene_expected(rt, scene);
        all = all && is;
    }
    if all { Ok(()) } else { Err("a scene differs")? }
}
