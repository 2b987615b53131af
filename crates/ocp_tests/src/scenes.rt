//! What the tests do on an engine that seats share. A `#[test]` has no brand to share one under, so
//! each plays a scene.

ghost use Rattle.std.specs.Prelude.{◌≤◌};
ghost use Rattle.ocp_seats.specs.Seats.{Opens};

use crate::packets::with_loops;
use ocp_slices::{Book, Engine, Naming};
use std::alloc::Global;
use std::marker::Brand;
use std::sync::Wait;
use std::sync::ledger::Blank;
use std::thread::Threads;

// How often a wait looks before it gives up.
pub(crate) const LIMIT: u32 = 1_000_000_000;

// What a scene is played with: a runtime, an allocator, and the book of a new engine.
#[derive(Drop)]
pub(crate) struct Stage<'r, L: Naming, R> {
    pub rt: &'r R,
    pub alloc: Global,
    pub book: Book<L>,
}

// Each is a method of the stage.
#[derive(Clone, Copy)]
pub(crate) enum Scene {
    AskBoard,
    TurnByScript,
    MixCalls,
    StepBoth,
    // The budget of seat 1's turn.
    RunMeanwhile(u32),
    WriteWords,
}

impl<L: Naming + Send + Sync, R: Threads + Wait + Sync> Stage<'_, L, R> {
    // Whether all answers are the wanted ones; none if the scene does not finish.
    fn play(self, scene: Scene) -> Option<bool> {
        match scene {
            Scene::AskBoard => self.ask_board(),
            Scene::TurnByScript => self.turn_by_script(),
            Scene::MixCalls => self.mix_calls(),
            Scene::StepBoth => self.step_both(),
            Scene::RunMeanwhile(budget) => self.run_meanwhile(budget),
            Scene::WriteWords => self.write_words(),
        }
    }
}

// Plays a scene on this engine, under a new brand.
pub(crate) fn play_on<R: Threads + Wait + Sync>(
    rt: &R,
    alloc: Global,
    engine: Engine,
    scene: Scene,
) -> Option<bool> {
    let _length = engine.journal().len();
    play_as::<Brand, R>(rt, alloc, engine, Blank::new(65), scene)
}

fn play_as<L: Naming + Send + Sync, R: Threads + Wait + Sync>(
    rt: &R,
    alloc: Global,
    engine: Engine,
    blank: Blank,
    scene: Scene,
) -> Option<bool>
    requires opens { Opens blank.name blank.parts L.name L.parts L.room L.log engine }
{
    let book = Book::<L>::new(engine, blank);
    Stage { rt, alloc, book }.play(scene)
}

// Plays a scene on a new engine with room for `capacity` entries, in which `count` loops run.
pub(crate) fn play<R: Threads + Wait + Sync>(
    rt: &R,
    alloc: Global,
    capacity: u32,
    count: u8,
    scene: Scene,
) -> Option<bool>
    requires capacity_from { 1 ≤ capacity }
    requires capacity_to { capacity ≤ 10000 }
    requires count { count ≤ 16 }
{
    play_on(rt, alloc, with_loops(alloc, capacity, count)?, scene)
}
