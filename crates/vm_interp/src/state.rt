//! The state of a test beside the world.

ghost use Rattle.std.specs.Prelude.{◌≡◌, true, false, IfOk};
ghost use Rattle.jvm_model.specs.State as states;
ghost use Rattle.jvm_model.specs.Entries.{no_entries};
ghost use Rattle.vm_interp.specs.{Reaching.IsRunning, Abs.abs};

use et_base::{NoMemory, Text};
use jvm_model::{EntryKind, Own, Program, Stage, TestEntry, Value};
use std::alloc::Global;
use vm_frames::FrameStack;

/// The state of a running test beside the world: its number, its entries, where its driver is, the throwable that is
/// being raised, and what it has of its own.
#[derive(Drop)]
pub struct State {
    pub test: u32,
    pub frames: FrameStack,
    pub stage: Stage,
    pub raised: Option<Value>,
    pub own: Own,
}

impl State {
    /// The state in which a test starts: no entries, and nothing printed. The room for entries is handed on.
    pub fn start(
        alloc: Global,
        p: &Program,
        test: u32,
        frames: FrameStack,
    ) -> Result<State, NoMemory>
        requires { frames ≡ no_entries }
        ensures { IfOk result (λ s. abs s ≡ states.started p.now test) }
    {
        let entry = test_entry(p, test);
        Ok(State {
            test,
            frames,
            stage: Stage::First,
            raised: None,
            own: Own {
                output: Text::new(alloc),
                clock: entry.clock,
                random: entry.seed,
            },
        })
    }

    /// Whether the next step is that of an instruction.
    pub(crate) fn is_running(&self) -> bool
        ensures runs { result ≡ true → IsRunning (abs self.now) }
        ensures rests { result ≡ false → IsRunning (abs self.now) → ⊥ }
    {
        match self.frames.kind() {
            EntryKind::InMethod => self.raised.is_none(),
            EntryKind::Absent | EntryKind::InClass { .. } => false,
        }
    }
}

/// The test of a number from 1.
pub fn test_entry(p: &Program, test: u32) -> TestEntry
    ensures { result ≡ states.test_at p.now test }
{
    let none = TestEntry {
        class: 0,
        method: 0,
        clock: 0,
        seed: 0,
        budget: 0,
    };
    if test == 0 {
        return match p.tests.get(0) {
            None => none,
            Some(entry) => *entry,
        };
    }
    match p.tests.get((test - 1) as usize) {
        None => none,
        Some(entry) => *entry,
    }
}
