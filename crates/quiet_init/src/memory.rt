//! The memory in which quiet initialisers run: statics and states alone.

ghost use Rattle.std.specs.Prelude.{◌≡◌, IfOk};
ghost use Rattle.jvm_model.specs.declared.values.Location.TheVariants as place;
ghost use Rattle.jvm_model.specs.{declared.values.InitState.TheVariants.Running, View.Exists, World.at, World.put};
ghost use Rattle.jvm_model.specs.Suite as suite;

use et_base::NoMemory;
use jvm_model::{InitState, Program, Value};
use std::alloc::Global;
use std::marker::Model;
use std::snapshot::Snapshot;
use vm_mem::{opening_states, opening_statics};

/// The opening world of a program with other statics and states of classes. Contracts see that world.
#[derive(Drop)]
pub(crate) struct StaticMemory {
    statics: Vec<Value>,
    states: Vec<InitState>,
    program: Snapshot<Program>,
}

impl Model for StaticMemory {
    ghost use Rattle.jvm_model.specs.Suite as suite;
    ghost use Rattle.jvm_model.specs.World.{World};

    ghost Value = { World };

    ghost view = { λ m. record (suite.opening m.program.value) { statics = m.statics.items; states = m.states.items } };
}

impl StaticMemory {
    /// The world before the first test.
    #[tactic(auto, unfolding(jvm_model::specs::Suite::opening))]
    pub(crate) fn opening(alloc: Global, p: &Program) -> Result<StaticMemory, NoMemory>
        ensures { IfOk result (λ m. m ≡ suite.opening p.now) }
    {
        Ok(StaticMemory {
            statics: opening_statics(alloc, p)?,
            states: opening_states(alloc, p)?,
            program: Snapshot::of(p),
        })
    }

    /// The value of a static.
    pub(crate) fn get_static(&self, field: u32) -> Value
        requires { Exists self.now (place.Static field) }
        ensures { result ≡ at self.now (place.Static field) }
    {
        self.statics[field as usize]
    }

    /// Gives a static another value.
    #[tactic(auto, using(jvm_model::proofs::Ranges::put_at_is_set))]
    pub(crate) fn put_static(&mut self, field: u32, value: Value)
        requires { Exists self.old (place.Static field) }
        ensures { self.new ≡ put self.old (place.Static field) value }
    {
        self.statics[field as usize] = value;
    }

    /// Notes that a class is being initialised.
    #[tactic(auto, using(jvm_model::proofs::Ranges::put_at_is_set))]
    pub(crate) fn begin(&mut self, class: u32)
        requires { Exists self.old (place.Init class) }
        ensures { self.new ≡ put self.old (place.Init class) Running }
    {
        self.states[class as usize] = InitState::Running;
    }

    /// The values of all statics by the numbers of fields.
    pub(crate) fn into_statics(self) -> Vec<Value>
        ensures { result.items ≡ self.statics }
    {
        let StaticMemory { statics, .. } = self;
        statics
    }
}
