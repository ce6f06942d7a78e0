//! The machine: the state of a test beside the world, its step, and the steps of a whole test.
//!
//! Begin with `jvm_model/specs/Step.antt` and `specs/Turns.antt`, then `stepping.rt` (one step),
//! `running.rt` (a test), `dispatching.rt` (the loop) and `hot.rt` (its flat match).
//!
//! - `step` makes one step of a typed state: the definition's, with its touches and units.
//! - `run_frames` makes a whole test: its verdict, or None exactly where it would pass the units
//!   left.
//!
//! LLVM puts `hot_form` into the loop since one place alone calls it and its optimised body costs
//! less than 15,250; it stands at some 14,900, so weigh each arm that is added. What its arms hand
//! the stack to is `inline(always)`: a single such call that LLVM leaves for later adds 2,900, as
//! all of the stack then counts as memory. The stack is a local of the loop: what is made apart is
//! `#[cold]` and works on a moved copy, as an address that is handed on keeps all of it in memory:
//! one call that isn't inlined made loops four times as slow. `benchmarks/machine/measure` times a
//! change.
#![tactic(auto)]

mod concluding;
mod cursor;
mod dispatching;
mod driving;
mod flow;
mod hot;
mod judging;
mod limits;
mod lookup;
mod raising;
mod rows;
mod running;
mod state;
mod step_outcome;
mod stepping;
mod straight;

pub use limits::stack_limits;
pub use running::run_frames;
pub use state::State;
pub use step_outcome::StepOutcome;
pub use stepping::step;
