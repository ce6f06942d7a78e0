//! A pool of workers, each with a machine of its own, that take jobs by number.
//!
//! Begin with `jobs.rt` (what a kind of job owes), then `slots.rt` (a worker, its deque and its
//! thieves) and `workers.rt` (what runs in a thread). `worker_pool` runs chains on it.
//!
//! - `Jobs::take` does one job on a worker's machine, and says whether the worker may go on.
//! - `slots_of` makes a worker for each list of numbers, with a fresh machine and a thief of each
//!   other worker.
//! - `work_all` lets them work, each in a thread where one can be made, until all deques were found
//!   empty or `take` said no.
//! - `Slot::into_machine` gives a machine back after the join; `fresh_machine` makes one.
//!
//! A machine is made before the threads start, and its facts are those of its slot's type, so that
//! the closure asks for nothing but what the kind of job keeps in its own type. Which jobs were
//! taken no clause says: what has to be known of them is kept behind the kind's own lock. That a
//! slot may cross threads is shown type by type in `proofs/Crossing.antt`, as the search for it
//! fails at large enums.
#![tactic(auto)]

mod jobs;
mod machines;
mod slots;
mod workers;

pub use jobs::Jobs;
pub use machines::fresh_machine;
pub use slots::{Slot, slots_of};
pub use workers::work_all;
