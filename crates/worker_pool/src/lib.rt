//! The chains of a plan, run by one worker for each share.
//!
//! Begin with `specs/Plans.antt` and `specs/Faults.antt`, then `pool.rt`, `chain_jobs.rt` (what a
//! worker of `job_pool` does) and `finish.rt` (what the caller does after the join).
//!
//! - `run_plan` gives the core of a legal and complete history of the chains, or the test that
//!   would pass its budget, or want of memory.
//! - `work_plan` is its first half, to where all workers have ended.
//!
//! A worker that was refused ends; the caller runs what is left, so that a contract can name the
//! cause. What is left is run to its end: each round adds an event, and a history has only so
//! many (`specs/Progress.antt`). What runs in threads is told of the chains by the type of
//! `ChainJobs` alone: that the workers end, and how much they leave, no clause says.
#![tactic(auto)]

mod again;
mod chain_jobs;
mod finish;
mod plan_fault;
mod pool;

pub use plan_fault::PlanFault;
pub use pool::{run_plan, work_plan};
