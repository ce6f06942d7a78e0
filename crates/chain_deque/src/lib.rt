//! A queue of chains: its owner fills it before it shares it, and then the owner and its thieves
//! take from the front.
//!
//! `crossbeam_deque` is the queue; this crate adds the rule that its passes keep. Begin with
//! `specs/Rule.antt`: what is in the queue is what was pushed without the first k chains, and the
//! passes took those k, each once. Then `rule.rt` and `ends.rt`.
//!
//! - `ChainOwner::push`, where there is room and no thief was made, puts a chain at the end.
//! - `ChainOwner::pop` and `Thief::steal` take the first chain, or none where the queue was found
//!   empty.
//! - `ChainOwner::rejoin` takes a thief back, and what it took counts as the owner's.
//!
//! Of an empty queue only an owner with no thief out learns that all chains were taken.
#![tactic(auto)]

mod ends;
mod rule;

pub use ends::{ChainOwner, Thief};
pub use rule::{Chain, Seen};
