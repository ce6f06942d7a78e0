//! What an instruction needs and what it leaves.

use crate::vtype::VType;
use et_base::Items;

/// What an instruction asks of one place.
#[derive(Drop)]
pub enum OperandConstraint {
    /// A type that is assignable to this one.
    Fits(VType),
    /// Any type of one place.
    One,
    /// The second place of a long.
    Half,
    /// Any reference, also one to an uninitialised object.
    Ref,
    /// An uninitialised object.
    Raw,
    /// An array of bytes or of booleans, or null.
    Small,
    /// Any array, or null.
    Array,
    /// Nothing meets it.
    Never,
}

/// A local and what is asked of it.
#[derive(Drop)]
pub struct Reading {
    pub local: u32,
    pub need: OperandConstraint,
}

/// A local and its new type.
#[derive(Drop)]
pub struct LocalUpdate {
    pub local: u32,
    pub to: VType,
}

/// A change of all places of one type.
#[derive(Drop)]
pub enum Substitution {
    Keep,
    All { from: VType, to: VType },
}

/// The two sides of an instruction: what it takes of the stack and leaves there, top first, what it reads and sets of
/// the locals, what type turns into another, and whether control goes on at the next instruction. The last three say
/// whether it keeps what the rules on returns, on uninitialised objects and on the names of called methods ask of it.
#[derive(Drop)]
pub struct StackEffect {
    pub takes: Items<OperandConstraint>,
    pub gives: Items<VType>,
    pub reads: Items<Reading>,
    pub sets: Items<LocalUpdate>,
    pub turn: Substitution,
    pub falls: bool,
    pub returns_well: bool,
    pub starts_well: bool,
    pub calls_well: bool,
}
