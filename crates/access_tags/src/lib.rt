//! Tags beside the cells of a memory, which give the conflicts of a run of the suite.
//!
//! Begin with `specs/Tag.antt`, the tag of a location as a function of the touches of each test,
//! and `specs/Numbering.antt`; then `memory.rt`, the `Memory` over `vm_heap`'s, and `tags.rt`.
//!
//! - `TaggedMemory::edges` gives the edges of a run of the tests in order; `TaggedMemory::found`,
//!   which only a memory that keeps walks has, their first locations and the walks there too.
//! - `TaggedMemory::reaches` gives what each test of such a run reaches, and whether it is settled.
//! - `tags_law` says that conflicts read off the tags are those of the definition.
//!
//! Nothing that ties the tags to the world is an invariant, as a memory says nothing of its world
//! after a refusal: `follows` holds all of that. Intervals stand in a region, so that none is moved
//! as it grows, with 32 bits for an object and a number; past that there is no memory. Readers are
//! never given back.
#![tactic(auto)]

ghost use Rattle.access_tags.specs.{Tag.TagsLaw, Tag.RowsLaw, Worlds.NumbersLaw, Worlds.ChangesLaw};

mod access_log;
mod cells;
mod conflict;
mod discovery_tree;
mod ended;
mod found;
mod heads;
mod interval;
mod mark;
mod memory;
mod names;
mod noting;
mod numbers;
mod reached;
mod reaches;
mod reads;
mod room;
mod rows;
mod shown_text;
mod spots;
mod table;
mod tags;
mod texts;

pub use memory::TaggedMemory;

/// What the tags give. The conflicts that are read off the tags of the touched locations when a test ends are those of
/// the definition, which looks back over whole runs, in the order of first touch; and the edges for them, test by test, are
/// all edges of the touches in the record's order.
pub fn tags_law()
    ensures conflicts { TagsLaw }
    ensures edges { RowsLaw }
{}

/// The numbers of locations. Each static, class state, head, text, field and element of a world stands at its number among
/// the world's locations: a static by its field, a class state behind the statics, and a part of an object behind the
/// object's first number. A write changes no number, and a new object's parts stand last.
pub fn numbers_law()
    ensures numbers { NumbersLaw }
    ensures changes { ChangesLaw }
{}
