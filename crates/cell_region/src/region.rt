ghost use Rattle.std.specs.Prelude.{◌≡◌, ℕ, List, length, take, replicate, ◌+◌, ◌*◌, ◌^◌, ◌<◌, ◌≤◌, ◌++◌, slice_index_or, slice_set, IfOk, OnOk, OnErr, [], ◌∷◌};
ghost use Rattle.cell_region.specs.Chunks.{AreLong, IsFilled, IsRun, joined, chunk_size};

use crate::chunk::Chunk;
use et_base::NoMemory;
use std::alloc::Global;
use std::marker::Model;

/// How many cells a chunk has.
const CHUNK: u64 = 65_536;

/// A list of cells, held in chunks of 65,536 so that growing moves none. Contracts see it as that list.
#[derive(Drop)]
pub struct Region<T> {
    chunks: Vec<Chunk<T>>,
    len: u64,
    alloc: Global,
}

impl<T> Model for Region<T> {
    ghost use Rattle.std.specs.Prelude.{ℕ, List, length, take, ◌≤◌, ◌*◌};
    ghost use Rattle.cell_region.specs.Chunks.{AreLong, joined, chunk_size};

    ghost Value = { List T };

    ghost view = { λ s. take s.len (joined s.chunks.items) };

    ghost invariant = { λ s. AreLong s.chunks.items × (s.len ≤ chunk_size * length s.chunks.items) };
}

/// New cells: their first place and how many there are.
#[derive(Clone, Copy, PartialEq, Eq)]
pub struct Block {
    pub start: u64,
    pub len: u64,
}

/// A length that a region can be cut back to.
#[derive(Clone, Copy, PartialEq, Eq)]
pub struct Mark {
    pub len: u64,
}

impl<T: Copy> Region<T> {
    /// No cells. It takes no memory until it grows.
    pub fn new(alloc: Global) -> Region<T>
        ensures { result ≡ [] }
    {
        Region {
            chunks: Vec::new(alloc),
            len: 0,
            alloc,
        }
    }

    /// How many cells there are.
    pub fn len(&self) -> u64
        ensures { result ≡ length self.now }
    {
        self.len
    }

    /// Appends n cells, each with the content `fill`. After a refusal the list is as before.
    pub fn grow(&mut self, n: u64, fill: T) -> Result<Block, NoMemory>
        ensures block { IfOk result (λ b. (b.start ≡ length self.old) × (b.len ≡ n)) }
        ensures grown { OnOk result (self.new ≡ self.old ++ replicate n fill) }
        ensures room { OnOk result (length self.new < 2 ^ 64) }
        ensures kept { OnErr result (self.new ≡ self.old) }
    {
        let start = self.len;
        let Some(end) = start.checked_add(n) else {
            return Err(NoMemory {});
        };
        if end.div_ceil(CHUNK) > self.chunks.len() as u64 {
            make_room(&mut self.chunks, self.alloc, end, fill)?;
        }
        fill_cells(&mut self.chunks, start, end, fill);
        self.len = end;
        Ok(Block { start, len: n })
    }

    /// Appends a cell. After a refusal the list is as before.
    #[inline(always)]
    pub fn push(&mut self, content: T) -> Result<(), NoMemory>
        ensures pushed { OnOk result (self.new ≡ self.old ++ content ∷ []) }
        ensures room { OnOk result (length self.new < 2 ^ 64) }
        ensures kept { OnErr result (self.new ≡ self.old) }
    {
        let Some(end) = self.len.checked_add(1) else {
            return Err(NoMemory {});
        };
        if self.len / CHUNK >= self.chunks.len() as u64 {
            // a copy, so that the content stays in registers where there is room
            let fill = content;
            make_room(&mut self.chunks, self.alloc, end, fill)?;
        }
        set_cell(&mut self.chunks, self.len, content);
        self.len = end;
        Ok(())
    }

    /// The content of a cell.
    pub fn get(&self, i: u64) -> T
        requires { i < length self.now }
        ensures { result ≡ slice_index_or self.now i result }
    {
        self.chunks[(i / CHUNK) as usize].get((i % CHUNK) as usize)
    }

    /// The cells from `start` on, up to but not `end`, that stand beside one another: one at least.
    pub fn run(&self, start: u64, end: u64) -> &[T]
        requires order { start < end }
        requires within { end ≤ length self.now }
        ensures some { 0 < length result.now }
        ensures within { start + length result.now ≤ end }
        ensures cells { IsRun self.now start (length result.now) result.now }
    {
        let first = start % CHUNK;
        let count = (end - start).min(CHUNK - first);
        self.chunks[(start / CHUNK) as usize].slice(first as usize, (first + count) as usize)
    }

    /// Gives a cell another content.
    pub fn set(&mut self, i: u64, content: T)
        requires { i < length self.old }
        ensures { self.new ≡ slice_set self.old i content }
    {
        set_cell(&mut self.chunks, i, content);
    }

    /// Gives the cells from `start` up to but not `end` one content.
    pub fn fill(&mut self, start: u64, end: u64, content: T)
        requires order { start ≤ end }
        requires within { end ≤ length self.old }
        ensures { IsFilled self.old self.new start end content }
    {
        fill_cells(&mut self.chunks, start, end, content);
    }

    /// The length as it is now.
    pub fn mark(&self) -> Mark
        ensures { result.len ≡ length self.now }
    {
        Mark { len: self.len }
    }

    /// Cuts the list at a mark. The chunks are kept, so that growing again uses them.
    pub fn release(&mut self, mark: Mark)
        requires { mark.len ≤ length self.old }
        ensures { self.new ≡ take mark.len self.old }
    {
        self.len = mark.len;
    }
}

/// Chunks for so many cells; those that stand stay.
#[inline(never)]
fn make_room<T: Copy>(
    chunks: &mut Vec<Chunk<T>>,
    alloc: Global,
    cells: u64,
    fill: T,
) -> Result<(), NoMemory>
    requires { AreLong chunks.old.items }
    ensures long { AreLong chunks.new.items }
    ensures kept { (n : ℕ) → n ≤ chunk_size * length chunks.old.items → take n (joined chunks.new.items) ≡ take n (joined chunks.old.items) }
    ensures more { length chunks.old.items ≤ length chunks.new.items }
    ensures room { OnOk result (cells ≤ chunk_size * length chunks.new.items) }
{
    for _ in chunks.len() as u64..cells.div_ceil(CHUNK) {
        chunks.push(Chunk::filled(alloc, CHUNK as usize, fill)?)?;
    }
    Ok(())
}

/// Gives a cell of the chunks another content.
fn set_cell<T: Copy>(chunks: &mut Vec<Chunk<T>>, i: u64, content: T)
    requires long { AreLong chunks.old.items }
    requires within { i < chunk_size * length chunks.old.items }
    ensures long { AreLong chunks.new.items }
    ensures len { length chunks.new.items ≡ length chunks.old.items }
    ensures set { joined chunks.new.items ≡ slice_set (joined chunks.old.items) i content }
{
    let chunk = &mut chunks[(i / CHUNK) as usize];
    chunk.set((i % CHUNK) as usize, content);
}

/// Gives the cells from `start` up to but not `end` the content `fill`, chunk by chunk.
fn fill_cells<T: Copy>(chunks: &mut Vec<Chunk<T>>, start: u64, end: u64, fill: T)
    requires long { AreLong chunks.old.items }
    requires order { start ≤ end }
    requires within { end ≤ chunk_size * length chunks.old.items }
    ensures long { AreLong chunks.new.items }
    ensures len { length chunks.new.items ≡ length chunks.old.items }
    ensures filled { IsFilled (joined chunks.old.items) (joined chunks.new.items) start end fill }
{
    let mut at = start;
    while at < end {
        at = fill_chunk(chunks, at, end, fill);
    }
}

/// Gives the cells from `start` up to but not `end` the content `fill`, as far as they stand in one chunk. Answers the first
/// cell that is left.
fn fill_chunk<T: Copy>(chunks: &mut Vec<Chunk<T>>, start: u64, end: u64, fill: T) -> u64
    requires long { AreLong chunks.old.items }
    requires order { start < end }
    requires within { end ≤ chunk_size * length chunks.old.items }
    ensures long { AreLong chunks.new.items }
    ensures len { length chunks.new.items ≡ length chunks.old.items }
    ensures later { start < result }
    ensures order { result ≤ end }
    ensures filled { IsFilled (joined chunks.old.items) (joined chunks.new.items) start result fill }
{
    let first = start % CHUNK;
    let count = (end - start).min(CHUNK - first);
    let chunk = &mut chunks[(start / CHUNK) as usize];
    chunk.fill(first as usize, (first + count) as usize, fill);
    start + count
}
