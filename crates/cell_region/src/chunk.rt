ghost use Rattle.std.specs.Prelude.{◌≡◌, List, length, ◌<◌, ◌≤◌, ◌-◌, replicate, slice_index_or, slice_set, IfOk};
ghost use Rattle.cell_region.specs.Chunks.{IsFilled, IsRun};

use et_base::NoMemory;
use std::alloc::Global;
use std::marker::Model;

/// Cells beside one another. Contracts see them as their list.
#[derive(Drop)]
pub struct Chunk<T> {
    cells: Vec<T>,
}

impl<T> Model for Chunk<T> {
    ghost Value = { List T };

    ghost view = { λ s. s.cells.items };
}

impl<T: Copy> Chunk<T> {
    /// So many cells, each with the same content.
    pub fn filled(alloc: Global, count: usize, fill: T) -> Result<Chunk<T>, NoMemory>
        ensures { IfOk result (λ s. s ≡ replicate count fill) }
    {
        let mut cells = Vec::new(alloc);
        cells.resize(count, fill)?;
        Ok(Chunk { cells })
    }

    /// The content of a cell.
    pub fn get(&self, i: usize) -> T
        requires { i < length self.now }
        ensures { result ≡ slice_index_or self.now i result }
    {
        self.cells[i]
    }

    /// The cells from `start` up to but not `end`.
    pub fn slice(&self, start: usize, end: usize) -> &[T]
        requires order { start ≤ end }
        requires within { end ≤ length self.now }
        ensures { IsRun self.now start (end - start) result.now }
    {
        &self.cells[start..end]
    }

    /// Gives a cell another content.
    pub fn set(&mut self, i: usize, content: T)
        requires { i < length self.old }
        ensures { self.new ≡ slice_set self.old i content }
    {
        self.cells[i] = content;
    }

    /// Gives the cells from `start` up to but not `end` one content.
    pub fn fill(&mut self, start: usize, end: usize, content: T)
        requires order { start ≤ end }
        requires within { end ≤ length self.old }
        ensures { IsFilled self.old self.new start end content }
    {
        for i in start..end {
            self.cells[i] = content;
        }
    }
}
