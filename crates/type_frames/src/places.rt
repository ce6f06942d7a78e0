//! Where numbers stand in a list, found at once.

ghost use Rattle.std.specs.Prelude.{◌≡◌, IfOk, length, ◌<◌, replicate, None, IsNone, IfSome, is_some, true};
ghost use Rattle.type_frames.specs.{Frames.index_of, Places.IsIndex, Places.noted};

use et_base::NoMemory;
use std::alloc::Global;
use std::marker::Model;

/// A list of numbers with the first index of each. Contracts see it as that list.
#[derive(Drop)]
pub struct Places {
    numbers: Vec<u32>,
    first: Vec<Option<usize>>,
}

impl Model for Places {
    ghost use Rattle.std.specs.Prelude.{List, ℕ};
    ghost use Rattle.type_frames.specs.Places.{IsIndex};

    ghost Value = { List ℕ };

    ghost view = { λ s. s.numbers.items };

    ghost invariant = { λ s. IsIndex s.numbers.items s.first.items };
}

// Keeps the first index of a number.
fn note(first: &mut Vec<Option<usize>>, number: u32, index: usize)
    ensures { first.new.items ≡ noted first.old.items number index }
{
    let place = number as usize;
    if place < first.len() {
        if first[place].is_none() {
            first[place] = Some(index);
        }
    }
}

// A table with no index yet.
fn no_indices(alloc: Global, bound: usize) -> Result<Vec<Option<usize>>, NoMemory>
    ensures { IfOk result (λ v. v.items ≡ replicate bound None) }
{
    let mut first = Vec::with_capacity(alloc, bound)?;
    for place in 0..bound {
        first.push(None)?;
    }
    Ok(first)
}

// The first index of each number below a bound.
fn first_indices(
    alloc: Global,
    bound: usize,
    numbers: &[u32],
) -> Result<Vec<Option<usize>>, NoMemory>
    ensures { IfOk result (λ v. IsIndex numbers.now v.items) }
{
    let mut first = no_indices(alloc, bound)?;
    for (index, number) in numbers.iter().enumerate() {
        note(&mut first, *number, index);
    }
    Ok(first)
}

impl Places {
    /// Of a list of numbers. Those below `bound` are found at once, others by a search.
    pub fn new(alloc: Global, bound: usize, numbers: Vec<u32>) -> Result<Places, NoMemory>
        ensures { IfOk result (λ s. s ≡ numbers.items) }
    {
        let first = first_indices(alloc, bound, &numbers)?;
        Ok(Places { numbers, first })
    }

    /// Where a number stands first.
    #[tactic(auto, unfolding(crate::specs::Frames::index_of))]
    pub fn find(&self, number: u64) -> Option<usize>
        ensures { result ≡ index_of number self.now }
    {
        if number < self.first.len() as u64 {
            return self.first[number as usize];
        }
        self.numbers.iter().position(|n| u64::from(*n) == number)
    }

    /// The number itself, if it stands in the list.
    pub fn number_at(&self, number: u64) -> Option<u32>
        ensures none { IsNone result → index_of number self.now ≡ None }
        ensures some { IfSome result (λ m.
            (m ≡ number) × (is_some (index_of number self.now) ≡ true)) }
    {
        match self.find(number) {
            None => None,
            Some(index) => Some(self.numbers[index]),
        }
    }
}
