//! The pieces of cones, which lie under one lock.

ghost use Rattle.std.specs.Prelude.{◌≡◌, ℕ, ◌<◌, ◌≤◌, length, get_or, sum_by, false, true, not, None, IfOk};
ghost use Rattle.cone_run.specs.{Books.AreLeft, Books.IsPosted, Books.posted_units, Cones.cone_units};

use et_base::NoMemory;
use std::alloc::Global;
use std::marker::{Brand, Model, PhantomData};
use test_run::{Piece, PoolName};

/// Which cones a book is of, for contracts: its pool's program and number of workers, the edges of the record, and the
/// selected tests.
pub trait BookName: PoolName {
    ghost use Rattle.std.specs.Prelude.{ℕ, List};
    ghost use Rattle.order_law.specs.declared.edges.Edge.{Edge};

    ghost edges: { List Edge };

    ghost selected: { List ℕ };
}

impl BookName for Brand {
    ghost use Rattle.std.specs.Prelude.{[]};

    ghost edges = { [] };

    ghost selected = { [] };
}

/// Which cones were claimed, the piece of each that was posted, by the places of the selected tests, and the sum of the
/// units of all tests of these.
#[derive(Drop)]
pub struct Book<N: BookName> {
    claimed: Vec<bool>,
    pieces: Vec<Option<Piece>>,
    units: u64,
    of: PhantomData<N>,
}

impl<N: BookName> Model for Book<N> {
    ghost use Rattle.cone_run.specs.Books.{Booked, IsBook};

    ghost Value = { Booked };

    ghost view = { λ b. record {
      claimed = b.claimed.items;
      pieces = b.pieces.items;
      units = b.units;
    } };

    ghost invariant = { λ b. IsBook
        N.program N.edges N.selected b.claimed.items b.pieces.items b.units };
}

/// A place for each selected test, with no piece. The only error is want of memory.
fn places(alloc: Global, selected: usize) -> Result<Vec<Option<Piece>>, NoMemory>
    ensures many { IfOk result (λ pieces. length pieces.items ≡ selected) }
    ensures none { IfOk result (λ pieces. (i : ℕ) → get_or pieces.items i None ≡ None) }
{
    let mut pieces = Vec::new(alloc);
    for _ in 0..selected {
        pieces.push(None)?;
    }
    Ok(pieces)
}

impl<N: BookName> Book<N> {
    /// A book of so many cones, none of which was claimed. The only error is want of memory.
    pub fn new(alloc: Global, selected: usize) -> Result<Book<N>, NoMemory>
        requires selected { selected ≡ length N.selected }
        requires few { selected ≤ 1024 }
    {
        Ok(Book {
            claimed: Vec::from_elem(alloc, false, selected)?,
            pieces: places(alloc, selected)?,
            units: 0,
            of: PhantomData,
        })
    }

    /// Claims the cone of the test at a place. Says whether nobody had claimed it.
    pub fn claim(&mut self, place: usize) -> bool
        requires place { place < length N.selected }
        ensures free { result ≡ not (get_or self.old.claimed place false) }
        ensures claimed { get_or self.new.claimed place false ≡ true }
    {
        let free = !self.claimed[place];
        self.claimed[place] = true;
        free
    }

    /// Posts the piece of the cone of the test at a place, and the units of its tests. Says whether it is the first one.
    pub fn post(&mut self, place: usize, piece: Piece, units: u64) -> bool
        requires place { place < length N.selected }
        requires piece { IsPosted N.program N.edges (get_or N.selected place 0) piece }
        requires units { units ≡ cone_units N.program piece.list }
    {
        if self.pieces[place].is_some() {
            return false;
        }
        self.units += units;
        self.pieces[place] = Some(piece);
        true
    }

    /// The pieces by the places of their tests, and the sum of their units.
    pub fn into_pieces(self) -> (Vec<Option<Piece>>, u64)
        ensures pieces { AreLeft N.program N.edges N.selected 0 result.0.items }
        ensures units { result.1 ≡ sum_by (posted_units N.program) result.0.items }
    {
        (self.pieces, self.units)
    }
}
