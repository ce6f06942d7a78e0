//! Parts that a test touched one after the other.

ghost use Rattle.std.specs.Prelude.{◌≡◌, ℕ, ◌≤◌, ◌++◌, ◌∷◌, [], true, IfSome};
ghost use Rattle.access_tags.specs.Intervals.{part_at, parts_of, spot_in};
ghost use Rattle.access_tags.specs.Numbering.{is_name};
ghost use Rattle.access_tags.specs.Written.{elems_from};

use crate::conflict::{LocationKey, Touched};

/// What a part is.
#[derive(Clone, Copy)]
pub enum Sort {
    Static,
    Init,
    Head,
    Field,
    Elem,
    Text,
    Named,
}

impl Sort {
    /// Whether it is the sort of files and properties.
    pub fn is_named(self) -> bool
        ensures { (o i : ℕ) → is_name (spot_in self o i) ≡ result }
    {
        match self {
            Sort::Named => true,
            _ => false,
        }
    }

    /// The part of this sort with an index, of an object where the sort has one.
    fn spot(self, object: u32, index: u32) -> LocationKey
        ensures { result ≡ spot_in self object index }
    {
        let object = object as u64;
        match self {
            Sort::Static => LocationKey::Static { field: index },
            Sort::Init => LocationKey::Init { class: index },
            Sort::Head => LocationKey::Head { object },
            Sort::Field => LocationKey::Field {
                object,
                field: index,
            },
            Sort::Elem => LocationKey::Elem { object, index },
            Sort::Text => LocationKey::Text { object },
            Sort::Named => LocationKey::Named { name: index },
        }
    }
}

/// Parts of one sort and object that were touched one after the other: those from the index `first` up to but not `end`.
/// The first has the number `at`, and each other one the next. However many there are, they take 20 bytes.
#[derive(Clone, Copy)]
pub struct Interval {
    pub sort: Sort,
    pub object: u32,
    pub first: u32,
    pub end: u32,
    pub at: u32,
}

impl Interval {
    /// The interval of one part. There is none where its object, its number or the index after it is past 32 bits.
    #[inline(always)]
    pub fn of(part: Touched) -> Option<Interval>
        ensures parts { IfSome result (λ s. parts_of s ≡ part ∷ []) }
        ensures order { IfSome result (λ s. s.first ≤ s.end) }
    {
        let (sort, object, first) = split(part.spot);
        let object = narrow(object)?;
        let at = narrow(part.at)?;
        let end = first.checked_add(1)?;
        Some(Interval {
            sort,
            object,
            first,
            end,
            at,
        })
    }

    /// So many elements of an array, of which the first one has the number `at`. There is none where the array or that number is
    /// past 32 bits.
    pub fn elems(object: u64, at: u64, many: u32) -> Option<Interval>
        ensures { IfSome result (λ s. s ≡ elems_from object at many) }
    {
        let object = narrow(object)?;
        let at = narrow(at)?;
        Some(Interval {
            sort: Sort::Elem,
            object,
            first: 0,
            end: many,
            at,
        })
    }

    /// With one part more, where it is the one after the last.
    #[inline(always)]
    #[tactic(auto, using(crate::proofs::Spanned::with_part))]
    pub fn with(self, part: Touched) -> Option<Interval>
        requires { self.first ≤ self.end }
        ensures parts { IfSome result (λ s. parts_of s ≡ parts_of self ++ part ∷ []) }
        ensures order { IfSome result (λ s. s.first ≤ s.end) }
    {
        if self.is_next(part) {
            let end = self.end.checked_add(1)?;
            return Some(Interval {
                sort: self.sort,
                object: self.object,
                first: self.first,
                end,
                at: self.at,
            });
        }
        None
    }

    /// Whether a part is the one after the last.
    #[inline(always)]
    #[tactic(auto, using(crate::proofs::Spanned::next_part))]
    fn is_next(self, part: Touched) -> bool
        requires { self.first ≤ self.end }
        ensures { result ≡ true → part_at self self.end ≡ part }
    {
        if part.at != self.at as u64 + (self.end - self.first) as u64 {
            return false;
        }
        self.is_next_spot(part.spot)
    }

    /// Whether a part is the one with the index `end`. A head or text, which has no index, is none.
    #[inline(always)]
    #[tactic(auto, using(crate::proofs::Spanned::same_static, crate::proofs::Spanned::same_init, crate::proofs::Spanned::same_field, crate::proofs::Spanned::same_elem, crate::proofs::Spanned::same_name))]
    fn is_next_spot(self, spot: LocationKey) -> bool
        ensures { result ≡ true → spot_in self.sort self.object self.end ≡ spot }
    {
        match (self.sort, spot) {
            (Sort::Static, LocationKey::Static { field }) => field == self.end,
            (Sort::Init, LocationKey::Init { class }) => class == self.end,
            (Sort::Field, LocationKey::Field { object, field }) => {
                object == self.object as u64 && field == self.end
            }
            (Sort::Elem, LocationKey::Elem { object, index }) => {
                object == self.object as u64 && index == self.end
            }
            (Sort::Named, LocationKey::Named { name }) => name == self.end,
            _ => false,
        }
    }

    /// The part with an index, and its number.
    pub fn part(self, index: u32) -> Touched
        requires { self.first ≤ index }
        ensures { result ≡ part_at self index }
    {
        Touched {
            spot: self.spot(index),
            at: self.number(index),
        }
    }

    /// The part with an index.
    #[inline(always)]
    pub fn spot(self, index: u32) -> LocationKey
        ensures { result ≡ (part_at self index).spot }
    {
        self.sort.spot(self.object, index)
    }

    /// The number of the part with an index.
    #[inline(always)]
    pub fn number(self, index: u32) -> u64
        requires { self.first ≤ index }
        ensures { result ≡ (part_at self index).at }
    {
        self.at as u64 + (index - self.first) as u64
    }
}

/// The sort, object and index of a part, each 0 where it has none.
#[inline(always)]
fn split(spot: LocationKey) -> (Sort, u64, u32)
    ensures { spot_in result.0 result.1 result.2 ≡ spot }
{
    match spot {
        LocationKey::Static { field } => (Sort::Static, 0, field),
        LocationKey::Init { class } => (Sort::Init, 0, class),
        LocationKey::Head { object } => (Sort::Head, object, 0),
        LocationKey::Field { object, field } => (Sort::Field, object, field),
        LocationKey::Elem { object, index } => (Sort::Elem, object, index),
        LocationKey::Text { object } => (Sort::Text, object, 0),
        LocationKey::Named { name } => (Sort::Named, 0, name),
    }
}

/// The number in 32 bits.
#[inline(always)]
fn narrow(n: u64) -> Option<u32>
    ensures { IfSome result (λ m. m ≡ n) }
{
    u32::try_from(n).ok()
}
