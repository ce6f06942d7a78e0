//! The classes of the objects whose heads tests touch, and what these tests reach.

ghost use Rattle.std.specs.Prelude.{◌≡◌, ◌<◌, ◌+◌, ◌*◌, ◌++◌, ◌∷◌, [], ℕ, List, ◌||◌, ◌&&◌, length, nat_eq, IfOk, OnOk};
ghost use Rattle.jvm_model.specs.declared.values.Location.TheVariants as place;
ghost use Rattle.jvm_model.specs.declared.values.Kind.{Kind as KindOf};
ghost use Rattle.order_law.specs.Histories.{Touches};
ghost use Rattle.jvm_model.specs.State.{test_at};
ghost use Rattle.order_law.specs.Reach as reach;
ghost use Rattle.access_tags.specs.{HeadMarks.is_marked, Reached.has, Reached.count, Given.is_given};

use crate::reached::Reached;
use crate::room::make_room;
use cell_region::Region;
use et_base::{Items, NoMemory};
use jvm_model::{Base, Kind, Program};
use order_law::Reach;
use std::alloc::Global;

/// For each test and each class of a program a mark, set where the test touches the head of an object of the class or of
/// an array with the class as its innermost element class. The marks of one test stand beside one another.
#[derive(Drop)]
pub struct Heads {
    classes: u32,
    marks: Region<bool>,
}

impl Heads {
    ghost use Rattle.jvm_model.specs.declared.values.Touch.{Touch};
    ghost use Rattle.access_tags.specs.HeadMarks.{IsKindAt, touches_so_far};
    ghost use Rattle.access_tags.specs.HeadsStand.{HeadsStand};

    /// No marks, for a program of so many classes. It takes no memory until the first.
    pub fn new(alloc: Global, classes: u32) -> Heads
        ensures classes { result.classes ≡ classes }
        ensures stands { (kinds : ℕ → ℕ → KindOf) (T : Touches) → HeadsStand kinds T 0 [] result }
    {
        Heads {
            classes,
            marks: Region::new(alloc),
        }
    }

    /// The running test, with this number, touched the head of an object of this kind, or where none is told another part.
    #[inline(always)]
    pub fn note_touch(&mut self, test: u32, kind: Option<Kind>) -> Result<(), NoMemory>
        ensures classes { self.new.classes ≡ self.old.classes }
        ensures stands { OnOk result ((kinds : ℕ → ℕ → KindOf) (T : Touches) (ts : List Touch) (x : Touch) → IsKindAt (kinds test) x.location kind
            → HeadsStand kinds T test ts self.old → HeadsStand kinds T test (ts ++ x ∷ []) self.new) }
    {
        let Some(kind) = kind else {
            return Ok(());
        };
        self.note(test, kind)?;
        Ok(())
    }

    /// The running test, with this number, touched the head of an object of this kind.
    #[inline(always)]
    pub fn note(&mut self, test: u32, kind: Kind) -> Result<(), NoMemory>
        ensures classes { self.new.classes ≡ self.old.classes }
        ensures stands { OnOk result ((kinds : ℕ → ℕ → KindOf) (T : Touches) (ts : List Touch) (x : Touch) (o : ℕ) → x.location ≡ place.Head o
            → kinds test o ≡ kind → HeadsStand kinds T test ts self.old → HeadsStand kinds T test (ts ++ x ∷ []) self.new) }
    {
        let Some(class) = inner_class(kind) else {
            return Ok(());
        };
        if class >= self.classes {
            return Ok(());
        }
        if self.is_marked(test, class) {
            return Ok(());
        }
        self.mark(test, class)?;
        Ok(())
    }

    /// Marks a class for a test.
    #[inline(never)]
    fn mark(&mut self, test: u32, class: u32) -> Result<(), NoMemory>
        requires { class < self.old.classes }
        ensures classes { self.new.classes ≡ self.old.classes }
        ensures marked { OnOk result ((u c : ℕ) → c < self.old.classes → is_marked self.old.classes self.new.marks u c
            ≡ (is_marked self.old.classes self.old.marks u c || (nat_eq u test && nat_eq class c))) }
    {
        let at = place(test, class, self.classes);
        make_room(&mut self.marks, at, false)?;
        self.marks.set(at, true);
        Ok(())
    }

    /// What a test reaches that ended or runs; whether it is settled is told.
    pub fn reach(
        &self,
        alloc: Global,
        p: &Program,
        test: u32,
        settled: bool,
    ) -> Result<Reach, NoMemory>
        ensures { IfOk result (λ r. (kinds : ℕ → ℕ → KindOf) (T S : Touches) (t : ℕ) (ts : List Touch) → self.now.classes ≡ length p.now.classes → HeadsStand kinds T t ts self.now
            → touches_so_far T t ts test ≡ S test → settled ≡ reach.is_settled_in p.now S test → reach.IsReachIn p.now S kinds test r) }
    {
        let mut reached = Reached::new(alloc, self.classes)?;
        reached.add(test_class(p, test))?;
        self.add_marked(&mut reached, test)?;
        reached.close(p)?;
        let classes = reached.numbers(alloc)?;
        Ok(Reach { settled, classes })
    }

    /// Adds the classes that are marked for a test.
    fn add_marked(&self, reached: &mut Reached, test: u32) -> Result<(), NoMemory>
        ensures count { count reached.new ≡ count reached.old }
        ensures has { OnOk result ((c : ℕ) → has reached.new c
            ≡ (has reached.old c || (is_marked self.now.classes self.now.marks test c && is_given (count reached.old) c))) }
    {
        for class in 0..self.classes {
            if self.is_marked(test, class) {
                reached.add(class)?;
            }
        }
        Ok(())
    }

    /// Whether a class is marked for a test.
    fn is_marked(&self, test: u32, class: u32) -> bool
        requires { class < self.now.classes }
        ensures { result ≡ is_marked self.now.classes self.now.marks test class }
    {
        let at = place(test, class, self.classes);
        if at >= self.marks.len() {
            return false;
        }
        self.marks.get(at)
    }
}

/// The place of a class among the marks of a test.
fn place(test: u32, class: u32, classes: u32) -> u64
    requires { class < classes }
    ensures { result ≡ test * classes + class }
{
    test as u64 * classes as u64 + class as u64
}

/// The class of a test.
fn test_class(p: &Program, test: u32) -> u32
    ensures { result ≡ (test_at p.now test).class }
{
    match p.tests.get(test.saturating_sub(1) as usize) {
        None => 0,
        Some(entry) => entry.class,
    }
}

/// The class of a kind, or the innermost element class of an array.
fn inner_class(kind: Kind) -> Option<u32>
    ensures { result ≡ reach.inner_class kind }
{
    match kind {
        Kind::Class(class) => Some(class),
        Kind::Array {
            base: Base::Class(class),
            ..
        } => Some(class),
        Kind::Array { .. } => None,
    }
}
