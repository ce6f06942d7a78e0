//! The least set of a program's classes that holds some, and with each class all that it mentions.

ghost use Rattle.std.specs.Prelude.{◌≡◌, ◌≤◌, ◌+◌, ◌-◌, ◌↔◌, ℕ, true, false, not, ◌||◌, ◌&&◌, nat_eq, length, take, IfOk, OnOk};
ghost use Rattle.std.specs.List.{list_any};
ghost use Rattle.jvm_model.specs.{Builtin.builtin_count, Linked.IsGiven};
ghost use Rattle.jvm_model.specs.Classes as classes;
ghost use Rattle.jvm_model.specs.declared.values.Kind.{Kind};
ghost use Rattle.order_law.specs.{Conflicts.Member, Histories.Touches, Reach.ReachesIn, RecordForm.numbers_ascend};
ghost use Rattle.access_tags.specs.Given.{AreReached, is_given};

use et_base::{Items, NoMemory};
use jvm_model::{BUILTIN_COUNT, Program};
use std::alloc::Global;

/// Classes of a suite: a mark for each class of the program, and the marked ones in the order in which they were added.
#[derive(Drop)]
pub struct Reached {
    marks: Vec<bool>,
    classes: Vec<u32>,
    ghost sound: { AreReached marks.items classes.items },
}

impl Reached {
    ghost use Rattle.access_tags.specs.Reached.{has, count};

    /// None, of a program with so many classes.
    pub fn new(alloc: Global, len: u32) -> Result<Reached, NoMemory>
        ensures count { IfOk result (λ r. count r ≡ len) }
        ensures none { IfOk result (λ r. (c : ℕ) → has r c ≡ false) }
    {
        let mut marks = Vec::new(alloc);
        marks.resize(len as usize, false)?;
        Ok(Reached {
            marks,
            classes: Vec::new(alloc),
        })
    }

    /// Adds a class. One that is built in or isn't of the program is left out.
    pub fn add(&mut self, class: u32) -> Result<(), NoMemory>
        ensures count { count self.new ≡ count self.old }
        ensures has { OnOk result ((c : ℕ) → has self.new c ≡ (has self.old c || (nat_eq c class && is_given (count self.old) c))) }
        ensures first { OnOk result ((k : ℕ) → k ≤ length self.old.classes.items → take k self.new.classes.items ≡ take k self.old.classes.items) }
        ensures more { OnOk result (length self.old.classes.items ≤ length self.new.classes.items) }
    {
        if !self.is_new(class) {
            return Ok(());
        }
        self.classes.push(class)?;
        self.marks[class as usize] = true;
        Ok(())
    }

    /// Whether a class of the suite isn't there yet.
    fn is_new(&self, class: u32) -> bool
        ensures { result ≡ (is_given (count self.now) class && not (has self.now class)) }
    {
        if class < BUILTIN_COUNT || class as usize >= self.marks.len() {
            return false;
        }
        !self.marks[class as usize]
    }

    /// Adds these classes.
    fn add_all(&mut self, classes: &[u32]) -> Result<(), NoMemory>
        ensures count { count self.new ≡ count self.old }
        ensures has { OnOk result ((c : ℕ) → has self.new c ≡ (has self.old c || (list_any (nat_eq c) classes.now && is_given (count self.old) c))) }
        ensures first { OnOk result ((k : ℕ) → k ≤ length self.old.classes.items → take k self.new.classes.items ≡ take k self.old.classes.items) }
        ensures more { OnOk result (length self.old.classes.items ≤ length self.new.classes.items) }
    {
        for class in classes {
            self.add(*class)?;
        }
        Ok(())
    }

    /// Adds what the classes mention, and what these mention, until nothing is new.
    pub fn close(&mut self, p: &Program) -> Result<(), NoMemory>
        ensures count { count self.new ≡ count self.old }
        ensures kept { OnOk result ((c : ℕ) → has self.old c ≡ true → has self.new c ≡ true) }
        ensures closed { OnOk result (count self.old ≡ length p.now.classes → (c d : ℕ) → has self.new c ≡ true → Member d (classes.class_at p.now c).mentions → IsGiven p.now d
            → has self.new d ≡ true) }
        ensures least { OnOk result (count self.old ≡ length p.now.classes → (T : Touches) (kinds : ℕ → ℕ → Kind) (t : ℕ) → ((c : ℕ) → has self.old c ≡ true → ReachesIn p.now T kinds t c)
            → (c : ℕ) → has self.new c ≡ true → ReachesIn p.now T kinds t c) }
    {
        let mut next = 0;
        while next < self.classes.len() {
            let class = self.classes[next];
            self.add_all(mentions(p, class))?;
            next += 1;
        }
        Ok(())
    }

    /// The numbers of the classes in the suite, from 1, ascending.
    pub fn numbers(&self, alloc: Global) -> Result<Items<u32>, NoMemory>
        ensures ascending { IfOk result (λ xs. numbers_ascend xs ≡ true) }
        ensures numbers { IfOk result (λ xs. (j : ℕ) → Member j xs ↔ (has self.now (j + (builtin_count - 1)) ≡ true)) }
    {
        let mut numbers = Items::new(alloc);
        for class in BUILTIN_COUNT..self.marks.len() as u32 {
            if self.marks[class as usize] {
                numbers.push(class - (BUILTIN_COUNT - 1))?;
            }
        }
        Ok(numbers)
    }
}

/// The classes that a class mentions.
fn mentions(p: &Program, class: u32) -> &[u32]
    ensures { result.now ≡ (classes.class_at p.now class).mentions }
{
    match p.class(class) {
        None => &[],
        Some(record) => record.mentions.as_slice(),
    }
}
