//! SHA-256 sums of a suite, made while its files are read.

ghost use Rattle.std.specs.Prelude.{◌≡◌, ◌+◌, ◌∷◌, [], ℕ, List, length, OnOk};
ghost use Rattle.dep_record.specs.Hashes.{prints_of};
ghost use Rattle.suite_load.specs.Sums.{AreSums, AreMoreSums};

use dep_record::add_sized;
use et_base::{Items, NoMemory};
use order_law::Prints;
use sha2::{Digest, Sha256};
use std::alloc::Global;

/// The sums over a suite text and the class files so far.
#[derive(Drop)]
pub struct PrintSums {
    digest: Sha256,
    eager: Sha256,
    suite: [u8; 32],
    classes: Items<[u8; 32]>,
}

impl PrintSums {
    /// The sums over a suite text and no class file yet.
    #[tactic(auto, unfolding(dep_record::specs::Hashes::suite_bytes))]
    pub fn of(alloc: Global, suite: &[u8]) -> PrintSums
        ensures sums { AreSums result suite.now [] }
        ensures none { length result.classes ≡ 0 }
    {
        let mut digest = Sha256::new();
        add_sized(&mut digest, suite);
        let mut eager = Sha256::new();
        eager.update(b"eager");
        add_sized(&mut eager, suite);
        let suite = Sha256::digest(suite);
        PrintSums {
            digest,
            eager,
            suite,
            classes: Items::new(alloc),
        }
    }

    /// Takes in the next class file.
    pub fn add(&mut self, class: &[u8]) -> Result<(), NoMemory>
        ensures sums { OnOk result (AreMoreSums self.old self.new (class.now ∷ [])) }
        ensures one_more { OnOk result (length self.new.classes ≡ length self.old.classes + 1) }
    {
        add_sized(&mut self.digest, class);
        add_sized(&mut self.eager, class);
        self.classes.push(Sha256::digest(class))
    }

    /// All sums of the suite.
    pub fn prints(self) -> Prints
        ensures sums { (suite : List ℕ) (classes : List (List ℕ)) → AreSums self suite classes
            → result ≡ prints_of suite classes }
        ensures classes { result.classes ≡ self.classes }
    {
        let digest = self.digest.finalize();
        let suite = self.suite;
        let eager = self.eager.finalize();
        Prints {
            digest,
            suite,
            classes: self.classes,
            eager,
        }
    }
}
