//! Sets of tests, as bits.

ghost use Rattle.std.specs.Prelude.{◌≡◌, ℕ, ◌<◌, false, nat_eq, ◌||◌};
ghost use Rattle.dep_graph.specs.Sets.{holds};

/// A set of numbers below 1,088, so that the tests of a record, at most 1,024, have room. Takes no memory.
#[derive(Clone, Copy)]
pub struct TestSet {
    words: [u64; 17],
}

impl TestSet {
    /// No test.
    #[tactic(auto, using(crate::proofs::Bits::none_held), unfolding(crate::specs::Sets::holds))]
    pub fn new() -> TestSet
        ensures { (u : ℕ) → holds result u ≡ false }
    {
        TestSet { words: [0; 17] }
    }

    /// Whether the set holds a test; of a number from 1,088 on it holds none.
    #[tactic(auto, unfolding(crate::specs::Sets::holds))]
    pub fn has(&self, t: u32) -> bool
        ensures { result ≡ holds self.now t }
    {
        match self.words.get(t as usize / 64) {
            Some(word) => *word >> (t % 64) & 1 == 1,
            None => false,
        }
    }

    /// Adds a test.
    #[tactic(auto, using(crate::proofs::Bits::one_more_held), unfolding(crate::specs::Sets::holds))]
    pub fn insert(&mut self, t: u32)
        requires { t < 1088 }
        ensures { (u : ℕ) → holds self.new u ≡ (nat_eq u t || holds self.old u) }
    {
        self.words[t as usize / 64] |= 1 << (t % 64);
    }

    /// Adds all tests of another set.
    #[tactic(auto, using(crate::proofs::Bits::either_held), unfolding(crate::specs::Sets::holds))]
    pub fn join(&mut self, other: &TestSet)
        ensures { (u : ℕ) → holds self.new u ≡ (holds self.old u || holds other.now u) }
    {
        for i in 0..17 {
            self.words[i] |= other.words[i];
        }
    }
}
