//! SHA-256 sums of a suite.

ghost use Rattle.std.specs.Prelude.{◌≡◌, ◌++◌, ℕ, List, codes, map, IfOk};
ghost use Rattle.std.specs.List.{flat_map};
ghost use Rattle.sha2.specs.{Sha256.sha256, Hashers.Holds256};
ghost use Rattle.dep_record.specs.Hashes as sums;

use et_base::{Items, NoMemory};
use order_law::Prints;
use sha2::{Digest, Sha256};
use std::alloc::Global;

/// Takes in a file behind its length.
#[tactic(auto, unfolding(crate::specs::Hashes::sized))]
pub fn add_sized(sum: &mut Sha256, bytes: &[u8])
    ensures { (m : List ℕ) → Holds256 sum.old m → Holds256 sum.new (m ++ sums.sized bytes.now) }
{
    sum.update((bytes.len() as u64).to_be_bytes());
    sum.update(bytes);
}

// Takes in class files, each behind its length.
fn add_classes(sum: &mut Sha256, classes: &[Vec<u8>])
    ensures { (m : List ℕ) → Holds256 sum.old m → Holds256 sum.new (m ++ flat_map sums.sized (map (λ c. c.items) classes.now)) }
{
    for class in classes {
        add_sized(sum, class.as_slice());
    }
}

// The sum over some bytes, and then the suite text and all class files, each behind its length.
#[tactic(auto, unfolding(crate::specs::Hashes::suite_bytes))]
fn sum_after(before: &[u8], suite: &[u8], classes: &[Vec<u8>]) -> [u8; 32]
    ensures { result ≡ sha256 (before.now ++ sums.suite_bytes suite.now (map (λ c. c.items) classes.now)) }
{
    let mut sum = Sha256::new();
    sum.update(before);
    add_sized(&mut sum, suite);
    add_classes(&mut sum, classes);
    sum.finalize()
}

/// The digest of a suite: SHA-256 over its text and its class files in order, each behind its length as 8 bytes, the
/// highest first. It takes no memory.
pub fn digest(suite: &[u8], classes: &[Vec<u8>]) -> [u8; 32]
    ensures { result ≡ sums.digest_of suite.now (map (λ c. c.items) classes.now) }
{
    sum_after(b"", suite, classes)
}

// The sum over each class file.
fn sums_of(alloc: Global, classes: &[Vec<u8>]) -> Result<Items<[u8; 32]>, NoMemory>
    ensures { IfOk result (λ each. each ≡ map (λ c. sha256 c.items) classes.now) }
{
    let mut each = Items::new(alloc);
    for class in classes {
        each.push(Sha256::digest(class.as_slice()))?;
    }
    Ok(each)
}

/// The sums that name a suite and its files. `NoMemory` where an allocation is refused.
pub fn prints(alloc: Global, suite: &[u8], classes: &[Vec<u8>]) -> Result<Prints, NoMemory>
    ensures { IfOk result (λ p. p ≡ sums.prints_of suite.now (map (λ c. c.items) classes.now)) }
{
    Ok(Prints {
        digest: digest(suite, classes),
        suite: Sha256::digest(suite),
        classes: sums_of(alloc, classes)?,
        eager: sum_after(b"eager", suite, classes),
    })
}
