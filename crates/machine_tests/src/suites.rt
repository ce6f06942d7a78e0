//! Suites in memory, and the lines on their tests in a report.

use et_base::{NoMemory, Text};
use outside::MemoryDepot;
use std::alloc::Global;
use std::test::Fail;
use suite_load::{LoadFault, Loaded, load};

/// A file's name and its bytes.
pub type File<'a> = (&'a [u8], &'a [u8]);

// class Counter {
//     static int n;
//     static void set() { n = 5; }
//     static void show() { electric.Env.print(n); }
// }
const COUNTER_CLASS: [u8; 218] = [
    202, 254, 186, 190, 0, 0, 0, 52, 0, 19, 1, 0, 7, 67, 111, 117, 110, 116, 101, 114, 7, 0, 1, 1,
    0, 16, 106, 97, 118, 97, 47, 108, 97, 110, 103, 47, 79, 98, 106, 101, 99, 116, 7, 0, 3, 1, 0,
    1, 110, 1, 0, 1, 73, 1, 0, 3, 115, 101, 116, 1, 0, 3, 40, 41, 86, 1, 0, 4, 67, 111, 100, 101,
    12, 0, 5, 0, 6, 9, 0, 2, 0, 10, 1, 0, 4, 115, 104, 111, 119, 1, 0, 12, 101, 108, 101, 99, 116,
    114, 105, 99, 47, 69, 110, 118, 7, 0, 13, 1, 0, 5, 112, 114, 105, 110, 116, 1, 0, 4, 40, 73,
    41, 86, 12, 0, 15, 0, 16, 10, 0, 14, 0, 17, 0, 33, 0, 2, 0, 4, 0, 0, 0, 1, 0, 8, 0, 5, 0, 6, 0,
    0, 0, 2, 0, 8, 0, 7, 0, 8, 0, 1, 0, 9, 0, 0, 0, 17, 0, 1, 0, 0, 0, 0, 0, 5, 8, 179, 0, 11, 177,
    0, 0, 0, 0, 0, 8, 0, 12, 0, 8, 0, 1, 0, 9, 0, 0, 0, 19, 0, 1, 0, 0, 0, 0, 0, 7, 178, 0, 11,
    184, 0, 18, 177, 0, 0, 0, 0, 0, 0,
];

const COUNTER_SUITE: &[u8] = b"electric-suite 1
class Counter.class
test Counter.set
test Counter.show
end
";

/// A test that writes a static, and one that prints it.
pub const COUNTER_FILES: [File; 2] = [(b"s", COUNTER_SUITE), (b"Counter.class", &COUNTER_CLASS)];

/// The lines of its tests in a report.
pub const COUNTER_LINES: &[u8] = b"test 1 Counter.set passed units 6
test 2 Counter.show passed units 8
out \"5\\n\"
";

// class R {
//     static int d;
//     static void down() { d++; down(); }
//     static void deep() { try { down(); } catch (StackOverflowError e) { electric.Env.print(d); } }
// }
//
// By bytes `deep` is `0 invokestatic R.down; 3 return; 4 pop; 5 getstatic d; 8 print; 11 return`,
// with its handler at 4.
const R_CLASS: [u8; 311] = [
    202, 254, 186, 190, 0, 0, 0, 52, 0, 24, 1, 0, 1, 82, 7, 0, 1, 1, 0, 16, 106, 97, 118, 97, 47,
    108, 97, 110, 103, 47, 79, 98, 106, 101, 99, 116, 7, 0, 3, 1, 0, 1, 100, 1, 0, 1, 73, 1, 0, 4,
    100, 111, 119, 110, 1, 0, 3, 40, 41, 86, 1, 0, 4, 67, 111, 100, 101, 12, 0, 5, 0, 6, 9, 0, 2,
    0, 10, 12, 0, 7, 0, 8, 10, 0, 2, 0, 12, 1, 0, 4, 100, 101, 101, 112, 1, 0, 12, 101, 108, 101,
    99, 116, 114, 105, 99, 47, 69, 110, 118, 7, 0, 15, 1, 0, 5, 112, 114, 105, 110, 116, 1, 0, 4,
    40, 73, 41, 86, 12, 0, 17, 0, 18, 10, 0, 16, 0, 19, 1, 0, 28, 106, 97, 118, 97, 47, 108, 97,
    110, 103, 47, 83, 116, 97, 99, 107, 79, 118, 101, 114, 102, 108, 111, 119, 69, 114, 114, 111,
    114, 7, 0, 21, 1, 0, 13, 83, 116, 97, 99, 107, 77, 97, 112, 84, 97, 98, 108, 101, 0, 33, 0, 2,
    0, 4, 0, 0, 0, 1, 0, 8, 0, 5, 0, 6, 0, 0, 0, 2, 0, 8, 0, 7, 0, 8, 0, 1, 0, 9, 0, 0, 0, 24, 0,
    2, 0, 0, 0, 0, 0, 12, 178, 0, 11, 4, 96, 179, 0, 11, 184, 0, 13, 177, 0, 0, 0, 0, 0, 8, 0, 14,
    0, 8, 0, 1, 0, 9, 0, 0, 0, 50, 0, 1, 0, 0, 0, 0, 0, 12, 184, 0, 13, 177, 87, 178, 0, 11, 184,
    0, 20, 177, 0, 1, 0, 0, 0, 3, 0, 4, 0, 22, 0, 1, 0, 23, 0, 0, 0, 12, 0, 1, 255, 0, 4, 0, 0, 0,
    1, 7, 0, 22, 0, 0,
];

const R_SUITE: &[u8] = b"electric-suite 1
class R.class
test R.deep
end
";

/// A test that overflows the stack and catches the error.
pub const R_FILES: [File; 2] = [(b"s", R_SUITE), (b"R.class", &R_CLASS)];

/// The lines of its test in a report.
pub const R_LINES: &[u8] = b"test 1 R.deep passed units 8200
out \"1023\\n\"
";

// class M {
//     static int n = 1;
//     int f;
//     static void all() {
//         M m = new M();
//         m.f = n;
//         int[] a = new int[2];
//         a[1] = m.f;
//         electric.Files.append("x", new StringBuilder().append("a").append(a[1]).toString());
//         electric.Env.print(electric.Files.read("x").length());
//     }
// }
const M_CLASS: [u8; 727] = [
    202, 254, 186, 190, 0, 0, 0, 52, 0, 59, 10, 0, 2, 0, 3, 7, 0, 4, 12, 0, 5, 0, 6, 1, 0, 16, 106,
    97, 118, 97, 47, 108, 97, 110, 103, 47, 79, 98, 106, 101, 99, 116, 1, 0, 6, 60, 105, 110, 105,
    116, 62, 1, 0, 3, 40, 41, 86, 7, 0, 8, 1, 0, 1, 77, 10, 0, 7, 0, 3, 9, 0, 7, 0, 11, 12, 0, 12,
    0, 13, 1, 0, 1, 110, 1, 0, 1, 73, 9, 0, 7, 0, 15, 12, 0, 16, 0, 13, 1, 0, 1, 102, 8, 0, 18, 1,
    0, 1, 120, 7, 0, 20, 1, 0, 23, 106, 97, 118, 97, 47, 108, 97, 110, 103, 47, 83, 116, 114, 105,
    110, 103, 66, 117, 105, 108, 100, 101, 114, 10, 0, 19, 0, 3, 8, 0, 23, 1, 0, 1, 97, 10, 0, 19,
    0, 25, 12, 0, 26, 0, 27, 1, 0, 6, 97, 112, 112, 101, 110, 100, 1, 0, 45, 40, 76, 106, 97, 118,
    97, 47, 108, 97, 110, 103, 47, 83, 116, 114, 105, 110, 103, 59, 41, 76, 106, 97, 118, 97, 47,
    108, 97, 110, 103, 47, 83, 116, 114, 105, 110, 103, 66, 117, 105, 108, 100, 101, 114, 59, 10,
    0, 19, 0, 29, 12, 0, 26, 0, 30, 1, 0, 28, 40, 73, 41, 76, 106, 97, 118, 97, 47, 108, 97, 110,
    103, 47, 83, 116, 114, 105, 110, 103, 66, 117, 105, 108, 100, 101, 114, 59, 10, 0, 19, 0, 32,
    12, 0, 33, 0, 34, 1, 0, 8, 116, 111, 83, 116, 114, 105, 110, 103, 1, 0, 20, 40, 41, 76, 106,
    97, 118, 97, 47, 108, 97, 110, 103, 47, 83, 116, 114, 105, 110, 103, 59, 10, 0, 36, 0, 37, 7,
    0, 38, 12, 0, 26, 0, 39, 1, 0, 14, 101, 108, 101, 99, 116, 114, 105, 99, 47, 70, 105, 108, 101,
    115, 1, 0, 39, 40, 76, 106, 97, 118, 97, 47, 108, 97, 110, 103, 47, 83, 116, 114, 105, 110,
    103, 59, 76, 106, 97, 118, 97, 47, 108, 97, 110, 103, 47, 83, 116, 114, 105, 110, 103, 59, 41,
    86, 10, 0, 36, 0, 41, 12, 0, 42, 0, 43, 1, 0, 4, 114, 101, 97, 100, 1, 0, 38, 40, 76, 106, 97,
    118, 97, 47, 108, 97, 110, 103, 47, 83, 116, 114, 105, 110, 103, 59, 41, 76, 106, 97, 118, 97,
    47, 108, 97, 110, 103, 47, 83, 116, 114, 105, 110, 103, 59, 10, 0, 45, 0, 46, 7, 0, 47, 12, 0,
    48, 0, 49, 1, 0, 16, 106, 97, 118, 97, 47, 108, 97, 110, 103, 47, 83, 116, 114, 105, 110, 103,
    1, 0, 6, 108, 101, 110, 103, 116, 104, 1, 0, 3, 40, 41, 73, 10, 0, 51, 0, 52, 7, 0, 53, 12, 0,
    54, 0, 55, 1, 0, 12, 101, 108, 101, 99, 116, 114, 105, 99, 47, 69, 110, 118, 1, 0, 5, 112, 114,
    105, 110, 116, 1, 0, 4, 40, 73, 41, 86, 1, 0, 4, 67, 111, 100, 101, 1, 0, 3, 97, 108, 108, 1,
    0, 8, 60, 99, 108, 105, 110, 105, 116, 62, 0, 32, 0, 7, 0, 2, 0, 0, 0, 2, 0, 8, 0, 12, 0, 13,
    0, 0, 0, 0, 0, 16, 0, 13, 0, 0, 0, 3, 0, 0, 0, 5, 0, 6, 0, 1, 0, 56, 0, 0, 0, 17, 0, 1, 0, 1,
    0, 0, 0, 5, 42, 183, 0, 1, 177, 0, 0, 0, 0, 0, 8, 0, 57, 0, 6, 0, 1, 0, 56, 0, 0, 0, 76, 0, 4,
    0, 2, 0, 0, 0, 64, 187, 0, 7, 89, 183, 0, 9, 75, 42, 178, 0, 10, 181, 0, 14, 5, 188, 10, 76,
    43, 4, 42, 180, 0, 14, 79, 18, 17, 187, 0, 19, 89, 183, 0, 21, 18, 22, 182, 0, 24, 43, 4, 46,
    182, 0, 28, 182, 0, 31, 184, 0, 35, 18, 17, 184, 0, 40, 182, 0, 44, 184, 0, 50, 177, 0, 0, 0,
    0, 0, 8, 0, 58, 0, 6, 0, 1, 0, 56, 0, 0, 0, 17, 0, 1, 0, 0, 0, 0, 0, 5, 4, 179, 0, 10, 177, 0,
    0, 0, 0, 0, 0,
];

const M_SUITE: &[u8] = b"electric-suite 1
class M.class
test M.all
end
";

/// A test that works at a location of each kind.
pub const M_FILES: [File; 2] = [(b"s", M_SUITE), (b"M.class", &M_CLASS)];

/// The lines of its test in a report.
pub const M_LINES: &[u8] = b"test 1 M.all passed units 72
out \"2\\n\"
";

fn depot(alloc: Global, files: &[File]) -> Result<MemoryDepot, NoMemory> {
    let mut held = Vec::new(alloc);
    for (name, bytes) in files {
        held.push((
            Text::from_slice(alloc, name)?,
            Vec::from_slice(alloc, bytes)?,
        ))?;
    }
    MemoryDepot::new(alloc, held, Vec::new(alloc))
}

// The suite `s` of these files.
fn loaded(alloc: Global, files: &[File]) -> Result<Loaded, LoadFault> {
    let mut depot = depot(alloc, files)?;
    let name = Text::from_slice(alloc, b"s")?;
    load(alloc, &mut depot, &name)
}

/// What is asked of a suite.
pub trait Question {
    /// Whether the suite is as it should be.
    fn holds(&self, alloc: Global, suite: &Loaded) -> Result<bool, Fail>;
}

/// Whether a question holds of the suite `s` of these files. It alone owns a suite, which takes the
/// prover long.
pub fn is_so<Q: Question>(alloc: Global, files: &[File], question: &Q) -> Result<bool, Fail> {
    let suite = loaded(alloc, files)?;
    question.holds(alloc, &suite)
}
