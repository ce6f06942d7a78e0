//! Texts, names and files as the tests of several libraries make them.

use et_base::{Items, NoMemory, Text};
use jvm_model::Names;
use std::alloc::Global;

/// A file's name and its bytes.
pub type File<'a> = (&'a [u8], &'a [u8]);

/// Whether a text was made, and it is this one.
pub fn is_text(made: Result<Text, NoMemory>, text: &[u8]) -> bool {
    match made {
        Ok(made) => made.as_slice() == text,
        Err(_) => false,
    }
}

/// The names of these tests, and none of classes and fields.
pub fn names(alloc: Global, tests: &[&[u8]]) -> Result<Names, NoMemory> {
    let mut texts = Items::new(alloc);
    for test in tests {
        texts.push(Text::from_slice(alloc, test)?)?;
    }
    Ok(Names {
        tests: texts,
        classes: Items::new(alloc),
        fields: Items::new(alloc),
    })
}

/// These files, for a depot in memory.
pub fn files(alloc: Global, given: &[File]) -> Result<Vec<(Text, Vec<u8>)>, NoMemory> {
    let mut files = Vec::new(alloc);
    for (name, bytes) in given {
        let name = Text::from_slice(alloc, name)?;
        files.push((name, Vec::from_slice(alloc, bytes)?))?;
    }
    Ok(files)
}
