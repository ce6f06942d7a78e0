//! The first word of a line.

ghost use Rattle.std.specs.Prelude.{◌≡◌};
ghost use Rattle.suite_load.specs.SuiteForm.{first_word};

/// The kind of line that a first word begins.
#[derive(Clone, Copy)]
pub enum FirstWord {
    Header,
    Budget,
    Class,
    File,
    Test,
    End,
    Other,
}

/// The kind of line that a word begins.
#[tactic(auto, unfolding(crate::specs::SuiteForm::first_word))]
pub fn first_word(word: &[u8]) -> FirstWord
    ensures { result ≡ first_word word.now }
{
    if word == b"electric-suite".as_slice() {
        return FirstWord::Header;
    }
    if word == b"budget".as_slice() {
        return FirstWord::Budget;
    }
    if word == b"class".as_slice() {
        return FirstWord::Class;
    }
    if word == b"file".as_slice() {
        return FirstWord::File;
    }
    if word == b"test".as_slice() {
        return FirstWord::Test;
    }
    if word == b"end".as_slice() {
        return FirstWord::End;
    }
    FirstWord::Other
}
