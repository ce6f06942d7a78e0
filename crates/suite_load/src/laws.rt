//! What holds of loading whatever the files are.

ghost use Rattle.suite_load.specs.Loading.{LoadsOnce};

/// Loading has exactly one answer: the files of a depot have a checked program or a fault, and `load` says of no other.
pub fn loads_once()
    ensures { LoadsOnce }
{}
