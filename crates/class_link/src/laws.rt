//! What holds of linking whatever the class files are.

ghost use Rattle.class_link.specs.Link.{LinksOnce};

/// Linking has exactly one answer: class files and lines have a program or a fault, and what `link` says of its answer, but
/// for want of memory, is true of that one alone.
pub fn links_once()
    ensures { LinksOnce }
{}
