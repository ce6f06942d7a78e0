//! Laws of the texts of records.

ghost use Rattle.dep_record.specs.Laws.{FoundLaw, GivenLaw, HashesLaw};

/// What is read of a text is what it says and nothing else, and the text of a record in form is read as that record. The sums
/// of a suite have the form that a record asks for.
pub fn text_laws()
    ensures found { FoundLaw }
    ensures given { GivenLaw }
    ensures hashes { HashesLaw }
{}
