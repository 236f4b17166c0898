//! What holds of all documents. No program calls these functions; the contract of each is a law.

ghost use Rattle.documents.specs.Domains.Laws.{EachAtItsText, HasLeastLength, HasNoFloats};
ghost use Rattle.documents.specs.Domains.Laws.{KeysAreTexts, KeysInOrder};

/// In a collection the tree of each object of the kind in the domain, and of the root, stands at the text of its id; nothing
/// else stands there; and the keys are in byte order.
pub fn collections_by_ids()
    ensures each { EachAtItsText }
    ensures only { KeysAreTexts }
    ensures order { KeysInOrder }
{}

/// No number of a document has a fraction or an exponent, so that it has one compact text.
pub fn documents_have_no_floats()
    ensures { HasNoFloats }
{}

/// The compact text of a document has at least as many bytes as the shapes of its datasets ask for: one for each element, and
/// for each list its two brackets and the commas between its members.
pub fn documents_have_least_lengths()
    ensures { HasLeastLength }
{}
