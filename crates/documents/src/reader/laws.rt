//! What holds of all documents.

ghost use Rattle.std.specs.Prelude.{◌≡◌, ◌<◌, ◌≤◌, ◌↔◌, ◌⊎◌, ℕ, List, [], None, Ok, Err, IsUtf8, length};
ghost use Rattle.serde_json.specs.Data.{Data};
ghost use Rattle.serde_json.specs.Read.{read};
ghost use Rattle.documents.specs.Parts.Faults.{Fault, fault};
ghost use Rattle.documents.specs.declared.parts.faults.DocCause.TheVariants.{BadJson, TooLong};
ghost use Rattle.documents.specs.Reader.Documents.{doc_of, tree_doc};
ghost use Rattle.documents.specs.Reader.Loads.{Loads, LoadsText};
ghost use Rattle.documents.specs.Reader.Texts.{most_bytes};
ghost use Rattle.documents.specs.declared.reader.loaded.Loaded.{Loaded};

/// A document holds one value, or it has a fault, and never both. A text is too long, or no JSON,
/// exactly where it says so.
pub fn document_or_fault()
    ensures tree { (tree : Data) (l : Loaded) → (Loads tree l ↔ (tree_doc tree ≡ Ok l)) }
    ensures text { (text : List ℕ) (l : Loaded) → (LoadsText text l ↔ (doc_of text ≡ Ok l)) }
    ensures one { (text : List ℕ) (l m : Loaded) → LoadsText text l → LoadsText text m → l ≡ m }
    ensures not_both { (text : List ℕ) (l : Loaded) (f : Fault) → LoadsText text l
        → doc_of text ≡ Err f → ⊥ }
    ensures too_long { (text : List ℕ) → most_bytes < length text
        → doc_of text ≡ Err (fault [] TooLong) }
    ensures no_json { (text : List ℕ) → length text ≤ most_bytes
        → (IsUtf8 text → read text ≡ None) → doc_of text ≡ Err (fault [] BadJson) }
{}
