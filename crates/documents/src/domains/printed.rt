//! The text of a document.

ghost use Rattle.std.specs.Prelude.{◌≡◌, ◌<◌, ◌≤◌, ◌^◌, Err, IfErr, IfOk, length, string_bytes};
ghost use Rattle.std.specs.FinMap.{entries};
ghost use Rattle.serde_json.specs.Written.{compact_text};
ghost use Rattle.documents.specs.Domains.Documents.{document_tree};
ghost use Rattle.documents.specs.Domains.Lengths.{least_values};
ghost use Rattle.documents.specs.Domains.Printed.{IsPrinted};

use crate::domains::home::Home;
use crate::domains::laws::documents_have_least_lengths;
use crate::domains::lengths::least_length;
use crate::domains::store::ObjectStore;
use crate::domains::writing::write_document;
use json::Writer;
use std::alloc::{AllocError, Global};

/// The most bytes of a document's text: 2^27.
pub const MAX_TEXT: usize = 134_217_728;

/// Why a document is not printed.
#[derive(Clone, Copy, Debug, PartialEq, Eq)]
pub enum PrintFault {
    /// Its compact text has more than [`MAX_TEXT`] bytes.
    TooLarge,
    /// There was no memory.
    NoMemory,
}

impl From<AllocError> for PrintFault {
    ghost use Rattle.documents.specs.declared.domains.printed.PrintFault.TheVariants.{NoMemory};

    ghost from_gives = { λ _ e. e ≡ NoMemory };

    fn from(_error: AllocError) -> PrintFault {
        PrintFault::NoMemory
    }
}

/// The compact text of a domain's document, where that isn't too long; it is printed object by object, and no tree of the
/// whole is made. Where the shapes of the datasets alone ask for a longer text, that is told before a value is read.
///
/// # Errors
///
/// [`PrintFault::TooLarge`] exactly where the text has more than [`MAX_TEXT`] bytes, or [`PrintFault::NoMemory`] where memory
/// runs out, which is before the text stands.
pub fn print_domain<S: ObjectStore>(
    alloc: Global,
    store: &S,
    home: &Home,
) -> Result<String, PrintFault>
    ensures printed { IfOk result
        (λ text. IsPrinted (document_tree (S.objects store.now) home.now) (string_bytes text)) }
    ensures short { IfOk result
        (λ _. length (compact_text (document_tree (S.objects store.now) home.now)) ≤ 2 ^ 27) }
    ensures large { result ≡ Err PrintFault.TooLarge
        → 2 ^ 27 < length (compact_text (document_tree (S.objects store.now) home.now)) }
    ensures early { 2 ^ 27 < least_values home.now (entries (S.objects store.now))
        → result ≡ Err PrintFault.TooLarge }
{
    documents_have_least_lengths();
    if least_length(store, home) > MAX_TEXT as u64 {
        return Err(PrintFault::TooLarge);
    }
    let text = text_of(alloc, store, home)?;
    check_length(text.as_str())?;
    Ok(text)
}

fn text_of<S: ObjectStore>(alloc: Global, store: &S, home: &Home) -> Result<String, AllocError>
    ensures { IfOk result
        (λ text. IsPrinted (document_tree (S.objects store.now) home.now) (string_bytes text)) }
{
    let mut writer = Writer::new(Vec::new(alloc));
    write_document(alloc, store, home, &mut writer)?;
    Ok(unsafe { String::from_utf8_unchecked(writer.into_inner()) })
}

// Refuses a text that is too long, and that alone: it takes no memory.
fn check_length(text: &str) -> Result<(), PrintFault>
    ensures ok { IfOk result (λ _. length text.now ≤ 2 ^ 27) }
    ensures err { IfErr result (λ e. (e ≡ PrintFault.TooLarge) × (2 ^ 27 < length text.now)) }
{
    if text.len() > MAX_TEXT {
        return Err(PrintFault::TooLarge);
    }
    Ok(())
}
