ghost use Rattle.std.specs.Prelude.{◌≡◌, Some, true, false, IfOk, IsErrOf, length, refl, string_bytes};
ghost use Rattle.std.specs.Cmp.{partial_equiv_from_equiv};
ghost use Rattle.std.specs.Cmp.Lexicographic.{nat_list_cmp_total, nat_list_eq_equiv, texts_po, texts_ties};
ghost use Rattle.std.specs.List.{list_all};
ghost use Rattle.std.specs.Str.{bytes_eq};
ghost use Rattle.object_ids.specs.Names.{is_name, is_name_byte};
ghost use Rattle.object_ids.specs.declared.names.NameFault.TheVariants.{NoMemory};
ghost use Rattle.containers.specs.TextMaps.Keyed.{text_order};

use std::alloc::{AllocError, Global};
use std::cmp::Ordering;
use std::marker::Model;

/// A text of at least one byte, without control characters of ASCII: no byte is below 0x20, and none is 0x7F.
#[derive(Drop)]
pub struct Name {
    text: String,
}

impl Model for Name {
    ghost use Rattle.std.specs.Prelude.{◌≡◌, ℕ, List, true, length, string_bytes};
    ghost use Rattle.object_ids.specs.Names.{is_name};

    ghost Value = { List ℕ };

    ghost view = { λ n. string_bytes n.text };

    ghost invariant = { λ n. is_name (length (string_bytes n.text)) (string_bytes n.text) ≡ true };
}

// Names are the same where their bytes are, and stand in the order of their bytes.
impl PartialEq for Name {
    ghost eq = { bytes_eq };

    ghost laws = { partial_equiv_from_equiv nat_list_eq_equiv };

    fn eq(&self, other: &Name) -> bool {
        self.text == other.text
    }
}

impl Eq for Name {
    ghost laws = { nat_list_eq_equiv };
}

impl Ord for Name {
    ghost cmp = { text_order };

    ghost total = { nat_list_cmp_total };

    ghost matches_partial_cmp = { λ x y. refl };

    ghost matches_eq = { texts_ties };

    fn cmp(&self, other: &Name) -> Ordering {
        self.text.cmp(&other.text)
    }
}

impl PartialOrd for Name {
    ghost partial_cmp = { λ x y. Some (text_order x y) };

    ghost laws = { texts_po };

    fn partial_cmp(&self, other: &Name) -> Option<Ordering> {
        Some(self.cmp(other))
    }
}

/// Why a text was not read as a name.
#[derive(Clone, Copy, Debug, PartialEq, Eq)]
pub enum NameFault {
    /// The text is empty, is longer than the limit, or holds a byte that no name has.
    BadName,
    /// There was no memory for the name.
    NoMemory,
}

impl From<AllocError> for NameFault {
    ghost from_gives = { λ _ e. e ≡ NoMemory };

    fn from(_error: AllocError) -> NameFault {
        NameFault::NoMemory
    }
}

impl Name {
    /// Reads a name of at most `most` bytes.
    pub fn read(alloc: Global, text: &str, most: usize) -> Result<Name, NameFault>
        ensures ok { IfOk result (λ n. (n ≡ text.now) × (is_name most text.now ≡ true)) }
        ensures bad { IsErrOf result NameFault.BadName → is_name most text.now ≡ false }
        ensures memory { IsErrOf result NameFault.NoMemory → is_name most text.now ≡ true }
    {
        if !is_name(text.as_bytes(), most) {
            return Err(NameFault::BadName);
        }
        Ok(Name {
            text: String::from_str(alloc, text)?,
        })
    }

    /// The same name once more.
    pub fn copy(&self) -> Result<Name, AllocError>
        ensures { IfOk result (λ n. n ≡ self.now) }
    {
        Ok(Name {
            text: self.text.clone()?,
        })
    }

    /// The text of the name, which takes no memory.
    pub fn into_text(self) -> String
        ensures { string_bytes result ≡ self }
    {
        self.text
    }

    /// The name as text.
    pub fn text(&self) -> &str
        ensures value { result.now ≡ self.now }
        ensures name { is_name (length self.now) self.now ≡ true }
    {
        self.text.as_str()
    }
}

/// Whether the bytes of a text are a name of at most `most` bytes.
pub(crate) fn is_name(bytes: &[u8], most: usize) -> bool
    ensures { result ≡ is_name most bytes.now }
{
    if bytes.is_empty() || bytes.len() > most {
        return false;
    }
    has_name_bytes(bytes)
}

fn has_name_bytes(bytes: &[u8]) -> bool
    ensures { result ≡ list_all is_name_byte bytes.now }
{
    bytes.iter().all(|byte| is_name_byte(*byte))
}

fn is_name_byte(byte: u8) -> bool
    ensures { result ≡ is_name_byte byte }
{
    byte >= 0x20 && byte != 0x7f
}
