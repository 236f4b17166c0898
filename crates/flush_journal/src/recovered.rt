// What a journal held when it was opened.
ghost use Rattle.std.specs.Prelude.{◌≡◌, OnOk, option_map, vec_items};
ghost use Rattle.std.specs.FinMap as map;
ghost use Rattle.std.specs.Option.{option_copied};
ghost use Rattle.containers.specs.TextMaps.Keyed.{keyed};
ghost use Rattle.containers.specs.TextMaps.Nexts.{IsNext, IsKeyStep};
ghost use Rattle.flush_journal.specs.Records.{IsRecord, IsRecordMap, put_record};

use containers::text_maps::ByteMap;
use std::alloc::{AllocError, Global};
use std::collections::BTreeMap;
use std::marker::Model;

/// The body of a record.
#[derive(Drop)]
pub struct Body {
    bytes: Vec<u8>,
}

impl Model for Body {
    ghost use Rattle.std.specs.Prelude.{List, ℕ};

    ghost Value = { List ℕ };

    ghost view = { λ b. b.bytes.items };
}

impl Body {
    fn new(bytes: Vec<u8>) -> Body
        ensures { result ≡ bytes.items }
    {
        Body { bytes }
    }

    pub fn bytes(&self) -> &[u8]
        ensures { result.now ≡ self.now }
    {
        self.bytes.as_slice()
    }

    fn into_bytes(self) -> Vec<u8>
        ensures { result.items ≡ self }
    {
        self.bytes
    }
}

/// What a journal holds: bodies that aren't empty by their keys, the last record of a key winning.
#[derive(Drop)]
pub struct Recovered {
    alloc: Global,
    records: ByteMap<Body>,
}

impl Model for Recovered {
    ghost use Rattle.std.specs.Prelude.{List, ℕ};
    ghost use Rattle.std.specs.FinMap as map;
    ghost use Rattle.std.specs.Coded.{coded_ℕ, coded_list};
    ghost use Rattle.containers.specs.TextMaps.Keyed.{text_order};
    ghost use Rattle.flush_journal.specs.Records.{IsRecordMap};

    ghost Value = { map.FinMap text_order (List ℕ) };

    ghost coded = { map.code (coded_list coded_ℕ) (coded_list coded_ℕ) };

    ghost view = { λ a. a.records };

    ghost invariant = { λ a. IsRecordMap a.records };
}

impl Recovered {
    // Nothing held. It takes no memory.
    pub(crate) fn new(alloc: Global) -> Recovered
        ensures { result ≡ map.empty }
    {
        Recovered {
            alloc,
            records: ByteMap::new(alloc),
        }
    }

    /// Each key has 1 to 65,535 bytes, and each body 1 to 2^32 - 1.
    pub fn sizes(&self)
        ensures { IsRecordMap self.now }
    {
        let _ = &self.records;
    }

    /// The body of a key.
    pub fn get(&self, key: &[u8]) -> Option<&[u8]>
        ensures { option_copied result ≡ map.get self.now key.now }
    {
        let body = self.records.get(key)?;
        Some(body.bytes())
    }

    /// The least key of the map, or the least one behind a key. Where the map has that key, it is found in
    /// order; else each key before it is looked at.
    pub fn next_key(&self, after: Option<&[u8]>) -> Option<&[u8]>
        ensures least { IsNext self.now (option_copied after.entry) (option_copied result) }
        ensures step { IsKeyStep self.now (option_copied after.entry) (option_copied result) }
    {
        let (key, _) = self.records.next_key(after)?;
        Some(key)
    }

    /// The records, in the order of their keys.
    pub fn as_tree(&self) -> &BTreeMap<Vec<u8>, Body>
        ensures { map.entries self.now ≡ keyed vec_items result.now.entries }
    {
        self.records.as_tree()
    }

    /// Takes a key and its body out of the map, and gives the body. Who walks over the map asks for the next key first.
    pub fn take(&mut self, key: &[u8]) -> Option<Vec<u8>>
        ensures body { option_map (λ v. v.items) result ≡ map.get self.old key.now }
        ensures rest { self.new ≡ map.remove self.old key.now }
    {
        let body = self.records.remove(key)?;
        Some(body.into_bytes())
    }

    // Puts a body at a key, or takes the key out for an empty one.
    pub(crate) fn put_record(&mut self, key: &[u8], body: &[u8]) -> Result<(), AllocError>
        requires { IsRecord (key.now, body.now) }
        ensures { OnOk result (self.new ≡ put_record (key.now, body.now) self.old) }
    {
        if body.is_empty() {
            self.records.remove(key);
            return Ok(());
        }
        let body = Body::new(body.to_vec(self.alloc)?);
        self.records.put_copy(key, body)
    }
}
