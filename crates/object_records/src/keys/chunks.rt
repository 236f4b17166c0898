//! The keys of chunks.

ghost use Rattle.std.specs.Prelude.{◌≡◌, ◌≢◌, ◌<◌, ◌^◌, ◌++◌, ℕ, List, All, IfOk, MatchOption};
ghost use Rattle.object_ids.specs.IdValues.{Id};
ghost use Rattle.object_ids.specs.declared.ids.Kind.TheVariants.{Dataset};
ghost use Rattle.object_records.specs.Keys.Keys.{IsChunk, chunk_key};
ghost use Rattle.object_records.specs.Keys.Numbers.{AreNumbers, number_bytes};

use crate::keys::ids::{id_bytes, id_of};
use object_ids::{Kind, ObjectId};
use shapes::Dims;
use std::alloc::{AllocError, Global};

/// A chunk of a dataset.
#[derive(Clone, Copy, Debug)]
pub struct ChunkId {
    /// The dataset.
    pub dataset: ObjectId,
    /// The index of the chunk: a number for each axis.
    pub index: Dims,
}

/// The key of a chunk's record: 4, the 16 bytes of the dataset's id, and four bytes for each number
/// of the index.
///
/// # Errors
///
/// Only where memory runs out.
pub fn chunk_key(alloc: Global, dataset: &ObjectId, index: &Dims) -> Result<Vec<u8>, AllocError>
    requires kind { dataset.now.kind ≡ Dataset }
    requires small { All (λ n. n < 2 ^ 32) index.now }
    ensures key { IfOk result (λ v. v.items ≡ chunk_key dataset.now index.now) }
    ensures chunk { IfOk result (λ _. IsChunk dataset.now index.now) }
{
    let _axes = index.len();
    let mut key = Vec::new(alloc);
    key.push(4)?;
    key.extend_from_slice(id_bytes(dataset).as_slice())?;
    push_numbers(&mut key, index.as_slice())?;
    Ok(key)
}

fn push_numbers(key: &mut Vec<u8>, numbers: &[u64]) -> Result<(), AllocError>
    requires { All (λ n. n < 2 ^ 32) numbers.now }
    ensures { IfOk result (λ _. key.new.items ≡ key.old.items ++ number_bytes numbers.now) }
{
    for n in numbers {
        key.extend_from_slice((*n as u32).to_be_bytes().as_slice())?;
    }
    Ok(())
}

/// The chunk whose record has this key.
pub fn chunk_at(key: &[u8]) -> Option<ChunkId>
    ensures { MatchOption result
        ((dataset : Id) (index : List ℕ) → IsChunk dataset index
        → chunk_key dataset index ≢ key.now)
        (λ c. IsChunk c.dataset c.index × (chunk_key c.dataset c.index ≡ key.now)) }
{
    let [4, rest @ ..] = key else {
        return None;
    };
    if rest.len() < 16 {
        return None;
    }
    let (bytes, numbers) = rest.split_at(16);
    let Some(dataset) = id_of(Kind::Dataset, bytes) else {
        return None;
    };
    let Some(index) = numbers_in(numbers) else {
        return None;
    };
    Some(ChunkId { dataset, index })
}

// The numbers that have these bytes, four each.
fn numbers_in(bytes: &[u8]) -> Option<Dims>
    ensures { MatchOption result
        ((numbers : List ℕ) → AreNumbers numbers → number_bytes numbers ≢ bytes.now)
        (λ numbers. AreNumbers numbers × (number_bytes numbers ≡ bytes.now)) }
{
    let mut numbers = Dims::new();
    let mut left = bytes;
    while let [a, b, c, d, rest @ ..] = left {
        if numbers.is_full() {
            return None;
        }
        numbers.push(u64::from(u32::from_be_bytes([*a, *b, *c, *d])));
        left = rest;
    }
    if left.is_empty() { Some(numbers) } else { None }
}
