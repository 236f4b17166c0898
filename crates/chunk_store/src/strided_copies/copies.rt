//! Copies of elements between byte slices.

ghost use Rattle.std.specs.Prelude.{◌≡◌, ◌≤◌, ◌+◌, ◌*◌, length};
ghost use Rattle.hdf_values.specs.Nested.{pieces_at, with_pieces};
ghost use Rattle.chunk_store.specs.StridedCopies.Strides.{AreCopied, AreOthersKept, Fit};

/// Elements of a slice, by their numbers.
#[derive(Clone, Copy, Debug, PartialEq, Eq)]
pub struct Strided {
    /// The number of the first element.
    pub first: usize,
    /// The distance to the next.
    pub stride: usize,
}

/// Copies `many` elements of `size` bytes from a slice to another. All other bytes stay.
#[inline(always)]
pub fn copy_strided(out: &mut [u8], to: Strided, from: &[u8], at: Strided, many: usize, size: usize)
    requires size { 1 ≤ size }
    requires apart { 1 ≤ to.stride }
    requires out { Fit to many size (length out.old) }
    requires from { Fit at many size (length from.now) }
    ensures copied { AreCopied to at many size from.now out.new }
    ensures kept { AreOthersKept to many size out.old out.new }
    ensures len { length out.new ≡ length out.old }
{
    if many > 1 && to.stride == 1 && at.stride == 1 {
        put(out, to.first, subslice(from, at.first, many, size), size);
    } else {
        copy_sized(out, to, from, at, many, size);
    }
}

/// Copies element by element. The common sizes are literals, so that each is moved at once.
#[inline(always)]
fn copy_sized(out: &mut [u8], to: Strided, from: &[u8], at: Strided, many: usize, size: usize)
    requires size { 1 ≤ size }
    requires apart { 1 ≤ to.stride }
    requires out { Fit to many size (length out.old) }
    requires from { Fit at many size (length from.now) }
    ensures copied { AreCopied to at many size from.now out.new }
    ensures kept { AreOthersKept to many size out.old out.new }
    ensures len { length out.new ≡ length out.old }
{
    if size == 4 {
        copy_each(out, to, from, at, many, 4);
    } else if size == 8 {
        copy_each(out, to, from, at, many, 8);
    } else {
        copy_each(out, to, from, at, many, size);
    }
}

#[inline(always)]
fn copy_each(out: &mut [u8], to: Strided, from: &[u8], at: Strided, many: usize, size: usize)
    requires size { 1 ≤ size }
    requires apart { 1 ≤ to.stride }
    requires out { Fit to many size (length out.old) }
    requires from { Fit at many size (length from.now) }
    ensures copied { AreCopied to at many size from.now out.new }
    ensures kept { AreOthersKept to many size out.old out.new }
    ensures len { length out.new ≡ length out.old }
{
    for i in 0..many {
        let element = subslice(from, at.first + i * at.stride, 1, size);
        put(out, to.first + i * to.stride, element, size);
    }
}

/// The bytes of elements that follow one another.
#[inline(always)]
fn subslice(bytes: &[u8], first: usize, many: usize, size: usize) -> &[u8]
    requires { (first + many) * size ≤ length bytes.now }
    ensures { result.now ≡ pieces_at size first many bytes.now }
{
    let start = first * size;
    &bytes[start..start + many * size]
}

/// Puts the bytes of elements in place of others, from a number on.
#[inline(always)]
fn put(bytes: &mut [u8], first: usize, elements: &[u8], size: usize)
    requires { first * size + length elements.now ≤ length bytes.old }
    ensures { bytes.new ≡ with_pieces size first elements.now bytes.old }
{
    let start = first * size;
    bytes[start..start + elements.len()].copy_from_slice(elements);
}
