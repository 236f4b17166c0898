//! Values that are kept as packed numbers, or as their text.

use hdf_values::KeptValue;
use json::{Reader, Scratch};
use std::process::Abort;

/// Whether a text's value is packed.
fn is_packed(rt: &(impl Abort + AllocGlobal), text: &str) -> bool {
    let mut scratch = Scratch::new(rt.alloc());
    let mut reader = Reader::new(text, &mut scratch).expect(rt, "memory");
    let taken = KeptValue::take_packed(rt.alloc(), &mut reader, 127);
    taken.expect(rt, "memory").is_some()
}

/// A value a line: whole numbers of 64 bits with a sign, in lists of one shape.
static PACKED: &str = "[1,-2]
 [ 1 , -2 ]
[[1,2],[3,4]]
[[[1]],[[2]]]
[-2147483648,2147483647]
[1,2147483648]
[127,-128]
[127,-129]
[0,255,7]
[0,256,-1]
[-1,0]
[1,65535]
[65536]
[1,-1]
[9223372036854775807,-9223372036854775808]
[1,9223372036854775807]
[1,2]
[1]";

/// A value a line: other numbers, no list of numbers, or lists of several shapes.
static KEPT: &str = "[18446744073709551615]
[1,2.5]
[-0]
7
[]
[[1,2],[3]]
[1,[2]]
[[1],2]
[1,null]";

#[test]
fn lists_of_whole_numbers_are_packed(rt: HostRuntime) {
    for text in PACKED.lines() {
        assert!(rt; is_packed(&rt, text), "{text}");
    }
}

#[test]
fn other_values_are_kept_as_their_text(rt: HostRuntime) {
    for text in KEPT.lines() {
        assert!(rt; !is_packed(&rt, text), "{text}");
    }
}
