// A journal's first bytes.
ghost use Rattle.std.specs.Prelude.{◌≡◌, ◌≤◌, length, MatchOption, None, slice_index};
ghost use Rattle.flush_journal.specs.Files.{first_outside, header_ranges};

/// The version of the format.
pub const VERSION: u32 = 1;

/// A journal begins with these bytes.
pub const MAGIC: [u8; 8] = *b"hsdsjrn1";

/// The place of the first marker.
pub const HEADER_SIZE: u64 = 16;

// The least and the greatest byte at each place of the header: the magic, the lanes and zeros.
const RANGES: [(u8, u8); 16] = [
    (MAGIC[0], MAGIC[0]),
    (MAGIC[1], MAGIC[1]),
    (MAGIC[2], MAGIC[2]),
    (MAGIC[3], MAGIC[3]),
    (MAGIC[4], MAGIC[4]),
    (MAGIC[5], MAGIC[5]),
    (MAGIC[6], MAGIC[6]),
    (MAGIC[7], MAGIC[7]),
    (0, 0),
    (0, 0),
    (0, 0),
    (1, 16),
    (0, 0),
    (0, 0),
    (0, 0),
    (0, 0),
];

// The place of the first byte that a header can't have there, or that is missing.
pub fn outside(bytes: &[u8]) -> Option<u64>
    ensures place { result ≡ first_outside 0 header_ranges bytes.now }
    ensures long { MatchOption result (16 ≤ length bytes.now) (λ _. Unit {0}) }
    ensures some_lane { MatchOption result (1 ≤ slice_index bytes.now 11) (λ _. Unit {0}) }
    ensures few_lanes { MatchOption result (slice_index bytes.now 11 ≤ 16) (λ _. Unit {0}) }
{
    for (i, (least, greatest)) in RANGES.iter().enumerate() {
        if i >= bytes.len() || bytes[i] < *least || bytes[i] > *greatest {
            return Some(i as u64);
        }
    }
    None
}
