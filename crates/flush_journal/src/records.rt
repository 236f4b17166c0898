// The bytes of numbers, read from the front.
ghost use Rattle.std.specs.Prelude.{◌≡◌, option_map};
ghost use Rattle.flush_journal.specs.Records.{split_number_4, split_number_8};

// The number that the first four bytes spell.
pub fn number_4(bytes: &[u8]) -> Option<u32>
    ensures { result ≡ option_map (λ p. p.0) (split_number_4 bytes.now) }
{
    match bytes {
        [a, b, c, d, ..] => Some(u32::from_be_bytes([*a, *b, *c, *d])),
        _ => None,
    }
}

// The number that eight bytes spell, and what follows.
pub fn number_8(bytes: &[u8]) -> Option<(u64, &[u8])>
    ensures { option_map (λ p. (p.0, p.1.now)) result ≡ split_number_8 bytes.now }
{
    match bytes {
        [a, b, c, d, e, f, g, h, rest @ ..] => Some((
            u64::from_be_bytes([*a, *b, *c, *d, *e, *f, *g, *h]),
            rest,
        )),
        _ => None,
    }
}
