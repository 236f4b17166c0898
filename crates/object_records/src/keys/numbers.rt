//! The records of two numbers: the run, and the number that the next domain takes.

ghost use Rattle.std.specs.Prelude.{◌≡◌, ◌≢◌, ◌<◌, ◌^◌, ◌↔◌, ℕ, IsTrue, MatchOption};
ghost use Rattle.object_records.specs.Keys.Keys.{run_key, next_key};
ghost use Rattle.object_records.specs.Keys.Numbers.{run_bytes, next_bytes};

/// The key of the record of the run: 1 alone.
pub fn run_key() -> [u8; 1]
    ensures { result ≡ run_key }
{
    [1]
}

/// Whether a key is that of the run.
pub fn is_run_key(key: &[u8]) -> bool
    ensures { IsTrue result ↔ (run_key ≡ key.now) }
{
    matches!(key, [1])
}

/// The key of the record of the number that the next domain takes: 5 alone.
pub fn next_key() -> [u8; 1]
    ensures { result ≡ next_key }
{
    [5]
}

/// Whether a key is that of the number that the next domain takes.
pub fn is_next_key(key: &[u8]) -> bool
    ensures { IsTrue result ↔ (next_key ≡ key.now) }
{
    matches!(key, [5])
}

/// The body of the record of the run: four bytes, the greatest first.
pub fn run_body(run: u32) -> [u8; 4]
    ensures { result ≡ run_bytes run }
{
    run.to_be_bytes()
}

/// The run that a body holds.
pub fn run_in(body: &[u8]) -> Option<u32>
    ensures { MatchOption result ((run : ℕ) → run < 2 ^ 32 → run_bytes run ≢ body.now)
        (λ run. (run < 2 ^ 32) × (run_bytes run ≡ body.now)) }
{
    let [a, b, c, d] = body else {
        return None;
    };
    Some(u32::from_be_bytes([*a, *b, *c, *d]))
}

/// The body of the record of the number that the next domain takes: eight bytes, the greatest first.
pub fn next_body(number: u64) -> [u8; 8]
    ensures { result ≡ next_bytes number }
{
    number.to_be_bytes()
}

/// The number that a body holds.
pub fn next_in(body: &[u8]) -> Option<u64>
    ensures { MatchOption result
        ((number : ℕ) → number < 2 ^ 64 → next_bytes number ≢ body.now)
        (λ number. (number < 2 ^ 64) × (next_bytes number ≡ body.now)) }
{
    let [a, b, c, d, e, f, g, h] = body else {
        return None;
    };
    Some(u64::from_be_bytes([*a, *b, *c, *d, *e, *f, *g, *h]))
}
