//! The elements of a sample, one after another.

ghost use Rattle.std.specs.Prelude.{◌≡◌, ◌+◌, ◌<◌, ◌^◌, ℕ};
ghost use Rattle.samples.specs.Values.Samples.{element, next_state, state};

use std::marker::Model;

const FACTOR: u64 = 6_364_136_223_846_793_005;

const ADDEND: u64 = 1_442_695_040_888_963_407;

/// The elements that are to come, seen as the state of their generator.
#[derive(Drop)]
pub struct Elements {
    state: u64,
}

impl Model for Elements {
    ghost use Rattle.std.specs.Prelude.{ℕ};
    ghost use Rattle.std.specs.Coded.{coded_ℕ};

    ghost Value = { ℕ };

    ghost coded = { coded_ℕ };

    ghost view = { λ e. e.state };
}

impl Elements {
    /// All elements of the sample of a number.
    pub fn new(number: u32) -> Self
        ensures { result ≡ state number 0 }
    {
        Elements {
            state: u64::from(number),
        }
    }

    /// The next element: its number `k` is that of the calls before.
    pub fn next(&mut self) -> u32
        ensures element { (n k : ℕ) → self.old ≡ state n k → result ≡ element n k }
        ensures state { (n k : ℕ) → self.old ≡ state n k → self.new ≡ state n (k + 1) }
        ensures below { result < 2 ^ 31 }
    {
        let top = top_bits(self.state);
        self.state = following(self.state);
        top
    }
}

// The upper 31 bits.
fn top_bits(x: u64) -> u32
    ensures element { (n k : ℕ) → x ≡ state n k → result ≡ element n k }
    ensures below { result < 2 ^ 31 }
{
    (x >> 33) as u32
}

fn following(x: u64) -> u64
    ensures { result ≡ next_state x }
{
    x.wrapping_mul(FACTOR).wrapping_add(ADDEND)
}
