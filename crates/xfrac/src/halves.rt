//! Whole numbers of 128 bits in two halves. (This project's own.)
ghost use Rattle.std.specs.Prelude.{◌≡◌};

use std::marker::Model;

/// How many numbers a half holds.
const HALF: u128 = 1 << 64;

/// A whole number below 2^128. What holds one is laid out at 8 bytes, where a `u128` asks for 16: so a stored sample takes
/// 48 bytes, and not 64.
#[derive(Clone, Copy, Debug, PartialEq, Eq)]
pub(crate) struct Halves {
    high: u64,
    low: u64,
}

impl Model for Halves {
    ghost use Rattle.std.specs.Prelude.{◌+◌, ◌*◌, ◌/◌, ◌%◌, ◌^◌, ◌<◌, ℕ};
    ghost use Rattle.std.proofs.lemmas.Nat.{mod_low, shr_high};

    ghost Value = { ℕ };

    ghost view = { λ n. n.high * 2 ^ 64 + n.low };

    ghost invariant = { λ n. n.low < 2 ^ 64 };

    ghost inverse = { λ n. record { high = n / 2 ^ 64; low = n % 2 ^ 64 } };

    ghost inverse_ok = { λ n h i. record { high = shr_high n.high 64 n.low h i; low = mod_low n.high 64 n.low h i } };
}

impl Halves {
    pub(crate) fn of(n: u128) -> Halves
        ensures { result ≡ n }
    {
        Halves {
            high: (n / HALF) as u64,
            low: (n % HALF) as u64,
        }
    }

    pub(crate) fn get(&self) -> u128
        ensures { result ≡ self.now }
    {
        self.high as u128 * HALF + self.low as u128
    }
}
