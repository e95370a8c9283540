//! The hash by which the words of a vocabulary are found. It takes one multiplication for a character, and has keys.

ghost use Rattle.std.specs.Prelude.{◌≡◌, fold};
ghost use Rattle.std.specs.Hash.FoldHasher.{folded_multiply};
ghost use Rattle.sbl_last_runs.specs.WordHash as hash;

use std::hash::{BuildHasher, Hasher, RandomState};

/// The keys of the hash of words: the state at the beginning, the factor of each step, and the factor of the last step.
#[derive(Clone, Copy)]
pub struct WordKeys {
    start: u64,
    factor: u64,
    last_factor: u64,
}

impl WordKeys {
    /// Returns keys that are made of these by SipHash. If these come from the system, as those of `RandomState::new`, nobody
    /// else knows the keys that are returned. We know no way to choose words that collide without them. No contract says so:
    /// it is our judgment of a hash that multiplies by secret numbers.
    pub fn new(keys: RandomState) -> WordKeys
        ensures { result ≡ hash.word_keys keys }
    {
        WordKeys {
            start: keys.hash_one(0u64),
            factor: keys.hash_one(1u64) | 1,
            last_factor: keys.hash_one(2u64) | 1,
        }
    }

    /// Returns keys that are always the same, and so no secret: digits of pi (our own choice). Anybody can choose words that
    /// collide under them.
    pub fn constant() -> WordKeys
        ensures { result ≡ hash.constant_keys }
    {
        WordKeys {
            start: 0x243F_6A88_85A3_08D3,
            factor: 0x1319_8A2E_0370_7345,
            last_factor: 0xA409_3822_299F_31D1,
        }
    }
}

impl BuildHasher for WordKeys {
    type Hasher = WordHasher;

    ghost build_hasher = { hash.initial };

    #[inline(always)]
    fn build_hasher(&self) -> WordHasher {
        WordHasher {
            state: self.start,
            factor: self.factor,
            last_factor: self.last_factor,
        }
    }
}

/// Makes the hash of a word, a number at a time: its length, and then its characters.
#[derive(Clone, Copy)]
pub struct WordHasher {
    state: u64,
    factor: u64,
    last_factor: u64,
}

/// Returns the two halves of the product, joined by an exclusive or.
#[inline(always)]
fn multiply(a: u64, b: u64) -> u64
    ensures { result ≡ folded_multiply a b }
{
    let product = a as u128 * b as u128;
    (product & 0xFFFF_FFFF_FFFF_FFFF) as u64 ^ (product >> 64) as u64
}

impl WordHasher {
    /// Takes a number.
    #[inline(always)]
    fn take(&mut self, number: u64)
        ensures { self.new ≡ hash.with_number self.old number }
    {
        self.state = multiply(self.state ^ number, self.factor);
    }

    /// Takes each byte as a number.
    fn take_bytes(&mut self, bytes: &[u8])
        ensures { self.new ≡ fold hash.with_number self.old bytes.now }
    {
        for byte in bytes {
            self.take(*byte as u64);
        }
    }
}

impl Hasher for WordHasher {
    ghost write = { hash.write };

    ghost finish = { hash.finish };

    #[inline(always)]
    fn finish(&self) -> u64 {
        multiply(self.state, self.last_factor)
    }

    fn write(&mut self, bytes: &[u8]) {
        if bytes.len() == 4 {
            self.take(u32::from_le_bytes([bytes[0], bytes[1], bytes[2], bytes[3]]) as u64);
        } else if bytes.len() == 8 {
            self.take(u64::from_le_bytes([
                bytes[0], bytes[1], bytes[2], bytes[3], bytes[4], bytes[5], bytes[6], bytes[7],
            ]));
        } else {
            self.take_bytes(bytes);
        }
    }

    #[inline(always)]
    fn write_u32(&mut self, i: u32) {
        self.take(i as u64);
    }

    #[inline(always)]
    fn write_usize(&mut self, i: usize) {
        self.take(i as u64);
    }
}
