// What a slice of the stream may hold.
ghost use Rattle.std.specs.Prelude.{◌≡◌, ℕ, ◌%◌, ◌^◌, ℤ, pos};
ghost use Rattle.std.specs.Int.{w32, w64, cast_signed};
ghost use Rattle.meaning.specs.Extension.{emod};
ghost use Rattle.calls_stream.specs.Checksum.{modulus};

use std::fmt::Display;

// 2³¹ − 1.
pub const MODULUS: u64 = 2147483647;

pub trait Element: Copy + Display {
    // The element that a word gives.
    ghost read: { ℕ → Self };

    // The number that a checksum adds up.
    ghost value: { Self → ℤ };

    fn from_word(word: u64) -> Self
        ensures { result ≡ read word };

    // Never negative.
    fn residue(self) -> u64
        ensures { result ≡ emod (value self) modulus };
}

impl Element for u64 {
    ghost read = { λ word. word };

    ghost value = { pos };

    fn from_word(word: u64) -> u64 {
        word
    }

    #[tactic(auto, unfolding(meaning::specs::Extension::emod))]
    fn residue(self) -> u64 {
        self % MODULUS
    }
}

impl Element for i64 {
    ghost read = { cast_signed w64 };

    ghost value = { λ z. z };

    fn from_word(word: u64) -> i64 {
        word.cast_signed()
    }

    fn residue(self) -> u64 {
        self.rem_euclid(MODULUS as i64) as u64
    }
}

// The word's lowest 32 bits.
impl Element for i32 {
    ghost read = { λ word. cast_signed w32 (word % 2 ^ 32) };

    ghost value = { λ z. z };

    fn from_word(word: u64) -> i32 {
        ((word % 4294967296) as u32).cast_signed()
    }

    fn residue(self) -> u64 {
        i64::from(self).residue()
    }
}

// The word's lowest 8 bits.
impl Element for u8 {
    ghost read = { λ word. word % 256 };

    ghost value = { pos };

    fn from_word(word: u64) -> u8 {
        (word % 256) as u8
    }

    fn residue(self) -> u64 {
        u64::from(self).residue()
    }
}
