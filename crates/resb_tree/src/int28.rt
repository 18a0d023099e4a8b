//! Integers of 28 bits, as integer resources hold them.
//! How a descriptor carries one is not said here.
ghost use Rattle.std.specs.Prelude.{◌≡◌, ℕ, ◌-◌, ◌<◌, ◌^◌, ◌%◌};
ghost use Rattle.std.specs.Int.{cast_unsigned, w32};
ghost use Rattle.resb_tree.specs.Int28.{signed};

use std::marker::Model;

/// A number of 28 bits. It is made modulo 2^28 and can be read without or with a sign.
#[derive(Clone, Copy, Debug, PartialEq, Eq)]
pub struct Int28 {
    bits: u32,
}

impl Model for Int28 {
    ghost Value = { ℕ };

    ghost view = { λ a. a.bits };

    ghost invariant = { λ a. a.bits < 2 ^ 28 };

    ghost inverse = { λ n. record { bits = n } };
}

/// The number modulo 2^28.
impl From<u32> for Int28 {
    ghost from_gives = { λ x y. (y ≡ x % 2 ^ 28) × (y < 2 ^ 28) };

    fn from(value: u32) -> Int28 {
        Int28 {
            bits: value % 0x1000_0000,
        }
    }
}

/// The 28 bits as a number from 0.
impl From<Int28> for u32 {
    ghost from_gives = { λ x y. (y ≡ x) × (y < 2 ^ 28) };

    fn from(value: Int28) -> u32 {
        value.bits
    }
}

/// The bits of the number, modulo 2^28.
impl From<i32> for Int28 {
    ghost from_gives = { λ x y. (y ≡ cast_unsigned w32 x % 2 ^ 28) × (y < 2 ^ 28) };

    fn from(value: i32) -> Int28 {
        Int28::from(value.cast_unsigned())
    }
}

/// The 28 bits as a signed number: bit 27 is the sign.
impl From<Int28> for i32 {
    ghost from_gives = { λ x y. y ≡ signed x };

    fn from(value: Int28) -> i32 {
        let bits = value.bits as i32;
        if bits < 0x800_0000 {
            bits
        } else {
            bits - 0x1000_0000
        }
    }
}
