//! AEGIS-256X4, four lanes (AEGIS specification, "Parallel Modes").
//!
//! The calls and their contracts stand at `Cipher`, `Encryptor`, `Decryptor` and `Mac` of `aegis_core`.

ghost use Rattle.std.specs.Prelude.{refl};
ghost use Rattle.aegis_core.specs.declared.variant.Variant.TheVariants.{Aegis256X4};

pub use aegis_core::Error;
use aegis_core::{Cipher, CipherKind, Mac, Names, SoftLanes256, Variant};

/// A key of 32 bytes.
pub type Key = [u8; 32];

/// A nonce of 32 bytes, for one message under a key.
pub type Nonce = [u8; 32];

/// A tag of 16 or 32 bytes.
pub type Tag<const TAG_BYTES: usize> = [u8; TAG_BYTES];

/// The cipher under a key and a nonce.
pub type Aegis256X4<const TAG_BYTES: usize> = Cipher<Kind, SoftLanes256, 32, TAG_BYTES>;

/// A message that is encrypted piece by piece.
pub type Encryptor<const TAG_BYTES: usize> = aegis_core::Encryptor<
    Kind,
    SoftLanes256,
    32,
    TAG_BYTES,
>;

/// A cipher text that is decrypted piece by piece into a lent destination.
pub type Decryptor<'a, const TAG_BYTES: usize> = aegis_core::Decryptor<
    'a,
    Kind,
    SoftLanes256,
    32,
    TAG_BYTES,
>;

/// The MAC of a text that comes in pieces, whose values are this project's own.
pub type Aegis256X4Mac<const TAG_BYTES: usize> = Mac<Kind, SoftLanes256, 32, TAG_BYTES>;

/// What tells Aegis256X4 from the other ciphers.
#[derive(Clone, Copy)]
pub struct Kind;

impl CipherKind<SoftLanes256, 32> for Kind {
    ghost variant = { Aegis256X4 };

    ghost key = { refl };

    ghost nonce = { refl };

    fn variant() -> Variant {
        Variant::Aegis256X4
    }

    fn names() -> Names {
        Names {
            cipher: "Aegis256X4",
            encryptor: "aegis256x4::Encryptor",
            decryptor: "aegis256x4::Decryptor",
            mac: "Aegis256X4Mac",
        }
    }

    fn lanes(key: &Key, nonce: &Nonce) -> SoftLanes256 {
        SoftLanes256::new(4, key, nonce)
    }
}
