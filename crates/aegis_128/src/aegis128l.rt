//! AEGIS-128L, one lane (AEGIS specification, "The AEGIS-128L Algorithm").
//!
//! The calls and their contracts stand at `Cipher`, `Encryptor`, `Decryptor` and `Mac` of `aegis_core`.

ghost use Rattle.std.specs.Prelude.{refl};
ghost use Rattle.aegis_core.specs.declared.variant.Variant.TheVariants.{Aegis128L};

pub use aegis_core::Error;
use aegis_core::{Cipher, CipherKind, Mac, Names, SoftLanes128, Variant};

/// A key of 16 bytes.
pub type Key = [u8; 16];

/// A nonce of 16 bytes, for one message under a key.
pub type Nonce = [u8; 16];

/// A tag of 16 or 32 bytes.
pub type Tag<const TAG_BYTES: usize> = [u8; TAG_BYTES];

/// The cipher under a key and a nonce.
pub type Aegis128L<const TAG_BYTES: usize> = Cipher<Kind, SoftLanes128, 16, TAG_BYTES>;

/// A message that is encrypted piece by piece.
pub type Encryptor<const TAG_BYTES: usize> = aegis_core::Encryptor<
    Kind,
    SoftLanes128,
    16,
    TAG_BYTES,
>;

/// A cipher text that is decrypted piece by piece into a lent destination.
pub type Decryptor<'a, const TAG_BYTES: usize> = aegis_core::Decryptor<
    'a,
    Kind,
    SoftLanes128,
    16,
    TAG_BYTES,
>;

/// The MAC of a text that comes in pieces, by the AEGIS specification.
pub type Aegis128LMac<const TAG_BYTES: usize> = Mac<Kind, SoftLanes128, 16, TAG_BYTES>;

/// What tells Aegis128L from the other ciphers.
#[derive(Clone, Copy)]
pub struct Kind;

impl CipherKind<SoftLanes128, 16> for Kind {
    ghost variant = { Aegis128L };

    ghost key = { refl };

    ghost nonce = { refl };

    fn variant() -> Variant {
        Variant::Aegis128L
    }

    fn names() -> Names {
        Names {
            cipher: "Aegis128L",
            encryptor: "aegis128l::Encryptor",
            decryptor: "aegis128l::Decryptor",
            mac: "Aegis128LMac",
        }
    }

    fn lanes(key: &Key, nonce: &Nonce) -> SoftLanes128 {
        SoftLanes128::new(1, key, nonce)
    }
}
