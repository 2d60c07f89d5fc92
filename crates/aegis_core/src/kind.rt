//! What tells one cipher from another.

ghost use Rattle.std.specs.Prelude.{◌≡◌};
ghost use Rattle.aegis_core.specs.Sealing.{family_of, key_len, nonce_len};
ghost use Rattle.aegis_core.specs.declared.variant.Variant.{Variant};

use crate::lane_state::LaneState;
use crate::variant::Variant;

/// The names of a cipher's types, as their debug texts show them.
#[derive(Clone, Copy)]
pub struct Names {
    /// The cipher, for instance `Aegis128L`.
    pub cipher: &'static str,
    /// Its `Encryptor`, with the module.
    pub encryptor: &'static str,
    /// Its `Decryptor`, with the module.
    pub decryptor: &'static str,
    /// Its MAC.
    pub mac: &'static str,
}

/// What tells one cipher from another, with keys and nonces of `KEY_BYTES` bytes and lanes in `S`.
pub trait CipherKind<S: LaneState, const KEY_BYTES: usize>: Copy {
    /// The cipher.
    ghost variant: { Variant };

    /// The cipher.
    fn variant() -> Variant
        ensures { result ≡ variant };

    /// The names of its types.
    fn names() -> Names;

    /// Its lanes in their initial state.
    fn lanes(key: &[u8; KEY_BYTES], nonce: &[u8; KEY_BYTES]) -> S
        ensures family { S.family result ≡ family_of variant }
        ensures initial { S.lanes result ≡ (family_of variant).initial key.now nonce.now };

    /// Its keys have this length, in bytes.
    ghost key: { key_len variant ≡ KEY_BYTES };

    /// Its nonces have this length, in bytes.
    ghost nonce: { nonce_len variant ≡ KEY_BYTES };
}
