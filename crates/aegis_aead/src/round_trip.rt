//! What a caller knows that is generic over the traits.

ghost use Rattle.std.specs.Prelude.{◌≡◌, ◌⊎◌, ◌^◌, ◌<◌, length, IsOkAnd};
ghost use Rattle.aegis_core.specs.Sealing.{seal, key_len, nonce_len};
ghost use Rattle.aegis_core.specs.Laws.{IsSealing};

use crate::traits::{AeadCore, AeadError, AeadInOut, KeyInit, KeySizeUser};

/// The sizes of an AEAD's nonces and tags, and the laws of its sealing, for the proofs of generic callers.
/// The call does nothing.
pub fn aead_laws<A: AeadCore>()
    ensures nonce_size { A.NONCE_SIZE ≡ nonce_len A.variant }
    ensures tag_size { (A.TAG_SIZE ≡ 16) ⊎ (A.TAG_SIZE ≡ 32) }
    ensures sealing { IsSealing A.variant A.TAG_SIZE }
{}

/// Encrypts `message` into `sealed` and, as a check, decrypts that into `opened`. The answer is the tag; it
/// is never refused, and `opened` holds the message again. The three have one length; associated data and
/// message have at most 2^61 - 1 bytes.
pub fn encrypt_checked<A: AeadInOut>(
    aead: &A,
    nonce: &A::Nonce,
    associated_data: &[u8],
    message: &[u8],
    sealed: &mut [u8],
    opened: &mut [u8],
) -> Result<A::Tag, AeadError>
    requires sealed_len { length message.now ≡ length sealed.old }
    requires opened_len { length message.now ≡ length opened.old }
    requires ad_len { length associated_data.now < 2 ^ 61 }
    requires message_len { length message.now < 2 ^ 61 }
    ensures sealed { IsOkAnd result (λ tag. seal A.variant A.TAG_SIZE (A.held aead.now) (A.nonce_bytes nonce.now) associated_data.now message.now ≡ (sealed.new, A.tag_bytes tag)) }
    ensures opened { opened.new ≡ message.now }
{
    let tag = aead.encrypt_inout_detached(nonce, associated_data, message, sealed)?;
    aead.decrypt_inout_detached(nonce, associated_data, sealed, opened, &tag)?;
    Ok(tag)
}

/// `encrypt_checked` under a key, with the same conditions. The answer is never refused.
pub fn encrypt_checked_under<A: KeyInit + AeadInOut + Drop>(
    key: &A::Key,
    nonce: &A::Nonce,
    associated_data: &[u8],
    message: &[u8],
    sealed: &mut [u8],
    opened: &mut [u8],
) -> Result<A::Tag, AeadError>
    requires sealed_len { length message.now ≡ length sealed.old }
    requires opened_len { length message.now ≡ length opened.old }
    requires ad_len { length associated_data.now < 2 ^ 61 }
    requires message_len { length message.now < 2 ^ 61 }
    ensures sealed { IsOkAnd result (λ tag. seal A.variant A.TAG_SIZE (A.key_bytes key.now) (A.nonce_bytes nonce.now) associated_data.now message.now ≡ (sealed.new, A.tag_bytes tag)) }
    ensures opened { opened.new ≡ message.now }
{
    encrypt_checked(
        &A::new(key),
        nonce,
        associated_data,
        message,
        sealed,
        opened,
    )
}
