//! Code that is generic over the AEAD traits.
ghost use Rattle.std.specs.Prelude.{◌≡◌, ◌^◌, ◌<◌, length, IsOkAnd, []};
ghost use Rattle.aegis_core.specs.Sealing.{seal};

use aegis::compat::rustcrypto_traits_06::{AeadError, AeadInOut, KeyInit};

pub fn seal_note<A: KeyInit + AeadInOut + Drop>(
    key: &A::Key,
    nonce: &A::Nonce,
    note: &[u8],
    sealed: &mut [u8],
) -> Result<A::Tag, AeadError>
    requires same_len { length note.now ≡ length sealed.old }
    requires short { length note.now < 2 ^ 61 }
    ensures { IsOkAnd result (λ tag. seal A.variant A.TAG_SIZE (A.key_bytes key.now) (A.nonce_bytes nonce.now) [] note.now
        ≡ (sealed.new, A.tag_bytes tag)) }
{
    A::new(key).encrypt_inout_detached(nonce, b"", note, sealed)
}
