//! The traits, and what their words mean.

ghost use Rattle.std.specs.Prelude.{◌≡◌, ◌⊎◌, ◌^◌, ◌<◌, ℕ, List, length, replicate, Some, None, IsOkAnd, OnOk, OnErr};
ghost use Rattle.aegis_core.specs.Sealing.{seal, Unseals, key_len, nonce_len};
ghost use Rattle.aegis_core.specs.declared.variant.Variant.{Variant};
ghost use Rattle.aegis_aead.specs.declared.traits.TagPosition.{TagPosition};

/// Where a tag stands beside its cipher text, where both are kept together.
#[derive(Clone, Copy, Debug, PartialEq, Eq)]
pub enum TagPosition {
    /// The tag first.
    Prefix,
    /// The cipher text first.
    Postfix,
}

/// No message has this cipher text and tag.
#[derive(Clone, Copy, Debug)]
pub struct AeadError;

/// A cipher that takes a key.
pub trait KeySizeUser {
    /// A key.
    type Key: Copy;

    /// How many bytes a key has, 16 or 32.
    const KEY_SIZE: usize;

    ghost KEY_SIZE: { ℕ };

    /// The AEGIS cipher that it is.
    ghost variant: { Variant };

    /// A key's bytes.
    ghost key_bytes: { Self.Key → List ℕ };

    /// The bytes of the key that a value holds.
    ghost held: { Self → List ℕ };
}

/// A cipher that is made from a key.
pub trait KeyInit: KeySizeUser {
    /// The cipher under this key.
    fn new(key: &Self::Key) -> Self
        ensures { Self.held result ≡ Self.key_bytes key.now };

    /// Its keys have the cipher's length.
    ghost key_size: { Self.KEY_SIZE ≡ key_len Self.variant };
}

/// A cipher with its nonces and tags.
pub trait AeadCore: KeySizeUser {
    /// A nonce, for one message under a key.
    type Nonce: Copy;

    /// A tag.
    type Tag: Copy;

    /// How many bytes a nonce has, as many as a key.
    const NONCE_SIZE: usize;

    /// How many bytes a tag has, 16 or 32.
    const TAG_SIZE: usize;

    /// Where a tag stands beside its cipher text.
    const TAG_POSITION: TagPosition;

    ghost NONCE_SIZE: { ℕ };

    ghost TAG_SIZE: { ℕ };

    ghost TAG_POSITION: { TagPosition };

    /// A nonce's bytes.
    ghost nonce_bytes: { Self.Nonce → List ℕ };

    /// A tag's bytes.
    ghost tag_bytes: { Self.Tag → List ℕ };

    /// Its nonces have the cipher's length.
    ghost nonce_size: { NONCE_SIZE ≡ nonce_len Self.variant };

    /// Its tags are short or long ones.
    ghost tag_size: { (TAG_SIZE ≡ 16) ⊎ (TAG_SIZE ≡ 32) };
}

/// Encryption from one slice into another, with the tag apart. Input and output have one length; associated
/// data and input have at most 2^61 - 1 bytes.
pub trait AeadInOut: AeadCore {
    /// Encrypts `input` into `output`; the answer is the tag. It is never refused.
    fn encrypt_inout_detached(
        &self,
        nonce: &Self::Nonce,
        associated_data: &[u8],
        input: &[u8],
        output: &mut [u8],
    ) -> Result<Self::Tag, AeadError>
        requires same { length input.now ≡ length output.old }
        requires ad_len { length associated_data.now < 2 ^ 61 }
        requires input_len { length input.now < 2 ^ 61 }
        ensures { IsOkAnd result (λ tag. seal Self.variant Self.TAG_SIZE (Self.held self.now) (Self.nonce_bytes nonce.now) associated_data.now input.now ≡ (output.new, Self.tag_bytes tag)) };

    /// Decrypts `input` into `output`: the answer is Ok exactly where a message has this cipher text and
    /// tag, and `output` then holds it. Else every byte of `output` is 0xaa.
    fn decrypt_inout_detached(
        &self,
        nonce: &Self::Nonce,
        associated_data: &[u8],
        input: &[u8],
        output: &mut [u8],
        tag: &Self::Tag,
    ) -> Result<(), AeadError>
        requires same { length input.now ≡ length output.old }
        requires ad_len { length associated_data.now < 2 ^ 61 }
        requires input_len { length input.now < 2 ^ 61 }
        ensures message { OnOk result (Unseals Self.variant Self.TAG_SIZE (Self.held self.now) (Self.nonce_bytes nonce.now) associated_data.now input.now (Self.tag_bytes tag.now) (Some output.new)) }
        ensures none { OnErr result (Unseals Self.variant Self.TAG_SIZE (Self.held self.now) (Self.nonce_bytes nonce.now) associated_data.now input.now (Self.tag_bytes tag.now) None) }
        ensures erased { OnErr result (output.new ≡ replicate (length input.now) 0xaa) };
}
