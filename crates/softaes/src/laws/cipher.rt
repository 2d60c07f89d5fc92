//! The whole cipher on one block, by the key schedules and rounds on gates, and the law that deciphering
//! gives a block back that was enciphered under the same key.

ghost use Rattle.std.specs.Prelude.{◌≡◌, ℕ, List, ◌<◌, ◌≤◌, length, slice_index};
ghost use Rattle.aes_spec.specs.Cipher.{cipher, decipher, with_rounds};
ghost use Rattle.aes_spec.specs.Rounds.{R, RL, IR, IRL};

use crate::key_schedule::{
    inverse_key_schedule_128, inverse_key_schedule_192, inverse_key_schedule_256,
    key_expansion_128, key_expansion_192, key_expansion_256,
};
use crate::{Block, SoftAes};

/// The cipher text of a block under a key of 16 bytes (FIPS 197, section 5.1).
pub fn ciphered_128(key: &[u8; 16], block: &[u8; 16]) -> [u8; 16]
    ensures { result ≡ cipher key.now block.now }
{
    encrypted(&key_expansion_128(key), &Block::from_bytes(block)).to_bytes()
}

/// The cipher text of a block under a key of 24 bytes (FIPS 197, section 5.1).
pub fn ciphered_192(key: &[u8; 24], block: &[u8; 16]) -> [u8; 16]
    ensures { result ≡ cipher key.now block.now }
{
    encrypted(&key_expansion_192(key), &Block::from_bytes(block)).to_bytes()
}

/// The cipher text of a block under a key of 32 bytes (FIPS 197, section 5.1).
pub fn ciphered_256(key: &[u8; 32], block: &[u8; 16]) -> [u8; 16]
    ensures { result ≡ cipher key.now block.now }
{
    encrypted(&key_expansion_256(key), &Block::from_bytes(block)).to_bytes()
}

/// The block of a cipher text under a key of 16 bytes, by the equivalent inverse cipher (FIPS 197, section
/// 5.3.5). Of a block that was enciphered under this key it is that block.
pub fn deciphered_128(key: &[u8; 16], block: &[u8; 16]) -> [u8; 16]
    ensures value { result ≡ decipher key.now block.now }
    ensures back { (m : List ℕ) → length m ≡ 16 → ((i : ℕ) → slice_index m i < 256)
        → block.now ≡ cipher key.now m → result ≡ m }
{
    let keys = inverse_key_schedule_128(&key_expansion_128(key));
    decrypted(&keys, &Block::from_bytes(block)).to_bytes()
}

/// The block of a cipher text under a key of 24 bytes, by the equivalent inverse cipher (FIPS 197, section
/// 5.3.5). Of a block that was enciphered under this key it is that block.
pub fn deciphered_192(key: &[u8; 24], block: &[u8; 16]) -> [u8; 16]
    ensures value { result ≡ decipher key.now block.now }
    ensures back { (m : List ℕ) → length m ≡ 16 → ((i : ℕ) → slice_index m i < 256)
        → block.now ≡ cipher key.now m → result ≡ m }
{
    let keys = inverse_key_schedule_192(&key_expansion_192(key));
    decrypted(&keys, &Block::from_bytes(block)).to_bytes()
}

/// The block of a cipher text under a key of 32 bytes, by the equivalent inverse cipher (FIPS 197, section
/// 5.3.5). Of a block that was enciphered under this key it is that block.
pub fn deciphered_256(key: &[u8; 32], block: &[u8; 16]) -> [u8; 16]
    ensures value { result ≡ decipher key.now block.now }
    ensures back { (m : List ℕ) → length m ≡ 16 → ((i : ℕ) → slice_index m i < 256)
        → block.now ≡ cipher key.now m → result ≡ m }
{
    let keys = inverse_key_schedule_256(&key_expansion_256(key));
    decrypted(&keys, &Block::from_bytes(block)).to_bytes()
}

/// All rounds of the cipher (FIPS 197, section 5.1) under its round keys.
fn encrypted(keys: &[Block], block: &Block) -> Block
    requires { 2 ≤ length keys.now }
    ensures { result ≡ with_rounds R RL keys.now block.now }
{
    let last = keys.len() - 1;
    let mut state = block.xor(&keys[0]);
    'rounds: for j in 1..last {
        state = SoftAes::block_encrypt(&state, &keys[j]);
    }
    SoftAes::block_encrypt_last(&state, &keys[last])
}

/// All rounds of the equivalent inverse cipher (FIPS 197, section 5.3.5) under its round keys.
fn decrypted(keys: &[Block], block: &Block) -> Block
    requires { 2 ≤ length keys.now }
    ensures { result ≡ with_rounds IR IRL keys.now block.now }
{
    let last = keys.len() - 1;
    let mut state = block.xor(&keys[0]);
    'rounds: for j in 1..last {
        state = SoftAes::block_decrypt(&state, &keys[j]);
    }
    SoftAes::block_decrypt_last(&state, &keys[last])
}
