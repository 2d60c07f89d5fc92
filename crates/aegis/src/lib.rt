//! The AEGIS ciphers and an encrypted random-access file, under the names of the Rust crate `aegis`.
//!
//! A message in one call. What takes memory takes the allocator, and may answer `Error::OutOfMemory`:
//!
//! ```
//! use aegis::aegis128l::Aegis128L;
//!
//! let cipher = Aegis128L::<16>::new(&key, &nonce);
//! let (ciphertext, tag) = cipher.encrypt(alloc, b"hello", b"metadata")?;
//! let plaintext = cipher.decrypt(alloc, &ciphertext, &tag, b"metadata")?;
//! ```
//!
//! In pieces, in place and into a lent destination, without taking memory. The plain text comes out of
//! `finalize` alone, where the tag fits:
//!
//! ```
//! use aegis::aegis256::Aegis256;
//!
//! let cipher = Aegis256::<32>::new(&key, &nonce);
//! let mut encryptor = cipher.encryptor(b"metadata");
//! encryptor.update_in_place(&mut hello);
//! encryptor.update_in_place(&mut world);
//! let tag = encryptor.finalize();
//!
//! let mut decryptor = cipher.decryptor(b"metadata", &mut plaintext);
//! decryptor.update(&hello)?;
//! decryptor.update(&world)?;
//! let message = decryptor.finalize(&tag)?;
//! ```
//!
//! As a stream, without a tag:
//!
//! ```
//! use aegis::aegis256x2::Aegis256X2;
//!
//! let cipher = Aegis256X2::<16>::new(&key, &nonce);
//! cipher.stream(&mut keystream);
//! cipher.stream_xor_in_place(&mut message);
//! ```
//!
//! A nonce is for one message under a key. The module `raf` has the file, and `compat` the adapters for
//! code that is generic over AEAD traits.
#![tactic(auto)]

pub mod compat;

pub use aegis_128::{aegis128l, aegis128x2, aegis128x4};
pub use aegis_256::{aegis256, aegis256x2, aegis256x4};
pub use aegis_core::{Error, Variant};
pub use raf;
