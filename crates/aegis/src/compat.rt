//! The ciphers behind the traits of other crates.

pub use aegis_aead as rustcrypto_traits_06;
