//! The ciphers of the AEGIS-256 family: keys and nonces of 32 bytes.
#![tactic(auto)]

pub mod aegis256;
pub mod aegis256x2;
pub mod aegis256x4;

pub use aegis_core::Error;
