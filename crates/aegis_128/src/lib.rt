//! The ciphers of the AEGIS-128 family: keys and nonces of 16 bytes.
#![tactic(auto)]

pub mod aegis128l;
pub mod aegis128x2;
pub mod aegis128x4;

pub use aegis_core::Error;
