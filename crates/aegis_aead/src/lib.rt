//! The AEAD traits, restated over plain arrays and slices, and an adapter for each cipher.
#![tactic(auto)]

mod adapter;
mod round_trip;
mod traits;

pub use adapter::{
    Adapter, Aegis128L, Aegis128X2, Aegis128X4, Aegis256, Aegis256X2, Aegis256X4, adapter_variants,
};
pub use round_trip::{aead_laws, encrypt_checked, encrypt_checked_under};
pub use traits::{AeadCore, AeadError, AeadInOut, KeyInit, KeySizeUser, TagPosition};
