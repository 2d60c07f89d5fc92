//! The layout of an encrypted file: its header and its records, the algorithms that seal them and the keys that they are sealed under.
//!
//! An [`Algorithm`] is a cipher as the file sees it. The markers here seal over the root's block of `softaes`, those of the module
//! [`unprotected`] on tables: both seal alike. No call takes memory.
#![tactic(auto)]

mod algorithm;
mod algorithm_id;
mod error;
mod header;
mod keys;
mod laws;
mod layout;
mod marker;
mod record;
pub mod unprotected;
mod version;

pub use algorithm::{Algorithm, algorithm_number, nonce_length};
pub use algorithm_id::{AlgorithmId, RafInfo};
pub use error::FormatError;
pub use header::{Header, header_tag_fits, parse_header, write_header};
pub use keys::{chunk_key, derive_key, derive_master_key};
pub use laws::{algorithm_laws, file_laws};
pub use layout::layout_len;
pub use marker::{
    Aegis128L, Aegis128X2, Aegis128X4, Aegis256, Aegis256X2, Aegis256X4, Marker, Numbered,
    marker_variants,
};
pub use record::{open_record, open_record_into, seal_record, seal_record_into};
pub use version::{Version, tag_len};
