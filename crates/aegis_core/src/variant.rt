//! The ciphers by name.

/// A cipher. The AEGIS-128 family has keys and nonces of 16 bytes, the AEGIS-256 family of 32.
#[derive(Clone, Copy, Debug, PartialEq, Eq)]
pub enum Variant {
    /// AEGIS-128L: one lane.
    Aegis128L,
    /// AEGIS-128X2: two lanes.
    Aegis128X2,
    /// AEGIS-128X4: four lanes.
    Aegis128X4,
    /// AEGIS-256: one lane.
    Aegis256,
    /// AEGIS-256X2: two lanes.
    Aegis256X2,
    /// AEGIS-256X4: four lanes.
    Aegis256X4,
}
