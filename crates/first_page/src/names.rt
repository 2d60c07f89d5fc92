//! The names that code written for the Rust crate `aegis` uses, beside those of the examples: each is named here once, so that one that
//! went away would be missed.

/// The modules of the ciphers have the same seven names, but for the cipher's own.
pub mod ciphers {
    pub use aegis::aegis128l::{
        Aegis128L, Aegis128LMac, Decryptor, Encryptor, Error, Key, Nonce, Tag,
    };
    pub use aegis::aegis128x2::{Aegis128X2, Aegis128X2Mac};
    pub use aegis::aegis128x4::{Aegis128X4, Aegis128X4Mac};
    pub use aegis::aegis256::{Aegis256, Aegis256Mac};
    pub use aegis::aegis256x2::{Aegis256X2, Aegis256X2Mac};
    pub use aegis::aegis256x4::{Aegis256X4, Aegis256X4Mac};
}

/// The AEAD traits and an adapter for each cipher.
pub mod adapters {
    pub use aegis::compat::rustcrypto_traits_06::{
        AeadCore, AeadError, AeadInOut, Aegis128L, Aegis128X2, Aegis128X4, Aegis256, Aegis256X2,
        Aegis256X4, KeyInit, KeySizeUser, TagPosition,
    };
}

/// The file.
pub mod file {
    pub use aegis::raf::{
        Aegis128L, Aegis128X2, Aegis128X4, Aegis256X2, Aegis256X4, Algorithm, AlgorithmId, Error,
        ErrorKind, FakeHasher, FormatError, HashFault, Header, MerkleHasher, OpenError, Parts,
        PathError, RafCursor, RafInfo, RafIo, RafRng, Reason, Replies, SessionEnd, Version,
        derive_key, probe, unprotected, write_header,
    };
}
