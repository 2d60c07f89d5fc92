//! The ciphers and the check of a proof of inclusion, for callers in C and in all languages that call C. `include/seyvondu.h` declares
//! each call.
#![tactic(auto)]

mod aegis128l;
mod aegis128x2;
mod aegis128x4;
mod aegis256;
mod aegis256x2;
mod aegis256x4;
mod calls;
mod lengths;
mod macs;
mod proofs;
