//! Tests of encrypted files that no line of data can state: a storage of the caller's own, files of the host, std's traits, printed texts.
//! They stand in a crate of their own, since a crate with tests is proved twice.
#![tactic(auto)]

#[cfg(test)]
mod carrier;
#[cfg(test)]
mod denying;
#[cfg(test)]
mod files;
#[cfg(test)]
mod given;
#[cfg(test)]
mod scripts;
#[cfg(test)]
mod standard;
#[cfg(test)]
mod texts;
#[cfg(test)]
mod trees;
