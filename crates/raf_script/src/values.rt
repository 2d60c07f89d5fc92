//! Numbers and hex text, a word each.
ghost use Rattle.std.specs.Prelude.{◌≡◌, ◌↔◌, IsTrue, Ok};
ghost use Rattle.raf_script.specs.Words.{number, hex_bytes, IsPlain};
ghost use Rattle.raf_script.specs.Lines.{Gives, fits};

use crate::script::ScriptError;
use raf::Data;
use std::alloc::Global;
use std::str;

// A sign or a leading zero spells no number here, which std's `parse` would take.
fn is_plain(word: &[u8]) -> bool
    ensures { IsTrue result ↔ IsPlain word.now }
{
    match word.first() {
        None => false,
        Some(b'+') => false,
        Some(b'0') => word.len() == 1,
        Some(_) => true,
    }
}

/// The number that a word spells in decimal digits, without a leading zero.
pub fn number_of(word: &[u8]) -> Option<u64>
    ensures { result ≡ number 64 word.now }
{
    if !is_plain(word) {
        return None;
    }
    match str::from_utf8(word) {
        Ok(text) => text.parse::<u64>().ok(),
        Err(_) => None,
    }
}

/// The number that a word of this line spells.
pub fn number_at(line: u64, word: &[u8]) -> Result<u64, ScriptError>
    ensures { Gives (λ n. n) result (fits line (number 64 word.now)) }
{
    match number_of(word) {
        Some(number) => Ok(number),
        None => Err(ScriptError::Line(line)),
    }
}

fn small_of(word: &[u8]) -> Option<u32>
    ensures { result ≡ number 32 word.now }
{
    if !is_plain(word) {
        return None;
    }
    match str::from_utf8(word) {
        Ok(text) => text.parse::<u32>().ok(),
        Err(_) => None,
    }
}

/// The number below 2^32 that a word of this line spells.
pub fn small_at(line: u64, word: &[u8]) -> Result<u32, ScriptError>
    ensures { Gives (λ n. n) result (fits line (number 32 word.now)) }
{
    match small_of(word) {
        Some(number) => Ok(number),
        None => Err(ScriptError::Line(line)),
    }
}

/// The bytes that a word of this line spells in hex, `-` for none.
#[tactic(auto, unfolding(crate::specs::Words::hex_bytes))]
pub fn bytes_at(alloc: Global, line: u64, word: &[u8]) -> Result<Data, ScriptError>
    ensures { Gives (λ bytes. bytes) result (fits line (hex_bytes word.now)) }
{
    if word == b"-".as_slice() {
        return Ok(Data::from_vec(Vec::new(alloc)));
    }
    match hex::decode(alloc, word) {
        Ok(bytes) if !bytes.is_empty() => Ok(Data::from_vec(bytes)),
        Err(hex::FromHexError::OutOfMemory) => Err(ScriptError::OutOfMemory),
        _ => Err(ScriptError::Line(line)),
    }
}
