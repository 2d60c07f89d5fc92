//! The words that the program is started with.
ghost use Rattle.std.specs.Prelude.{◌≡◌, ◌∷◌, [], List, ℕ, map, string_bytes};
ghost use Rattle.raf_script.specs.Words.{number};
ghost use Rattle.raf_run.specs.Words as spec;
ghost use Rattle.raf_run.specs.Words.{form_of, bytes_of, seal_of};

use raf_script::number_of;
use std::marker::Model;

/// A demo has at most this many writes.
const MOST: u64 = 1000;

/// What the program is asked for.
#[derive(Clone, Copy, Debug, PartialEq, Eq)]
pub enum Form {
    /// `script`: a script is read, and run in memory.
    Script,
    /// `convert`: an old file is read, and moved into a new one in memory.
    Convert,
    /// `log`: commands of a log are read, and run in memory.
    Log,
    /// `seal <key> <prefix>`: the bytes of the source are sealed as one stream.
    Seal {
        /// The key.
        key: [u8; 16],
        /// The first bytes of the stream.
        prefix: [u8; 8],
    },
    /// `unseal <key>`: the stream that the source holds is opened under this key.
    Unseal([u8; 16]),
    /// `demo <n>`: the commands of the demo with so many writes.
    Demo(u64),
    /// `file <path>`: a script is read, and run over a disk.
    File,
}

/// The words after the program's name.
#[derive(Drop)]
pub struct Words {
    words: Vec<String>,
}

impl Model for Words {
    ghost Value = { List (List ℕ) };

    ghost view = { λ w. map string_bytes w.words.items };
}

// The demo of the number that a word spells.
fn demo_of(word: &[u8]) -> Option<Form>
    ensures { result ≡ spec.demo_of (number 64 word.now) }
{
    match number_of(word) {
        Some(n) if n <= MOST => Some(Form::Demo(n)),
        _ => None,
    }
}

// The key that a word spells in hex digits.
fn key_of(word: &[u8]) -> Option<[u8; 16]>
    ensures { result ≡ bytes_of 16 word.now }
{
    let mut key = [0; 16];
    match hex::decode_to_slice(word, &mut key) {
        Ok(()) => Some(key),
        Err(_) => None,
    }
}

// The first bytes of a stream that a word spells in hex digits.
fn prefix_of(word: &[u8]) -> Option<[u8; 8]>
    ensures { result ≡ bytes_of 8 word.now }
{
    let mut prefix = [0; 8];
    match hex::decode_to_slice(word, &mut prefix) {
        Ok(()) => Some(prefix),
        Err(_) => None,
    }
}

// The stream of a key and a prefix.
fn stream_of(key: &[u8], prefix: &[u8]) -> Option<Form>
    ensures { result ≡ seal_of (bytes_of 16 key.now) (bytes_of 8 prefix.now) }
{
    match (key_of(key), prefix_of(prefix)) {
        (Some(key), Some(prefix)) => Some(Form::Seal { key, prefix }),
        _ => None,
    }
}

// The form of two words.
fn pair_of(word: &[u8], argument: &[u8]) -> Option<Form>
    ensures { result ≡ form_of (word.now ∷ argument.now ∷ []) }
{
    if word == b"unseal".as_slice() {
        match key_of(argument) {
            Some(key) => Some(Form::Unseal(key)),
            None => None,
        }
    } else if word == b"demo".as_slice() {
        demo_of(argument)
    } else if word == b"file".as_slice() {
        Some(Form::File)
    } else {
        None
    }
}

impl Words {
    /// These words.
    pub fn new(words: Vec<String>) -> Words
        ensures { result ≡ map string_bytes words.items }
    {
        Words { words }
    }

    /// What they ask for, or None where they are no form of the program.
    pub fn form(&self) -> Option<Form>
        ensures { result ≡ form_of self.now }
    {
        match self.words.as_slice() {
            [word] if word.as_str() == "script" => Some(Form::Script),
            [word] if word.as_str() == "convert" => Some(Form::Convert),
            [word] if word.as_str() == "log" => Some(Form::Log),
            [word, key, prefix] if word.as_str() == "seal" => stream_of(
                key.as_bytes(),
                prefix.as_bytes(),
            ),
            [word, argument] => pair_of(word.as_bytes(), argument.as_bytes()),
            _ => None,
        }
    }

    /// The path of a disk, where they ask for one.
    pub fn path(&self) -> Option<&str> {
        match self.words.as_slice() {
            [word, path] if word.as_str() == "file" => Some(path.as_str()),
            _ => None,
        }
    }
}
