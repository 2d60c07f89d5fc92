//! The lines: what each asks, and of which cipher.

ghost use Rattle.std.specs.Prelude.{◌≡◌, ◌⊎◌};

use crate::opening::{Opened, lend, open};
use crate::ways::Ways;
use crate::words::{Fault, array_of, data, lengths, number};
use crate::{aes, macs, sealing, streams};
use aegis_128::{aegis128l, aegis128x2, aegis128x4};
use aegis_256::{aegis256, aegis256x2, aegis256x4};
use aegis_core::{CipherKind, Decryptor, Encryptor, LaneState, Mac, SoftLanes128, SoftLanes256};
use std::alloc::Global;

// What is asked of a cipher.
#[derive(Clone, Copy, PartialEq, Eq)]
enum Asked {
    Seal,
    Open,
    Tag,
    Verify,
    Add,
    Lend,
}

// A question to a cipher. The text is the message, cipher text or text that it is about.
#[derive(Drop)]
struct Question {
    asked: Asked,
    key: Vec<u8>,
    nonce: Vec<u8>,
    ad: Vec<u8>,
    text: Vec<u8>,
    tag: Vec<u8>,
    room: usize,
    lengths: Vec<usize>,
}

// The question of a line, without the words for the cipher and the length of its tags.
fn question_of(alloc: Global, asked: Asked, words: &[&str]) -> Result<Question, Fault> {
    let (ad, text, tag, room, pieces) = match (asked, words) {
        (Asked::Seal, [_, _, ad, text, pieces @ ..]) => (*ad, *text, "-", "0", pieces),
        (Asked::Open, [_, _, ad, text, tag, pieces @ ..]) => (*ad, *text, *tag, "0", pieces),
        (Asked::Tag, [_, _, text, pieces @ ..]) => ("-", *text, "-", "0", pieces),
        (Asked::Verify, [_, _, text, tag, pieces @ ..]) => ("-", *text, *tag, "0", pieces),
        (Asked::Add, [_, _, text, pieces @ ..]) => ("-", *text, "-", "0", pieces),
        (Asked::Lend, [_, _, ad, text, room, pieces @ ..]) => (*ad, *text, "-", *room, pieces),
        _ => return Err(Fault::Line),
    };
    let [key, nonce, ..] = words else {
        return Err(Fault::Line);
    };
    Ok(Question {
        asked,
        key: data(alloc, key)?,
        nonce: data(alloc, nonce)?,
        ad: data(alloc, ad)?,
        text: data(alloc, text)?,
        tag: data(alloc, tag)?,
        room: number(room)? as usize,
        lengths: lengths(alloc, pieces)?,
    })
}

// What a line's first word asks.
fn asked_of(word: &str) -> Result<Asked, Fault> {
    match word {
        "seal" => Ok(Asked::Seal),
        "open" => Ok(Asked::Open),
        "mac" => Ok(Asked::Tag),
        "verify" => Ok(Asked::Verify),
        "add" => Ok(Asked::Add),
        "lend" => Ok(Asked::Lend),
        _ => Err(Fault::Line),
    }
}

// Asks a cipher whose keys and nonces are so long. With the types of its pieces in its signature, of which none is
// handed in, the function knows that they fit in memory.
fn ask<K: CipherKind<S, KEY_BYTES>, S: LaneState, const KEY_BYTES: usize, const TAG_BYTES: usize>(
    alloc: Global,
    question: &Question,
    line: &mut String,
    _encryptor: Option<Encryptor<K, S, KEY_BYTES, TAG_BYTES>>,
    _decryptor: Option<Decryptor<'_, K, S, KEY_BYTES, TAG_BYTES>>,
    _mac: Option<Mac<K, S, KEY_BYTES, TAG_BYTES>>,
) -> Result<(), Fault>
    requires { (TAG_BYTES ≡ 16) ⊎ (TAG_BYTES ≡ 32) }
{
    let Question {
        asked,
        key,
        nonce,
        ad,
        text,
        tag,
        room,
        lengths,
    } = question;
    let (key, nonce) = (array_of::<KEY_BYTES>(key)?, array_of::<KEY_BYTES>(nonce)?);
    let mut ways = Ways::new(alloc);
    match asked {
        Asked::Seal => {
            sealing::seal::<K, S, KEY_BYTES, TAG_BYTES>(
                alloc, &key, &nonce, ad, text, lengths, &mut ways, None,
            )?;
        }
        Asked::Open => {
            let tag = array_of::<TAG_BYTES>(tag)?;
            let mut opened = Opened::new(alloc);
            open::<K, S, KEY_BYTES, TAG_BYTES>(
                alloc,
                &key,
                &nonce,
                ad,
                text,
                &tag,
                lengths,
                &mut opened,
                None,
            )?;
            opened.write(line)?;
        }
        Asked::Tag => {
            let mac = Mac::<K, S, KEY_BYTES, TAG_BYTES>::new_with_nonce(&key, &nonce);
            macs::tag(mac, text, lengths, &mut ways)?;
        }
        Asked::Verify => {
            let mac = Mac::<K, S, KEY_BYTES, TAG_BYTES>::new_with_nonce(&key, &nonce);
            macs::verify(mac, text, &array_of(tag)?, lengths, &mut ways)?;
        }
        Asked::Add => {
            sealing::add::<K, S, KEY_BYTES, TAG_BYTES>(alloc, &key, &nonce, text, &mut ways, None)?;
        }
        Asked::Lend => {
            let len = *lengths.first().ok_or(Fault::Line)?;
            lend::<K, S, KEY_BYTES, TAG_BYTES>(
                alloc, &key, &nonce, ad, text, *room, len, line, None,
            )?;
        }
    }
    ways.write(line)
}

// Asks one of the six ciphers, with tags of this length.
fn ask_named<const TAG_BYTES: usize>(
    alloc: Global,
    name: &str,
    question: &Question,
    line: &mut String,
) -> Result<(), Fault>
    requires { (TAG_BYTES ≡ 16) ⊎ (TAG_BYTES ≡ 32) }
{
    match name {
        "aegis128l" => ask::<aegis128l::Kind, SoftLanes128, 16, TAG_BYTES>(
            alloc, question, line, None, None, None,
        ),
        "aegis128x2" => ask::<aegis128x2::Kind, SoftLanes128, 16, TAG_BYTES>(
            alloc, question, line, None, None, None,
        ),
        "aegis128x4" => ask::<aegis128x4::Kind, SoftLanes128, 16, TAG_BYTES>(
            alloc, question, line, None, None, None,
        ),
        "aegis256" => ask::<aegis256::Kind, SoftLanes256, 32, TAG_BYTES>(
            alloc, question, line, None, None, None,
        ),
        "aegis256x2" => ask::<aegis256x2::Kind, SoftLanes256, 32, TAG_BYTES>(
            alloc, question, line, None, None, None,
        ),
        "aegis256x4" => ask::<aegis256x4::Kind, SoftLanes256, 32, TAG_BYTES>(
            alloc, question, line, None, None, None,
        ),
        _ => Err(Fault::Line),
    }
}

// The answer to a line about a cipher.
fn ask_line(alloc: Global, words: &[&str], line: &mut String) -> Result<(), Fault> {
    let [word, name, tag_bytes, rest @ ..] = words else {
        return Err(Fault::Line);
    };
    let question = question_of(alloc, asked_of(word)?, rest)?;
    match *tag_bytes {
        "16" => ask_named::<16>(alloc, name, &question, line),
        "32" => ask_named::<32>(alloc, name, &question, line),
        _ => Err(Fault::Line),
    }
}

// What a line is about.
#[derive(Clone, Copy, PartialEq, Eq)]
enum Matter {
    Nothing,
    Cipher,
    Stream,
    Rounds,
}

// What a line is about, by its first word.
fn matter_of(word: &str) -> Matter {
    match word {
        "#" => Matter::Nothing,
        "seal" | "open" | "mac" | "verify" | "add" | "lend" => Matter::Cipher,
        "spell" | "cut" | "flip" | "more" | "unspell" => Matter::Stream,
        _ => Matter::Rounds,
    }
}

/// What stays between lines: the bytes that `=` stands for.
#[derive(Drop)]
pub struct Bench {
    held: Vec<u8>,
}

impl Bench {
    /// No bytes are held.
    pub fn new(alloc: Global) -> Bench {
        Bench {
            held: Vec::new(alloc),
        }
    }

    // The held bytes become a stream.
    fn spell(
        &mut self,
        alloc: Global,
        key: &[u8],
        prefix: &[u8],
        pieces: &[&str],
    ) -> Result<(), Fault> {
        let mut messages = Vec::new(alloc);
        for piece in pieces {
            messages.push(data(alloc, piece)?)?;
        }
        self.held = streams::spell(alloc, &array_of(key)?, &array_of(prefix)?, &messages)?;
        Ok(())
    }

    // The held bytes are cut, changed in one byte, or go on.
    fn change(&mut self, alloc: Global, words: &[&str]) -> Result<(), Fault> {
        match words {
            ["cut", len] => self.held.truncate(number(len)? as usize),
            ["flip", offset, mask] => match self.held.get_mut(number(offset)? as usize) {
                Some(place) => *place ^= (number(mask)? % 256) as u8,
                None => return Err(Fault::Line),
            },
            ["more", word] => self.held.extend_from_slice(&data(alloc, word)?)?,
            _ => return Err(Fault::Line),
        }
        Ok(())
    }

    // The answer to a line about streams.
    fn stream(&mut self, alloc: Global, words: &[&str], ways: &mut Ways) -> Result<(), Fault> {
        match words {
            ["unspell", key, "=", steps @ ..] => {
                let key = array_of(&data(alloc, key)?)?;
                let steps = lengths(alloc, steps)?;
                streams::unspell(alloc, &key, &self.held, &steps, ways)
            }
            ["unspell", key, bytes, steps @ ..] => {
                let key = array_of(&data(alloc, key)?)?;
                let bytes = data(alloc, bytes)?;
                streams::unspell(alloc, &key, &bytes, &lengths(alloc, steps)?, ways)
            }
            ["spell", key, prefix, pieces @ ..] => {
                self.spell(alloc, &data(alloc, key)?, &data(alloc, prefix)?, pieces)?;
                ways.tell_bytes("spelled", &self.held)
            }
            _ => {
                self.change(alloc, words)?;
                let answer = format!(in alloc; "{} bytes", self.held.len())?;
                ways.tell("held", answer.as_str())
            }
        }
    }

    /// The answer to a line, or none where it says nothing.
    pub fn answer(&mut self, alloc: Global, line: &str) -> Result<Option<String>, Fault> {
        let words: Vec<&str> = line.split_whitespace().collect(alloc)?;
        let words = words.as_slice();
        let Some(first) = words.first() else {
            return Ok(None);
        };
        let mut answer = String::new(alloc);
        let mut ways = Ways::new(alloc);
        match matter_of(first) {
            Matter::Nothing => return Ok(None),
            Matter::Cipher => ask_line(alloc, words, &mut answer)?,
            Matter::Stream => self.stream(alloc, words, &mut ways)?,
            Matter::Rounds => aes::tell(alloc, words, &mut ways)?,
        }
        ways.write(&mut answer)?;
        Ok(Some(answer))
    }
}
