//! The words of the key schedules (FIPS 197, section 5.2), over the S-box of either path.

ghost use Rattle.std.specs.Prelude.{◌≡◌, ℕ, ◌+◌, ◌*◌, ◌/◌, ◌<◌, ◌≤◌, length, map};
ghost use Rattle.std.specs.Int.{to_le_bytes, w32};
ghost use Rattle.aes_spec.specs.KeySchedule.{all_words, changed, next_word, round_key, rot_word, sub_word};

/// The round constants 1 to 10: the powers of x in the field.
const ROUND_CONSTANTS: [u8; 10] = [0x01, 0x02, 0x04, 0x08, 0x10, 0x20, 0x40, 0x80, 0x1b, 0x36];

/// A path's SubWord.
pub(crate) trait SubWord {
    /// The S-box at each byte of a word.
    fn sub_word(word: u32) -> u32
        ensures { to_le_bytes w32 result ≡ sub_word (to_le_bytes w32 word) };
}

/// Writes all words of the schedule of a key of 4, 6 or 8 words.
pub(crate) fn expand_words<P: SubWord>(key: &[u8], words: &mut [u32])
    requires least { 16 ≤ length key.now }
    requires room { length words.old ≡ 4 * (length key.now / 4) + 28 }
    ensures { map (to_le_bytes w32) words.new ≡ all_words (length key.now / 4) key.now }
{
    let own = key.len() / 4;
    'own: for i in 0..own {
        words[i] = word_of(&key[4 * i..4 * i + 4]);
    }
    'rest: for i in own..words.len() {
        words[i] = next_word::<P>(&words[..i], own);
    }
}

/// The bytes of round key j of the words of a schedule.
pub(crate) fn round_key(words: &[u32], j: usize) -> [u8; 16]
    requires { 4 * j + 4 ≤ length words.now }
    ensures { result ≡ round_key (map (to_le_bytes w32) words.now) j }
{
    let [a0, a1, a2, a3] = words[4 * j].to_le_bytes();
    let [b0, b1, b2, b3] = words[4 * j + 1].to_le_bytes();
    let [c0, c1, c2, c3] = words[4 * j + 2].to_le_bytes();
    let [d0, d1, d2, d3] = words[4 * j + 3].to_le_bytes();
    [
        a0, a1, a2, a3, b0, b1, b2, b3, c0, c1, c2, c3, d0, d1, d2, d3,
    ]
}

/// The word of four bytes.
fn word_of(bytes: &[u8]) -> u32
    requires { length bytes.now ≡ 4 }
    ensures { to_le_bytes w32 result ≡ bytes.now }
{
    let mut word = [0; 4];
    word.copy_from_slice(bytes);
    u32::from_le_bytes(word)
}

/// The word that follows those of the schedule so far, for a key of `own` words.
fn next_word<P: SubWord>(words: &[u32], own: usize) -> u32
    requires least { 4 ≤ own }
    requires some { own ≤ length words.now }
    requires few { length words.now < 11 * own }
    ensures { to_le_bytes w32 result ≡ next_word own (map (to_le_bytes w32) words.now) }
{
    let i = words.len();
    words[i - own] ^ changed::<P>(own, i, words[i - 1])
}

/// What word i is more than the word `own` places before it, where `word` is the word before it.
fn changed<P: SubWord>(own: usize, i: usize, word: u32) -> u32
    requires least { 4 ≤ own }
    requires some { own ≤ i }
    requires few { i < 11 * own }
    ensures { to_le_bytes w32 result ≡ changed own i (to_le_bytes w32 word) }
{
    if i % own == 0 {
        return P::sub_word(rot_word(word)) ^ ROUND_CONSTANTS[i / own - 1] as u32;
    }
    if own > 6 && i % own == 4 {
        return P::sub_word(word);
    }
    word
}

/// RotWord: the first byte moves to the end.
fn rot_word(word: u32) -> u32
    ensures { to_le_bytes w32 result ≡ rot_word (to_le_bytes w32 word) }
{
    let [a, b, c, d] = word.to_le_bytes();
    u32::from_le_bytes([b, c, d, a])
}
