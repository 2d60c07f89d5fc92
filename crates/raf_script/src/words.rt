//! A text cut at a byte, and a line cut into its words.
ghost use Rattle.std.specs.Prelude.{◌≡◌, ◌∷◌, [], ◌<◌, length, IfSome, MatchOption};
ghost use Rattle.raf_script.specs.Words.{parts, words};
ghost use Rattle.raf_script.specs.Reading.{AreWords};

/// The words of a line, up to three. No line of a script has more.
#[derive(Clone, Copy)]
pub enum LineWords<'a> {
    /// One word, the whole line.
    One(&'a [u8]),
    /// Two words.
    Two(&'a [u8], &'a [u8]),
    /// Three words.
    Three(&'a [u8], &'a [u8], &'a [u8]),
    /// Four words or more.
    More,
}

/// What stands before the first such byte, and what stands after it.
pub fn cut_at(text: &[u8], byte: u8) -> Option<(&[u8], &[u8])>
    ensures parts { MatchOption result (parts byte text.now ≡ text.now ∷ [])
        (λ cut. parts byte text.now ≡ cut.0.now ∷ parts byte cut.1.now) }
    ensures shorter { IfSome result (λ cut. length cut.1.now < length text.now) }
{
    for (i, x) in text.iter().enumerate() {
        if *x == byte {
            return Some((&text[..i], &text[i + 1..]));
        }
    }
    None
}

/// The words of a line, with one space between two.
#[tactic(auto, unfolding(crate::specs::Words::words))]
pub fn words_of(line: &[u8]) -> LineWords<'_>
    ensures { AreWords result (words line.now) }
{
    let Some((first, rest)) = cut_at(line, b' ') else {
        return LineWords::One(line);
    };
    let Some((second, rest)) = cut_at(rest, b' ') else {
        return LineWords::Two(first, rest);
    };
    match cut_at(rest, b' ') {
        None => LineWords::Three(first, second, rest),
        Some(_) => LineWords::More,
    }
}
