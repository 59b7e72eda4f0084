// The words of a line.
ghost use Rattle.std.specs.Prelude.{◌≡◌};
ghost use Rattle.line_parts.specs.Words as meaning;

use crate::cells::Text;
use text::search::{before, from, parts_words};

impl<'a> Text<'a> {
    // A word, counted from 0; empty where there are fewer. Spaces, double quotes and separators part words.
    pub fn word(self, number: usize) -> &'a [u8]
        ensures { result.now ≡ meaning.word self.entry.separator number self.entry.bytes.now }
    {
        let parts = |byte| parts_words(byte, self.separator);
        let in_word = |byte| !parts_words(byte, self.separator);
        let mut rest = self.bytes;
        for _ in 0..number {
            rest = from(from(rest, in_word), parts);
        }
        before(from(rest, in_word), parts)
    }
}

// Whether a word is this name, which is in small letters.
// One chain of the library, under a contract in the words of FORMAT.md.
pub fn is_word(word: &[u8], name: &[u8]) -> bool
    ensures { result ≡ meaning.is_word word.now name.now }
{
    (word.len() == name.len())
        & word
            .iter()
            .zip(name)
            .all(|(byte, letter)| byte.to_ascii_lowercase() == *letter)
}
