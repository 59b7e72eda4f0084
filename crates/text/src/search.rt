// The first byte of a text that is sought.
ghost use Rattle.std.specs.Prelude.{◌≡◌, ◌≤◌, Bool, ℕ, length};
ghost use Rattle.text.specs.Search.{Computes, before, from, after};
ghost use Rattle.text.specs.Search as meaning;

// The place of the first byte that is sought, or the length of the text: no Option, since what stands before it and from it on are parts of the text in each case.
pub fn find<F: Fn(u8) -> bool>(text: &[u8], sought: F) -> usize
    requires { F.IsAlwaysCallable sought }
    ensures within { result ≤ length text.now }
    ensures first { (test : ℕ → Bool) → Computes (F.post sought) test → result ≡ length (before test text.now) }
{
    text.iter()
        .position(|byte| sought(*byte))
        .unwrap_or(text.len())
}

// A text up to the first byte that is sought.
pub fn before<F: Fn(u8) -> bool>(text: &[u8], sought: F) -> &[u8]
    requires { F.IsAlwaysCallable sought }
    ensures { (test : ℕ → Bool) → Computes (F.post sought) test → result.now ≡ before test text.now }
{
    &text[..find(text, sought)]
}

// A text from the first byte on that is sought.
pub fn from<F: Fn(u8) -> bool>(text: &[u8], sought: F) -> &[u8]
    requires { F.IsAlwaysCallable sought }
    ensures { (test : ℕ → Bool) → Computes (F.post sought) test → result.now ≡ from test text.now }
{
    &text[find(text, sought)..]
}

// What is left of a text after the first byte that is sought; empty where there is none.
pub fn after<F: Fn(u8) -> bool>(text: &[u8], sought: F) -> &[u8]
    requires { F.IsAlwaysCallable sought }
    ensures { (test : ℕ → Bool) → Computes (F.post sought) test → result.now ≡ after test text.now }
{
    let end = from(text, sought);
    if end.is_empty() { end } else { &end[1..] }
}

// A comma, a semicolon or a tab.
pub fn is_separator(byte: u8) -> bool
    ensures { result ≡ meaning.is_separator byte }
{
    matches!(byte, b',' | b';' | b'\t')
}

// Whether words are parted here: by spaces, double quotes and this separator.
pub fn parts_words(byte: u8, separator: u8) -> bool
    ensures { result ≡ meaning.parts_words separator byte }
{
    (byte == b' ') | (byte == b'"') | (byte == separator)
}

// Whether a byte is neither a space nor this separator: it belongs to a cell that is not blank.
pub fn is_content(byte: u8, separator: u8) -> bool
    ensures { result ≡ meaning.is_content separator byte }
{
    (byte != b' ') & (byte != separator)
}
