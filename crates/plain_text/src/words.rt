//! A line cut into words, without its comment, and which bytes it may have.

ghost use Rattle.std.specs.Prelude.{◌≡◌, ◌∷◌, ◌==◌, [], not, length, option_map, position, MatchOption};
ghost use Rattle.std.specs.Iterator.{YieldsFirstBy, item_count};
ghost use Rattle.std.specs.List.{before_first};
ghost use Rattle.plain_text.specs.Words.{is_blank as blank, is_plain as plain, line_words, words_in, word_and_rest};

/// Words that stand between spaces and tabs.
#[derive(Clone, Copy, Debug)]
pub struct Words<'a> {
    rest: &'a [u8],
}

fn is_blank(byte: u8) -> bool
    ensures { result ≡ blank byte }
{
    byte == b' ' || byte == b'\t'
}

/// Whether each byte is a tab, or printed ASCII from 0x20 to 0x7E.
pub fn is_plain(line: &[u8]) -> bool
    ensures { result ≡ plain line.now }
{
    line.iter()
        .all(|b| *b == b'\t' || (0x20 <= *b && *b <= 0x7e))
}

fn first_other(bytes: &[u8]) -> Option<usize>
    ensures { result ≡ position (λ b. not (blank b)) bytes.now }
{
    bytes.iter().position(|b| !is_blank(*b))
}

fn first_blank(bytes: &[u8]) -> Option<usize>
    ensures { result ≡ position blank bytes.now }
{
    bytes.iter().position(|b| is_blank(*b))
}

fn first_hash(bytes: &[u8]) -> Option<usize>
    ensures { result ≡ position (λ b. b == 35) bytes.now }
{
    bytes.iter().position(|b| *b == b'#')
}

impl<'a> Words<'a> {
    ghost use Rattle.plain_text.specs.Left.{words_left};

    /// The words of a line, up to a comment, which begins with `#`.
    pub fn new(line: &'a [u8]) -> Words<'a>
        ensures { words_left result ≡ line_words line.entry.now }
    {
        let end = first_hash(line).unwrap_or(line.len());
        Words { rest: &line[..end] }
    }

    /// The words of a text, where `#` is a byte like others.
    pub fn within(text: &'a [u8]) -> Words<'a>
        ensures { words_left result ≡ words_in text.entry.now }
    {
        Words { rest: text }
    }

    /// How many words are left.
    pub fn word_count(self) -> usize
        ensures { result ≡ length (words_left self.entry) }
    {
        self.count()
    }
}

/// What stands before a comment.
pub fn without_comment(line: &[u8]) -> &[u8]
    ensures { result.now ≡ before_first (λ b. b == 35) line.now }
{
    match first_hash(line) {
        Some(end) => &line[..end],
        None => line,
    }
}

/// The first word, and what stands after it. None where there is no word.
pub fn first_word(bytes: &[u8]) -> Option<(&[u8], &[u8])>
    ensures parts { option_map (λ p. (p.0.now, p.1.now)) result ≡ word_and_rest bytes.now }
    ensures words { MatchOption result (words_in bytes.now ≡ []) (λ p. words_in bytes.now
        ≡ p.0.now ∷ words_in p.1.now) }
{
    let rest = &bytes[first_other(bytes)?..];
    Some(rest.split_at(first_blank(rest).unwrap_or(rest.len())))
}

impl<'a> Iterator for Words<'a> {
    type Item = &'a [u8];

    ghost use Rattle.plain_text.specs.Left.{words_left};

    ghost next_gives = { YieldsFirstBy (λ word. word.now) words_left };

    ghost remaining = { item_count words_left };

    fn next(&mut self) -> Option<&'a [u8]> {
        let (word, rest) = first_word(self.rest)?;
        self.rest = rest;
        Some(word)
    }
}
