// The words of a line, parted by blanks.
ghost use Rattle.console.specs.Words.{blank, first_word, left, letter, rest_of, unblanked, wordless, words_by};
ghost use Rattle.std.specs.Prelude.{◌≡◌, ◌<◌, ◌≤◌, true, [], ◌∷◌, length, drop, is_some, MatchOption};
ghost use Rattle.std.specs.Option.{option_map};
ghost use Rattle.std.specs.List.{prefix_len};

#[derive(Clone, Copy)]
pub struct Words<'a> {
    rest: &'a [u8],
}

fn is_blank(b: u8) -> bool
    ensures { result ≡ blank b }
{
    matches!(b, b' ' | b'\t'..=b'\r')
}

// The line from its first word on.
fn skip_blanks(line: &[u8]) -> &[u8]
    ensures is { result.now ≡ unblanked line.now }
    ensures within { length result.now ≤ length line.now }
{
    let first = line.iter().position(|b| !is_blank(*b));
    &line[first.unwrap_or(line.len())..]
}

// How long the word is that a line begins with, or 0.
fn word_len(line: &[u8]) -> usize
    ensures is { result ≡ prefix_len letter line.now }
    ensures within { result ≤ length line.now }
{
    line.iter().position(|b| is_blank(*b)).unwrap_or(line.len())
}

impl<'a> Words<'a> {
    pub fn new(line: &'a [u8]) -> Words<'a>
        ensures { result.rest.now ≡ line.now }
    {
        Words { rest: line }
    }

    // The words of a line behind the first few.
    pub fn behind(line: &'a [u8], first: u32) -> Words<'a>
        ensures { left result ≡ drop first (words_by blank line.now) }
    {
        let mut words = Words { rest: line };
        for _taken in 0..first {
            words.next();
        }
        words
    }

    // The next word, if there is one.
    pub fn next(&mut self) -> Option<&'a [u8]>
        ensures word { option_map (λ x. x.now) result ≡ first_word self.old.rest.now }
        ensures rest { self.new.rest.now ≡ rest_of self.old.rest.now }
        ensures words { MatchOption result ((left self.old ≡ []) × (left self.new ≡ [])) (λ w. left self.old ≡ w.now ∷ left self.new) }
        ensures shorter { is_some result ≡ true → length self.new.rest.now < length self.old.rest.now }
    {
        let line = skip_blanks(self.rest);
        let length = word_len(line);
        let (word, rest) = line.split_at(length);
        self.rest = rest;
        if length == 0 { None } else { Some(word) }
    }

    // Whether no word is left.
    pub fn is_empty(&self) -> bool
        ensures { result ≡ wordless (left self.now) }
    {
        skip_blanks(self.rest).is_empty()
    }

    // What stands behind the words that were taken.
    pub fn rest(&self) -> &'a [u8]
        ensures { result.now ≡ self.now.rest.now }
    {
        let behind = self.rest;
        behind
    }
}
