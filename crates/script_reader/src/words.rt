//! The words of a line.
ghost use Rattle.std.specs.Prelude.{◌≡◌, ◌≤◌, ◌<◌, ◌∷◌, [], length, MatchOption};
ghost use Rattle.script_reader.specs.Words.{is_space, words, word_len, IsAtWord};

/// Space, tab and carriage return separate words.
pub(crate) fn is_space(byte: u8) -> bool
    ensures { result ≡ is_space byte }
{
    byte == b' ' || byte == b'\t' || byte == b'\r'
}

/// The line from its first word on.
fn skip_gap(line: &[u8]) -> &[u8]
    ensures words { words result.now ≡ words line.now }
    ensures front { IsAtWord result.now }
{
    let mut rest = line;
    while let [first, others @ ..] = rest {
        if !is_space(*first) {
            break;
        }
        rest = others;
    }
    rest
}

/// How many bytes of a word the line begins with.
fn word_len(line: &[u8]) -> usize
    ensures value { result ≡ word_len line.now }
    ensures bound { result ≤ length line.now }
{
    for (i, byte) in line.iter().enumerate() {
        if is_space(*byte) {
            return i;
        }
    }
    line.len()
}

/// The first word, and what follows it.
#[tactic(auto, using(crate::proofs::WordLaws::first_word))]
fn split_word(line: &[u8]) -> (&[u8], &[u8])
    requires some { 0 < length line.now }
    requires front { IsAtWord line.now }
    ensures { words line.now ≡ result.0.now ∷ words result.1.now }
{
    line.split_at(word_len(line))
}

/// The line from its first word on, if it has a word.
pub fn at_word(line: &[u8]) -> Option<&[u8]>
    ensures { MatchOption result (words line.now ≡ []) (λ r. (words line.now ≡ words r.now) × (0 < length r.now) × IsAtWord r.now) }
{
    let line = skip_gap(line);
    if line.is_empty() {
        return None;
    }
    Some(line)
}

/// The first word and what follows it, or nothing if the line has no word.
pub fn next_word(line: &[u8]) -> Option<(&[u8], &[u8])>
    ensures { MatchOption result (words line.now ≡ []) (λ r. words line.now ≡ r.0.now ∷ words r.1.now) }
{
    Some(split_word(at_word(line)?))
}

/// The line without a space at its front.
pub fn past_space(line: &[u8]) -> &[u8]
    ensures { words result.now ≡ words line.now }
{
    match line {
        [b' ', rest @ ..] => rest,
        _ => line,
    }
}
