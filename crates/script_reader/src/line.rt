//! Reads a line.
ghost use Rattle.std.specs.Prelude.{◌≡◌, ⊤, nat_lt, length, MatchOption};
ghost use Rattle.script_reader.specs.declared.line.Opening.TheVariants as opening;
ghost use Rattle.script_reader.specs.Words.{words};
ghost use Rattle.script_reader.specs.Grammar.{is_ascii, is_comment, opening_of, request_of_words, request_of};

use super::buffer::LINE_LIMIT;
use super::command::{Fault, Request};
use super::name::{Name, name_of};
use super::places::Words;
use super::reading::arguments;
use super::words::{next_word, past_space};

fn is_comment(word: &[u8]) -> bool
    ensures { result ≡ is_comment word.now }
{
    matches!(word, [b'#', ..])
}

/// How the words of a line begin.
#[derive(Drop)]
pub enum Opening<'a> {
    /// No word, or a comment: the line asks for nothing.
    Nothing,
    /// A word that names no command.
    BadWord,
    /// A command's name, and the words that follow it.
    Command(Name, Words<'a>),
}

/// If a line begins with `kvfs` and a space: the name, and what follows it.
#[inline(always)]
#[tactic(auto, using(crate::proofs::NameLaws::begins_kvfs))]
fn quick_kvfs(line: &[u8]) -> Option<(Name, &[u8])>
    ensures { MatchOption result ⊤ (λ r. opening_of (words line.now) ≡ opening.Command r.0 (words r.1.now)) }
{
    match line {
        [b'k', b'v', b'f', b's', b' ', rest @ ..] => Some((Name::Kvfs, rest)),
        _ => None,
    }
}

/// If a line begins with the name of an operator that is given often, and a space: the name, known by its letters, and what follows it.
fn quick_name(line: &[u8]) -> Option<(Name, &[u8])>
    ensures { MatchOption result ⊤ (λ r. opening_of (words line.now) ≡ opening.Command r.0 (words r.1.now)) }
{
    match line {
        [b'm', b'e', b'v', b' ', rest @ ..] => Some((Name::Mev, rest)),
        [b'm', b'e', b'f', b' ', rest @ ..] => Some((Name::Mef, rest)),
        [b'k', b'e', b'v', b' ', rest @ ..] => Some((Name::Kev, rest)),
        [b'k', b'e', b'f', b' ', rest @ ..] => Some((Name::Kef, rest)),
        _ => quick_kvfs(line),
    }
}

/// How the words of a line begin, whatever the line's length and its other bytes.
#[inline(always)]
pub fn opening_of(line: &[u8]) -> Opening<'_>
    ensures { result ≡ opening_of (words line.now) }
{
    if let Some((name, rest)) = quick_name(line) {
        return Opening::Command(name, Words::of(rest));
    }
    let Some((word, rest)) = next_word(line) else {
        return Opening::Nothing;
    };
    if is_comment(word) {
        return Opening::Nothing;
    }
    match name_of(word) {
        Some(name) => Opening::Command(name, Words::of(past_space(rest))),
        None => Opening::BadWord,
    }
}

/// What the words of a line say, whatever the line's length and its other bytes. If they ask for something and the line is within the limit,
/// `read_line` says the same, since each byte of the line belongs to a word that was read, or separates two words.
pub fn read_words(line: &[u8]) -> Result<Request<'_>, Fault>
    ensures { result ≡ request_of_words (words line.now) }
{
    match opening_of(line) {
        Opening::Nothing => Ok(Request::Nothing),
        Opening::BadWord => Err(Fault::BadWord),
        Opening::Command(name, mut words) => arguments(name, &mut words),
    }
}

/// Whether a line is past the limit.
pub fn is_long(line: &[u8]) -> bool
    ensures { result ≡ nat_lt 65536 (length line.now) }
{
    line.len() > LINE_LIMIT
}

/// Whether each byte of a line is below 128.
#[inline(never)]
#[tactic(auto, using(crate::proofs::AsciiLaws::ascii_is))]
pub fn is_ascii(line: &[u8]) -> bool
    ensures { result ≡ is_ascii line.now }
{
    line.is_ascii()
}

/// What a line, given without its newline, asks for, or the line's first fault. It takes no memory.
pub fn read_line(line: &[u8]) -> Result<Request<'_>, Fault>
    ensures { result ≡ request_of line.now }
{
    if is_long(line) {
        return Err(Fault::LongLine);
    }
    if !is_ascii(line) {
        return Err(Fault::NotAscii);
    }
    read_words(line)
}
