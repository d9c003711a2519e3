//! The words and numbers of a line.
ghost use Rattle.std.specs.Prelude.{◌≡◌, ◌≤◌, length};
ghost use Rattle.std.specs.Str.{bytes_eq};
ghost use Rattle.commands.specs.Words.{spaces_before, first_word, after_word, before_byte, behind_byte, is_numeral};
ghost use Rattle.commands.specs.Numbers.{number_in};

use crate::fault::Fault;
use values::bytes::place_of;

/// Whether a word is this text.
pub fn is_word(word: &[u8], text: &str) -> bool
    ensures { result ≡ bytes_eq word.now text.now }
{
    word == text.as_bytes()
}

// How many spaces the bytes begin with.
fn spaces_before(bytes: &[u8]) -> usize
    ensures place { result ≡ spaces_before bytes.now }
    ensures within { result ≤ length bytes.now }
{
    bytes.iter().take_while(|byte| **byte == b' ').count()
}

/// The first word of a line, empty where there is none, and what follows it.
#[tactic(auto, unfolding(crate::specs::Words::first_word, crate::specs::Words::after_word))]
pub fn split_word(line: &[u8]) -> (&[u8], &[u8])
    ensures word { result.0.now ≡ first_word line.now }
    ensures rest { result.1.now ≡ after_word line.now }
{
    let text = &line[spaces_before(line)..];
    text.split_at(place_of(b' ', text))
}

/// What stands before the first such byte, and what stands behind it.
#[tactic(auto, unfolding(crate::specs::Words::before_byte, crate::specs::Words::behind_byte))]
pub fn split_at(byte: u8, text: &[u8]) -> (&[u8], &[u8])
    ensures before { result.0.now ≡ before_byte byte text.now }
    ensures behind { result.1.now ≡ behind_byte byte text.now }
{
    match text.split_at(place_of(byte, text)) {
        (before, [_, behind @ ..]) => (before, behind),
        (before, []) => (before, &[]),
    }
}

// Whether the word is one or more decimal digits.
fn is_numeral(word: &[u8]) -> bool
    ensures { result ≡ is_numeral word.now }
{
    !word.is_empty() && word.iter().all(|byte| byte.is_ascii_digit())
}

// The least number that a command does not take.
const TOO_LARGE: u64 = 1 << 32;

/// The number that a word writes in decimal digits.
pub fn number(word: &[u8]) -> Result<u32, Fault>
    ensures { result ≡ number_in word.now }
{
    if !is_numeral(word) {
        return Err(Fault::NotANumber);
    }
    // Not by `from_utf8` and `parse`, which take twice as long where a word has few digits. The low
    // half of a digit's byte is its value. A value that 32 bits do not hold is cut before the next
    // digit, and stays too large.
    let value = word.iter().fold(0, |value: u64, digit| {
        value.min(TOO_LARGE) * 10 + u64::from(digit & 0x0F)
    });
    u32::try_from(value).or(Err(Fault::NumberTooLarge))
}
