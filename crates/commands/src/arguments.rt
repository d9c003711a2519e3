//! The arguments of a command.
ghost use Rattle.std.specs.Prelude.{◌≡◌};
ghost use Rattle.commands.specs.Arguments.{optional_number, moment_and_now, only_now, only_number, nothing_more};

use crate::fault::Fault;
use crate::words::{number, split_word};

/// A moment that is asked about, and the present moment to suppose, if the line gives one.
#[derive(Clone, Copy, PartialEq, Eq, Debug)]
pub struct Question {
    pub moment: u32,
    pub at: Option<u32>,
}

// A number that may be left out.
fn optional_number(word: &[u8]) -> Result<Option<u32>, Fault>
    ensures { result ≡ optional_number word.now }
{
    if word.is_empty() {
        return Ok(None);
    }
    number(word).map(Some)
}

/// Reads `MOMENT [NOW]`.
pub fn moment_and_now(arguments: &[u8]) -> Result<Question, Fault>
    ensures { result ≡ moment_and_now arguments.now }
{
    let (moment, rest) = split_word(arguments);
    if moment.is_empty() {
        return Err(Fault::TooFewWords);
    }
    let (at, rest) = split_word(rest);
    nothing_more(rest, ())?;
    Ok(Question {
        moment: number(moment)?,
        at: optional_number(at)?,
    })
}

/// Reads `[NOW]`.
pub fn only_now(arguments: &[u8]) -> Result<Option<u32>, Fault>
    ensures { result ≡ only_now arguments.now }
{
    let (at, rest) = split_word(arguments);
    nothing_more(rest, ())?;
    optional_number(at)
}

/// Reads `N`.
pub fn only_number(arguments: &[u8]) -> Result<u32, Fault>
    ensures { result ≡ only_number arguments.now }
{
    let (limit, rest) = split_word(arguments);
    if limit.is_empty() {
        return Err(Fault::TooFewWords);
    }
    nothing_more(rest, ())?;
    number(limit)
}

/// What was read, where no word follows.
pub fn nothing_more<T: Drop>(arguments: &[u8], read: T) -> Result<T, Fault>
    ensures { result ≡ nothing_more arguments.now read }
{
    let (more, _) = split_word(arguments);
    if !more.is_empty() {
        return Err(Fault::TooManyWords);
    }
    Ok(read)
}
