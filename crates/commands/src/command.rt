//! Commands, and how a line is read as one.
ghost use Rattle.std.specs.Prelude.{◌≡◌};
ghost use Rattle.std.specs.Str.{is_utf8};
ghost use Rattle.commands.specs.Commands.{with_arguments, command_of, is_comment, command_in};

use crate::arguments::{Question, moment_and_now, nothing_more, only_now};
use crate::fault::Fault;
use crate::setting::{Setting, level_setting, new_setting};
use crate::words::split_word;
use std::str::from_utf8;

// The most bytes in a line.
const LONGEST_LINE: usize = 4096;

/// A command, with its numbers unchecked.
#[derive(Clone, Copy, PartialEq, Eq, Debug)]
pub enum Command {
    Nothing,
    New(Setting),
    Keeps(Question),
    FirstKept(Question),
    /// `at` is the present moment to suppose, if the line gives one.
    Kept { at: Option<u32> },
    Why(Question),
    Help,
}

// The command with this first word, and these arguments behind it.
#[tactic(auto, using(crate::proofs::Texts::word_with_bytes))]
fn with_arguments(word: &[u8], arguments: &[u8]) -> Result<Command, Fault>
    ensures { result ≡ with_arguments word.now arguments.now }
{
    match word {
        b"new" => new_setting(arguments).map(Command::New),
        b"level" => level_setting(arguments).map(Command::New),
        b"keeps" => moment_and_now(arguments).map(Command::Keeps),
        b"first-kept" => moment_and_now(arguments).map(Command::FirstKept),
        b"kept" => only_now(arguments).map(|at| Command::Kept { at }),
        b"why" => moment_and_now(arguments).map(Command::Why),
        b"help" => nothing_more(arguments, Command::Help),
        _ => Err(Fault::UnknownCommand),
    }
}

// The command that the words of a line are.
fn parse_words(line: &[u8]) -> Result<Command, Fault>
    ensures { result ≡ command_of line.now }
{
    let (word, arguments) = split_word(line);
    if word.is_empty() {
        return Ok(Command::Nothing);
    }
    with_arguments(word, arguments)
}

fn is_comment(line: &[u8]) -> bool
    ensures { result ≡ is_comment line.now }
{
    line.first() == Some(&b'#')
}

fn is_text(line: &[u8]) -> bool
    ensures { result ≡ is_utf8 line.now }
{
    from_utf8(line).is_ok()
}

impl Command {
    /// Reads a line as a command. A comment, and a line without words, is the command to do nothing.
    pub fn read(line: &[u8]) -> Result<Command, Fault>
        ensures { result ≡ command_in (is_utf8 line.now) line.now }
    {
        if is_comment(line) {
            return Ok(Command::Nothing);
        }
        if line.len() > LONGEST_LINE {
            return Err(Fault::LineTooLong);
        }
        if !is_text(line) {
            return Err(Fault::NotText);
        }
        parse_words(line)
    }
}
