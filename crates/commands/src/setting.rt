//! The policies that commands ask for.
ghost use Rattle.std.specs.Prelude.{◌≡◌};
ghost use Rattle.commands.specs.Settings.{limited_setting, policy_setting, keep_setting, new_setting, level_setting};

use crate::arguments::{nothing_more, only_number};
use crate::fault::Fault;
use crate::words::{is_word, number, split_at, split_word};

/// The policy that a command asks for, with its number unchecked.
#[derive(Clone, Copy, PartialEq, Eq, Debug)]
pub enum Setting {
    All,
    Window(u32),
    Halving(u32),
}

// window:N or halving:N, from what stands before and behind the colon.
#[tactic(auto, using(crate::proofs::Texts::word_with_bytes))]
fn limited_setting(kind: &[u8], limit: &[u8]) -> Result<Setting, Fault>
    ensures { result ≡ limited_setting kind.now limit.now }
{
    match kind {
        b"window" => number(limit).map(Setting::Window),
        b"halving" => number(limit).map(Setting::Halving),
        _ => Err(Fault::UnknownPolicy),
    }
}

// all, window:N or halving:N
fn policy_setting(text: &[u8]) -> Result<Setting, Fault>
    ensures { result ≡ policy_setting text.now }
{
    if is_word(text, "all") {
        return Ok(Setting::All);
    }
    let (kind, limit) = split_at(b':', text);
    limited_setting(kind, limit)
}

// keep=POLICY
fn keep_setting(word: &[u8]) -> Result<Setting, Fault>
    ensures { result ≡ keep_setting word.now }
{
    let (name, value) = split_at(b'=', word);
    if !is_word(name, "keep") {
        return Err(Fault::UnknownSetting);
    }
    policy_setting(value)
}

/// Reads `[keep=POLICY]`.
pub fn new_setting(arguments: &[u8]) -> Result<Setting, Fault>
    ensures { result ≡ new_setting arguments.now }
{
    let (word, rest) = split_word(arguments);
    nothing_more(rest, ())?;
    if word.is_empty() {
        return Ok(Setting::All);
    }
    keep_setting(word)
}

/// Reads `solo N`, `studio N` or `archive`.
#[tactic(auto, using(crate::proofs::Texts::word_with_bytes))]
pub fn level_setting(arguments: &[u8]) -> Result<Setting, Fault>
    ensures { result ≡ level_setting arguments.now }
{
    let (level, rest) = split_word(arguments);
    match level {
        b"solo" => only_number(rest).map(Setting::Window),
        b"studio" => only_number(rest).map(Setting::Halving),
        b"archive" => nothing_more(rest, Setting::All),
        _ => Err(Fault::UnknownLevel),
    }
}
