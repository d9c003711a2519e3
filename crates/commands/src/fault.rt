//! What makes a line no command.
use thiserror::Error;

/// Why a line is no command.
#[derive(Clone, Copy, PartialEq, Eq, Debug, Error)]
pub enum Fault {
    #[error("the line is longer than 4096 bytes")]
    LineTooLong,
    #[error("the line is not UTF-8 text")]
    NotText,
    #[error("unknown command (try: help)")]
    UnknownCommand,
    #[error("a word is missing")]
    TooFewWords,
    #[error("too many words")]
    TooManyWords,
    #[error("not a number")]
    NotANumber,
    #[error("number above 4294967295")]
    NumberTooLarge,
    #[error("unknown setting (try: new keep=all)")]
    UnknownSetting,
    #[error("keep is all, window:N or halving:N")]
    UnknownPolicy,
    #[error("a level is solo N, studio N or archive")]
    UnknownLevel,
}
