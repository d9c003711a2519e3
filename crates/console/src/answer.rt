//! What the program answers.
use crate::help::HELP;
use commands::fault::Fault;
use pictures::picture::Picture;
use reports::reason::Reason;
use std::fmt;
use values::moment::Moment;
use values::refusal::Refusal;

/// The answer to a line.
#[derive(Clone, Copy)]
pub enum Answer {
    /// Nothing was asked.
    Silence,
    /// A vault was made.
    Ready,
    Yes,
    No,
    At(Moment),
    /// There is no such thing.
    Absent,
    Picture(Picture),
    Reason(Reason),
    Help,
    /// The call was turned down.
    Refused(Refusal),
    /// The line is no command.
    Wrong(Fault),
}

/// Shows the lines of the answer, each with its end.
impl fmt::Display for Answer {
    fn fmt<W: fmt::Write>(&self, f: &mut fmt::Formatter<W>) -> fmt::Result {
        match *self {
            Answer::Silence => Ok(()),
            Answer::Ready => writeln!(f, "ready"),
            Answer::Yes => writeln!(f, "yes"),
            Answer::No => writeln!(f, "no"),
            Answer::At(moment) => writeln!(f, "moment {}", moment.number()),
            Answer::Absent => writeln!(f, "none"),
            Answer::Picture(picture) => write!(f, "{picture}"),
            Answer::Reason(reason) => writeln!(f, "{reason}"),
            Answer::Help => f.write_str(HELP),
            Answer::Refused(refusal) => writeln!(f, "refused {refusal}"),
            Answer::Wrong(fault) => writeln!(f, "error: {fault}"),
        }
    }
}
