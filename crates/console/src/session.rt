//! The state that commands act on.
ghost use Rattle.std.specs.Prelude.{◌≡◌, Ok};
ghost use Rattle.std.specs.Str.{is_utf8};
ghost use Rattle.values.specs.Answers.{answer};
ghost use Rattle.values.specs.Moments.{moment_at};
ghost use Rattle.commands.specs.Commands.{command_in};
ghost use Rattle.console.specs.Replies.{Answered, reply_of, result_reply, made_setting, setting_of, setting_made, moment_made, now_or, moments_asked, keeps_reply, first_kept_reply, kept_reply, why_reply, new_reply};

use crate::answer::Answer;
use commands::arguments::Question;
use commands::command::Command;
use commands::setting::Setting;
use pictures::picture::Picture;
use policies::halving::Halving;
use policies::policy::Policy;
use policies::retention::Retention;
use policies::window::Window;
use reports::reason::Reason;
use values::moment::Moment;
use values::refusal::Refusal;

// The policy with this setting. No `TryFrom`, since both types are other crates'.
fn retention_with(setting: Setting) -> Result<Retention, Refusal>
    ensures { answer setting_of result ≡ made_setting setting }
{
    match setting {
        Setting::All => Ok(Retention::All),
        Setting::Window(length) => Window::new(length).map(Retention::Window),
        Setting::Halving(reach) => Halving::new(reach).map(Retention::Halving),
    }
}

/// A vault's policy and its present moment.
#[derive(Clone, Copy)]
pub struct Session {
    retention: Retention,
    present: Moment,
}

impl Session {
    /// A new vault that keeps everything.
    pub fn new() -> Session
        ensures retention { result.retention ≡ Retention.All }
        ensures present { result.present.value ≡ 0 }
    {
        Session {
            retention: Retention::All,
            present: Moment::ZERO,
        }
    }

    // The moment that a command supposes to be the present, or the vault's own.
    fn present_or(&self, at: Option<u32>) -> Result<Moment, Refusal>
        ensures { answer (λ m. m.value) result ≡ moment_at (now_or at self.now.present.value) }
    {
        at.map_or(Ok(self.present), Moment::try_from)
    }

    // The moment asked about, and the one that counts as the present.
    fn moments(&self, question: Question) -> Result<(Moment, Moment), Refusal>
        ensures { answer (λ p. (p.0.value, p.1.value)) result ≡ moments_asked question self.now.present.value }
    {
        Ok((
            Moment::try_from(question.moment)?,
            self.present_or(question.at)?,
        ))
    }

    fn keeps(&self, question: Question) -> Result<Answer, Refusal>
        ensures { result_reply result ≡ keeps_reply self.now.retention question.moment (now_or question.at self.now.present.value) }
    {
        let (t, present) = self.moments(question)?;
        let kept = self.retention.keeps(t, present);
        Ok(if kept { Answer::Yes } else { Answer::No })
    }

    fn first_kept(&self, question: Question) -> Result<Answer, Refusal>
        ensures { result_reply result ≡ first_kept_reply self.now.retention question.moment (now_or question.at self.now.present.value) }
    {
        let (t, present) = self.moments(question)?;
        let first = self.retention.first_kept(t, present);
        Ok(first.map_or(Answer::Absent, Answer::At))
    }

    fn kept(&self, at: Option<u32>) -> Result<Answer, Refusal>
        ensures { result_reply result ≡ kept_reply self.now.retention (now_or at self.now.present.value) }
    {
        let present = self.present_or(at)?;
        Ok(Answer::Picture(Picture::new(self.retention, present)))
    }

    fn why(&self, question: Question) -> Result<Answer, Refusal>
        ensures { result_reply result ≡ why_reply self.now.retention question.moment (now_or question.at self.now.present.value) }
    {
        let (t, present) = self.moments(question)?;
        Ok(Answer::Reason(Reason::new(self.retention, t, present)))
    }

    // A new vault, in place of the one before.
    fn renew(&mut self, setting: Setting) -> Result<Answer, Refusal>
        ensures reply { result_reply result ≡ new_reply (made_setting setting) }
        ensures setting { setting_of self.new.retention ≡ setting_made (made_setting setting) (setting_of self.old.retention) }
        ensures present { self.new.present.value ≡ moment_made (made_setting setting) self.old.present.value }
    {
        self.retention = retention_with(setting)?;
        self.present = Moment::ZERO;
        Ok(Answer::Ready)
    }

    fn perform(&mut self, command: Command) -> Result<Answer, Refusal>
        ensures { Answered self.old self.new (Ok command) (result_reply result) }
    {
        match command {
            Command::Nothing => Ok(Answer::Silence),
            Command::New(setting) => self.renew(setting),
            Command::Keeps(question) => self.keeps(question),
            Command::FirstKept(question) => self.first_kept(question),
            Command::Kept { at } => self.kept(at),
            Command::Why(question) => self.why(question),
            Command::Help => Ok(Answer::Help),
        }
    }

    /// Carries a command out.
    pub fn run(&mut self, command: Command) -> Answer
        ensures { Answered self.old self.new (Ok command) (reply_of result) }
    {
        self.perform(command).unwrap_or_else(Answer::Refused)
    }

    /// Answers a line.
    pub fn execute(&mut self, line: &[u8]) -> Answer
        ensures { Answered self.old self.new (command_in (is_utf8 line.now) line.now) (reply_of result) }
    {
        // A match: in a combinator one closure would have to borrow the session.
        match Command::read(line) {
            Ok(command) => self.run(command),
            Err(fault) => Answer::Wrong(fault),
        }
    }
}
