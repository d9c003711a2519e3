//! A session that is talked to.
use console::session::Session;
use std::alloc::AllocError;
use std::process::Abort;
use std::test::Fail;

/// A session, and the runtime by which a test fails.
#[derive(Drop)]
pub struct Dialogue<'a, R> {
    rt: &'a R,
    session: Session,
}

impl<'a, R: Abort + AllocGlobal> Dialogue<'a, R> {
    /// A dialogue with a new session.
    pub fn new(rt: &'a R) -> Dialogue<'a, R> {
        Dialogue {
            rt,
            session: Session::new(),
        }
    }

    /// What the session says to a line.
    pub fn said(&mut self, line: &[u8]) -> Result<String, AllocError> {
        self.session.execute(line).to_string(self.rt.alloc())
    }

    /// Checks that the session says this to a line.
    pub fn expect(&mut self, line: &[u8], text: &str) -> Result<(), Fail> {
        self.expect_since(line, text, "what the session says")
    }

    /// The same, with a note on why it should.
    pub fn expect_since(&mut self, line: &[u8], text: &str, note: &str) -> Result<(), Fail> {
        let answer = self.said(line)?;
        assert_eq!(self.rt; answer.as_str(), text, "{note}");
        Ok(())
    }
}
