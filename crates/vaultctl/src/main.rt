//! Answers the commands on standard input, one to a line.
#![tactic(auto)]

use console::session::Session;
use std::io;
use std::io::{BufRead, BufReader, BufWriter, Write};

fn main(rt: HostRuntime) -> io::Result<()> {
    let mut session = Session::new();
    let mut out = BufWriter::new(rt.alloc(), rt.stdout())?;
    for line in BufReader::new(rt.alloc(), rt.stdin())?.split(rt.alloc(), b'\n') {
        let line = line?;
        let answer = session.execute(line.as_slice());
        write!(out, "{answer}")?;
    }
    out.flush()
}
