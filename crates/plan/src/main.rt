// Reads a plan script from standard input, answers each line, and says in words what was done.
#![tactic(auto)]

mod session;

use session::Session;
use std::io;
use std::io::{BufRead, BufReader, BufWriter, Write};

fn main(rt: HostRuntime) -> io::Result<()> {
    let mut session = Session::new();
    let mut out = BufWriter::new(rt.alloc(), rt.stdout())?;
    for line in BufReader::new(rt.alloc(), rt.stdin())?.split(rt.alloc(), b'\n') {
        let line = line?;
        let reply = session.answer(line.as_slice());
        out.write_all(line.as_slice())?;
        writeln!(out, " -> {reply}")?;
    }
    let summary = session.summary();
    writeln!(out, "{summary}")?;
    out.flush()
}
