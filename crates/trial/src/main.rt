// Runs a script of exercises from standard input, and prints what each command answered.
#![tactic(auto)]

mod session;
mod show;

use script::piece::Lines;
use session::{Fault, Session};
use std::io;
use std::io::{BufWriter, Read, Write};

fn run<W: Write>(rt: &HostRuntime, script: &[u8], out: &mut W) -> io::Result<()> {
    let mut session = Session::new(rt.alloc());
    for (number, line) in (1u64..).zip(Lines::new(script)) {
        match session.answer(rt, line.piece, out) {
            Ok(()) => {}
            Err(Fault::NotUnderstood) => writeln!(out, "line {number}: not understood")?,
            Err(Fault::Io(error)) => return Err(error),
        }
    }
    Ok(())
}

fn main(rt: HostRuntime) -> io::Result<()> {
    let mut script = Vec::new(rt.alloc());
    rt.stdin().read_to_end(&mut script)?;
    let mut out = BufWriter::new(rt.alloc(), rt.stdout())?;
    run(&rt, script.as_slice(), &mut out)?;
    out.flush()
}
