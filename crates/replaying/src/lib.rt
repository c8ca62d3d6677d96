// The test driver: reads a script of calls from standard input, record by record, runs each on areas of its own, and writes a
// line for each. docs/REPLAY.md has the records and the lines.

#![tactic(auto)]

mod bench;
mod lines;
mod script;

use crate::bench::Bench;
use crate::script::{PAYLOAD_BYTES, ScriptError, read_record};
use std::io;

// Runs record after record. The reader is asked for anew each time: it holds nothing back, since nobody calls its `fill_buf`.
fn run(rt: &(impl Input + Print)) -> Result<(), ScriptError> {
    let mut bench = Bench::new();
    let mut area = [0; PAYLOAD_BYTES];
    // Kept, proof: a loop has to end, and nothing says that a script does; so it counts up to a number that no script uses up.
    for _ in 0..u64::MAX {
        let Some(record) = read_record(&mut rt.reader(), &mut area)? else {
            return Ok(());
        };
        bench.perform(rt, record)?;
    }
    Ok(())
}

// Runs the script on standard input.
pub fn drive(rt: &(impl Input + Print)) -> io::Result<()> {
    match run(rt) {
        Ok(()) => Ok(()),
        Err(ScriptError::Bad) => println!(rt; "BAD SCRIPT"),
        Err(ScriptError::Io(error)) => Err(error),
    }
}
