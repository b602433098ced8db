#![tactic(auto)]

// Reads blocks on standard input, prints a line for each, and then the alarms and whether the analyser may be used.
mod progress;
mod source;

use progress::Watched;
use source::Source;
use std::env::{Env, FillError};
use std::io::{self, IsTerminal};
use std::process::ExitCode;

const USAGE: &str = "\
usage: reader < FILE

Reads the quality file of an analyser on standard input, blocks of 512 bytes each, and prints
  NUMBER taken RECORDS        for a block that is accepted
  NUMBER refused ROW PLACE    for one that is not, and reads no further: ROW of the table of
                              refusals, PLACE of the record at fault, from 0, or -
  alarms ABCDEF usable yes    at the end: the zero chart's alarms for rising drift, falling drift
                              and precision, then the span chart's, 1 where one stands; and
                              whether the analyser may be used, yes or no
The status is 0 where all of this could be read and written, whatever it says, 1 where not, and 2
for this text. tools/verify tells by its status whether each block was accepted.
";

fn main(rt: HostRuntime) -> anyhow::Result<ExitCode> {
    if !matches!(rt.arg(1, &mut []), Err(FillError::NotPresent)) {
        eprint!(rt; "{USAGE}")?;
        return Ok(ExitCode::from(2));
    }
    if rt.stdin().is_terminal() {
        // Only courtesy: it is read on where this cannot be said.
        let _ = eprintln!(rt;
            "reader: waits for blocks of 512 bytes on standard input; with an argument it says more"
        );
    }
    let shows = rt.stderr().is_terminal() && !rt.stdout().is_terminal();
    let mut input = Watched::new(Source::new(&rt), &rt, shows);
    let told = reading::run(&mut input, &mut io::writer(&rt));
    input.clear();
    input.source.leave(match told {
        Ok(unread) => unread,
        Err(_) => 0,
    });
    told?;
    Ok(ExitCode::SUCCESS)
}
