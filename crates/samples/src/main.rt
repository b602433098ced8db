#![tactic(auto)]

// Runs the reader over each file that an argument names, under a line with the file's name.
use std::fs::{File, Files};
use std::{env, io};

// What fails at a file is said on standard error, and the next file follows.
fn show<R: Files + Print + Eprint>(rt: &R, name: &str) -> io::Result<()> {
    println!(rt; "{name}:")?;
    match File::open(rt, name) {
        Ok(mut file) => {
            if let Err(e) = reading::run(&mut file, &mut io::writer(rt)) {
                eprintln!(rt; "{e}")?;
            }
            Ok(())
        }
        Err(e) => eprintln!(rt; "{name}: {e}"),
    }
}

fn main(rt: HostRuntime) -> io::Result<()> {
    for name in env::args(&rt)?.skip(1) {
        show(&rt, name.as_str())?;
    }
    Ok(())
}
