//! `frtime`: checks a program, or runs it over a script of timed events and prints the displayed values of each instant.
#![tactic(auto)]

mod command;
mod telling;
mod top;

use fr_io::{DirShelf, StdSink};
use fr_show::Stop;
use std::alloc::AllocError;
use std::process::ExitCode;
use std::{env, io};
use telling::{Failure, status, tell};
use top::frtime;

/// The words after the program's name. A word that isn't UTF-8 is no word of a command.
fn words(rt: &HostRuntime) -> Result<Vec<String>, Failure> {
    let given = match env::args(rt) {
        Ok(given) => given,
        Err(e) if e.kind() == io::ErrorKind::InvalidData => return Err(Failure::Usage),
        Err(_) => return Err(Failure::Stopped(Stop::Memory(AllocError))),
    };
    let mut words = Vec::new(rt.alloc());
    for word in given.skip(1) {
        match words.push(word) {
            Ok(()) => {}
            Err(_) => return Err(Failure::Stopped(Stop::Memory(AllocError))),
        }
    }
    Ok(words)
}

fn main(rt: HostRuntime) -> ExitCode {
    let mut shelf = DirShelf::new(&rt);
    let mut out = StdSink::output(rt.stdout());
    let mut err = StdSink::errors(rt.stderr());
    let answer = match words(&rt) {
        Ok(words) => frtime(rt.alloc(), &words, &mut shelf, &mut out, &mut err),
        Err(failure) => {
            tell(&failure, &mut err);
            status(&failure)
        }
    };
    ExitCode::from(answer)
}
