//! The command `circus`: it fetches the files of the folder that it is called in, writes to the standard output, and sends and
//! receives datagrams by UDP on 127.0.0.1.
#![tactic(auto)]

use circus_outside::{DirShelf, StdSink, UdpLink};
use circus_program::{Status, circus};
use circus_value::NoMemory;
use std::alloc::Global;
use std::process::ExitCode;
use std::{env, io};

fn main(rt: HostRuntime) -> ExitCode {
    let alloc = rt.alloc();
    let status = match words(&rt, alloc) {
        Ok(words) => run(&rt, alloc, words.as_slice()),
        Err(_) => Status::NoMemory.code(),
    };
    ExitCode::from(status)
}

// The words behind the program's name. A word that is no text stands in no form of a command line,
// and no word at all is answered for it.
fn words(rt: &HostRuntime, alloc: Global) -> Result<Vec<String>, NoMemory> {
    match env::args(rt) {
        Ok(words) => words.skip(1).collect(alloc),
        Err(error) if error.kind() == io::ErrorKind::OutOfMemory => Err(NoMemory {}),
        Err(_) => Ok(Vec::new(alloc)),
    }
}

// Runs these words over the real shelf, sink and link.
fn run(rt: &HostRuntime, alloc: Global, words: &[String]) -> u8 {
    let mut shelf = DirShelf::new(alloc, rt);
    let mut sink = StdSink::new(alloc, rt);
    let mut link = UdpLink::new(alloc, rt);
    circus(alloc, words, &mut shelf, &mut sink, &mut link)
}
