//! The program `stework`: makes the files, the output and the error sink of the host, hands them to
//! the top call, and ends with its status.
#![tactic(auto)]

use std::alloc::AllocError;
use std::env;
use std::io::ErrorKind;
use std::process::ExitCode;
use ste_io::{HostFiles, HostSink};
use ste_program::run::{Status, run};
use work_pool::NoGate;

/// The words of the command line, from the program's name on; none where one of them is not UTF-8.
fn words(rt: &HostRuntime) -> Result<Vec<String>, AllocError> {
    match env::args(rt) {
        Ok(words) => words.collect(rt.alloc()),
        Err(error) if error.kind() == ErrorKind::InvalidData => Ok(Vec::new(rt.alloc())),
        Err(_) => Err(AllocError),
    }
}

fn main(rt: HostRuntime) -> ExitCode {
    let alloc = rt.alloc();
    let mut files = HostFiles::new(&rt);
    let mut out = HostSink::over(rt.stdout());
    let mut err = HostSink::over(rt.stderr());
    let status = match words(&rt) {
        Ok(words) => run(&rt, alloc, &words, &mut files, &mut out, &mut err, &NoGate),
        Err(_) => Status::NoMemory,
    };
    ExitCode::from(status as u8)
}
