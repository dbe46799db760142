//! Exact nonparametric tests: `exact TEST FILE` prints a test's exact p-values for the data of a
//! file.
#![tactic(auto)]

use exact_run::{Status, run};
use outside::{HostSink, HostSource, write_all};
use std::alloc::{AllocError, Global};
use std::env;
use std::io::ErrorKind;
use std::process::ExitCode;

// The words after the program's own name. Where one of them is no text, there are none, which is
// refused as the command line.
fn words(rt: &HostRuntime) -> Result<Vec<String>, AllocError> {
    match env::args(rt) {
        Ok(mut args) => {
            let _name = args.next();
            args.collect(rt.alloc())
        }
        Err(error) if error.kind() == ErrorKind::OutOfMemory => Err(AllocError),
        Err(_) => Ok(Vec::new(rt.alloc())),
    }
}

fn main(rt: HostRuntime) -> ExitCode {
    let alloc: Global = rt.alloc();
    let mut out = HostSink::new(rt.stdout());
    let mut err = HostSink::new(rt.stderr());
    let Ok(words) = words(&rt) else {
        let _told = write_all(&mut err, b"refused: no memory\n");
        return ExitCode::from(Status::NoMemory.number());
    };
    let mut source = HostSource::new(rt);
    let status = run(alloc, &words, &mut source, &mut out, &mut err);
    ExitCode::from(status.number())
}
