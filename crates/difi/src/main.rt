//! The program: it runs the line of its words between standard input and standard output, writes
//! the line of the status on standard error and ends with its code.
#![tactic(auto)]

use difi_cmd::{Status, difi_run};
use difi_io::{NoGate, StdSink, StdSource};
use std::io::ErrorKind;
use std::process::ExitCode;
use std::{env, io};

fn main(rt: HostRuntime) -> ExitCode {
    let status = match words(&rt) {
        Ok(words) => {
            let mut source = StdSource::new(rt.stdin());
            let mut sink = StdSink::new(rt.stdout());
            let gate = NoGate::new();
            difi_run(&rt, rt.alloc(), &words, &mut source, &mut sink, &gate)
        }
        Err(status) => status,
    };
    let _ = report(&rt, status);
    ExitCode::from(status.code())
}

// The words behind the program's name. One that is not UTF-8 is a wrong word.
fn words(rt: &HostRuntime) -> Result<Vec<String>, Status> {
    match env::args(rt) {
        Ok(args) => args.skip(1).collect(rt.alloc()).map_err(|_| Status::Memory),
        Err(error) if error.kind() == ErrorKind::OutOfMemory => Err(Status::Memory),
        Err(_) => Err(Status::Usage),
    }
}

// The line of a status on standard error. Done has none.
fn report(rt: &HostRuntime, status: Status) -> io::Result<()> {
    match status {
        Status::Done => Ok(()),
        Status::Usage => eprintln!(rt; "difi: usage"),
        Status::ReadFault => eprintln!(rt; "difi: read fault"),
        Status::WriteFault => eprintln!(rt; "difi: write fault"),
        Status::Memory => eprintln!(rt; "difi: out of memory"),
        Status::BadRecord { offset } => eprintln!(rt; "difi: bad record at byte {offset}"),
        Status::TooLong => eprintln!(rt; "difi: record too long"),
    }
}
