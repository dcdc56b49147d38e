//! The program: reads a script and the report of it on standard input, and says whether the report is as promised.
#![tactic(auto)]

use sdb_judge::{JudgeRefused, Verdict, judge};
use std::io::{Error, ErrorKind, Read};
use std::process::ExitCode;
use std::rt::HostRuntime;

/// Why the program ends without a verdict.
#[derive(Clone, Copy)]
enum Fault {
    NoScript,
    NoReport,
    Read,
    Write,
    NoMemory,
}

impl Fault {
    fn code(self) -> u8 {
        match self {
            Fault::NoScript => 2,
            Fault::NoReport => 3,
            Fault::Read => 4,
            Fault::Write => 5,
            Fault::NoMemory => 7,
        }
    }

    fn line(self) -> &'static str {
        match self {
            Fault::NoScript => "no script",
            Fault::NoReport => "no report",
            Fault::Read => "read fault",
            Fault::Write => "write fault",
            Fault::NoMemory => "out of memory",
        }
    }
}

impl From<JudgeRefused> for Fault {
    fn from(refused: JudgeRefused) -> Fault {
        match refused {
            JudgeRefused::NoScript(_) => Fault::NoScript,
            JudgeRefused::NoReport(_) => Fault::NoReport,
            JudgeRefused::NoMemory => Fault::NoMemory,
        }
    }
}

fn read_fault(error: &Error) -> Fault {
    if error.kind() == ErrorKind::OutOfMemory {
        Fault::NoMemory
    } else {
        Fault::Read
    }
}

// All of standard input.
fn read_input(rt: &HostRuntime) -> Result<Vec<u8>, Fault> {
    let mut bytes = Vec::new(rt.alloc());
    match rt.stdin().read_to_end(&mut bytes) {
        Ok(_) => Ok(bytes),
        Err(error) => Err(read_fault(&error)),
    }
}

fn write_line(rt: &HostRuntime, line: &str) -> Result<(), Fault> {
    match println!(rt; "{line}") {
        Ok(()) => Ok(()),
        Err(_) => Err(Fault::Write),
    }
}

// Judges standard input, and writes what comes of it. The exit status.
fn run(rt: &HostRuntime) -> Result<u8, Fault> {
    let input = read_input(rt)?;
    match judge(rt.alloc(), input.as_slice())? {
        Verdict::AsPromised => {
            write_line(rt, "as promised")?;
            Ok(0)
        }
        Verdict::Fails(promise) => {
            write_line(rt, promise.name())?;
            Ok(1)
        }
    }
}

fn main(rt: HostRuntime) -> ExitCode {
    match run(&rt) {
        Ok(code) => ExitCode::from(code),
        Err(fault) => {
            let line = fault.line();
            let _ = eprintln!(rt; "{line}");
            ExitCode::from(fault.code())
        }
    }
}
