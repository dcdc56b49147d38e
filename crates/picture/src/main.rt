//! The program: reads a report on standard input, and writes its picture on standard output.
#![tactic(auto)]

use sdb_picture::{PictureRefused, picture};
use std::env;
use std::io::{Error, ErrorKind, Read, Write};
use std::process::ExitCode;
use std::rt::HostRuntime;

/// Why the program ends without a whole picture.
#[derive(Clone, Copy)]
enum Fault {
    /// There are words after the program's name.
    Usage,
    /// Standard input is no report: the first line that may not come.
    BadInput(u64),
    Read,
    Write,
    NoMemory,
    TooManyEvents,
}

impl Fault {
    fn code(self) -> u8 {
        match self {
            Fault::Usage => 2,
            Fault::BadInput(_) => 3,
            Fault::Read => 4,
            Fault::Write => 5,
            Fault::NoMemory => 7,
            Fault::TooManyEvents => 10,
        }
    }
}

impl From<PictureRefused> for Fault {
    fn from(refused: PictureRefused) -> Fault {
        match refused {
            PictureRefused::BadReport(line) => Fault::BadInput(line),
            PictureRefused::TooManyEvents => Fault::TooManyEvents,
            PictureRefused::NoMemory => Fault::NoMemory,
        }
    }
}

// Whether there are words after the program's name.
fn has_words(rt: &HostRuntime) -> Result<bool, Fault> {
    match env::args(rt) {
        Ok(mut given) => {
            let _program = given.next();
            Ok(given.next().is_some())
        }
        Err(error) if error.kind() == ErrorKind::InvalidData => Ok(true),
        Err(_) => Err(Fault::NoMemory),
    }
}

fn read_fault(error: &Error) -> Fault {
    if error.kind() == ErrorKind::OutOfMemory {
        Fault::NoMemory
    } else {
        Fault::Read
    }
}

// All of standard input.
fn read_input(rt: &HostRuntime) -> Result<Vec<u8>, Fault> {
    let mut bytes = Vec::new(rt.alloc());
    match rt.stdin().read_to_end(&mut bytes) {
        Ok(_) => Ok(bytes),
        Err(error) => Err(read_fault(&error)),
    }
}

fn write_output(rt: &HostRuntime, bytes: &[u8]) -> Result<(), Fault> {
    match rt.stdout().write_all(bytes) {
        Ok(()) => Ok(()),
        Err(_) => Err(Fault::Write),
    }
}

// Draws the report on standard input.
fn draw(rt: &HostRuntime) -> Result<(), Fault> {
    if has_words(rt)? {
        return Err(Fault::Usage);
    }
    let report = read_input(rt)?;
    match picture(rt.alloc(), report.as_slice()) {
        Ok(text) => write_output(rt, text.as_bytes()),
        Err(refused) => Err(Fault::from(refused)),
    }
}

fn complain(rt: &HostRuntime, fault: Fault) {
    let _ = match fault {
        Fault::Usage => eprintln!(rt; "usage: picture < report > picture.svg"),
        Fault::BadInput(line) => eprintln!(rt; "bad input at {line}"),
        Fault::Read => eprintln!(rt; "read fault"),
        Fault::Write => eprintln!(rt; "write fault"),
        Fault::NoMemory => eprintln!(rt; "out of memory"),
        Fault::TooManyEvents => eprintln!(rt; "too many events"),
    };
}

fn main(rt: HostRuntime) -> ExitCode {
    match draw(&rt) {
        Ok(()) => ExitCode::from(0),
        Err(fault) => {
            complain(&rt, fault);
            ExitCode::from(fault.code())
        }
    }
}
