//! Standard input and output, the time, random ids, and a database in a file, as the program takes them.
//!
//! None of their contents are known beforehand: they are what the world gives.
ghost use Rattle.std.specs.Prelude.{◌≤ℤ◌, ◌^◌, ℤ, pos, None};

use sdb_sqlite::Kept;
use sdb_store::Store;
use sdb_types::{
    Batch, Clock, Condition, Failed, Ids, Key, Record, Reply, Sink, SinkRefused, Source, Span,
};
use sqlite::FileStore;
use sqlite_std_file::File;
use std::io::{Read, Stdin, Stdout, Write};
use std::random::RandomSource;
use std::rt::HostRuntime;
use std::time::{SystemTime, UNIX_EPOCH};

/// Standard input, with a count of its failures.
#[derive(Drop)]
pub struct Input {
    stdin: Stdin,
    failures: u64,
}

impl Input {
    pub fn new(rt: &HostRuntime) -> Input {
        Input {
            stdin: rt.stdin(),
            failures: 0,
        }
    }
}

impl Source for Input {
    ghost remaining = { λ _. None };

    ghost faults = { λ s. s.failures };

    fn read(&mut self, buffer: &mut [u8]) -> Result<usize, Failed> {
        match self.stdin.read(buffer) {
            Ok(n) => Ok(n),
            Err(_) => {
                self.failures = self.failures.saturating_add(1);
                Err(Failed)
            }
        }
    }
}

/// Standard output, with a count of its failures. A write that takes nothing is one.
#[derive(Drop)]
pub struct Output {
    stdout: Stdout,
    failures: u64,
}

impl Output {
    pub fn new(rt: &HostRuntime) -> Output {
        Output {
            stdout: rt.stdout(),
            failures: 0,
        }
    }
}

impl Sink for Output {
    ghost written = { λ _. None };

    ghost faults = { λ s. s.failures };

    fn write(&mut self, bytes: &[u8]) -> Result<usize, SinkRefused> {
        match self.stdout.write(bytes) {
            Ok(n) if n > 0 => Ok(n),
            _ => {
                self.failures = self.failures.saturating_add(1);
                Err(SinkRefused::Failed)
            }
        }
    }
}

/// The system's clock.
#[derive(Drop)]
pub struct Time<'a> {
    rt: &'a HostRuntime,
}

impl<'a> Time<'a> {
    pub fn new(rt: &'a HostRuntime) -> Time<'a> {
        Time { rt }
    }
}

impl Clock for Time<'_> {
    ghost answered = { λ _. None };

    fn now(&mut self) -> i64 {
        millis(self.rt)
    }
}

// The milliseconds since 1970, held to 0 to 2^53.
fn millis(rt: &HostRuntime) -> i64
    ensures low { pos 0 ≤ℤ result }
    ensures high { result ≤ℤ pos (2 ^ 53) }
{
    let Ok(time) = SystemTime::now(rt) else {
        return 0;
    };
    let Ok(since) = time.duration_since(UNIX_EPOCH) else {
        return 0;
    };
    let millis = since.as_millis().min(1 << 53);
    i64::try_from(millis).unwrap_or(0)
}

/// Numbers from a random one on. Starting at random keeps the ids of two programs apart.
#[derive(Drop)]
pub struct RandomIds {
    next: u128,
}

impl RandomIds {
    /// For a command that draws no ids.
    pub fn unused() -> RandomIds {
        RandomIds { next: 0 }
    }

    /// None where the system gives no random bytes.
    pub fn new(rt: &HostRuntime) -> Option<RandomIds> {
        let mut seed = [0u8; 16];
        if rt.fill_bytes(&mut seed).is_err() {
            return None;
        }
        Some(RandomIds {
            next: u128::from_le_bytes(seed),
        })
    }
}

impl Ids for RandomIds {
    ghost answered = { λ _. None };

    fn draw(&mut self) -> u128 {
        let id = self.next;
        self.next = id.wrapping_add(1);
        id
    }
}

/// A database in a file, as a store. It is a type of its own so that a box of it is a box of a type without parameters.
#[derive(Drop)]
pub struct InFile {
    kept: Kept<FileStore<File>>,
}

impl InFile {
    pub fn new(kept: Kept<FileStore<File>>) -> InFile {
        InFile { kept }
    }
}

impl Store for InFile {
    ghost state = { λ s. ⟦<Kept<FileStore<File>> as Store>⟧.state s.kept };

    fn get(&mut self, key: &Key) -> Reply {
        self.kept.get(key)
    }

    fn scan(&mut self, span: &Span) -> Reply {
        self.kept.scan(span)
    }

    fn put_if(&mut self, rec: &Record, condition: &Condition) -> Reply {
        self.kept.put_if(rec, condition)
    }

    fn delete_if(&mut self, key: &Key, condition: &Condition) -> Reply {
        self.kept.delete_if(key, condition)
    }

    fn put_all(&mut self, batch: &Batch) -> Reply {
        self.kept.put_all(batch)
    }
}
