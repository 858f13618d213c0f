//! Commands, and the answers to them.
use crate::page::Record;
use crate::store::{Store, StoreError};
use crate::trial::crashes;
use std::alloc::Global;
use std::{io, str};

enum Command<'a> {
    Get(u64),
    Put(u64, &'a str),
    Commit,
    Checkpoint,
    Stats,
    Crashes(u64),
}

fn command_of(line: &str) -> Option<Command<'_>> {
    let (word, rest) = line.split_once(" ").unwrap_or((line, ""));
    match word {
        "get" => Some(Command::Get(rest.parse().ok()?)),
        "put" => {
            let (n, text) = rest.split_once(" ")?;
            Some(Command::Put(n.parse().ok()?, text))
        }
        "commit" => Some(Command::Commit),
        "checkpoint" => Some(Command::Checkpoint),
        "stats" => Some(Command::Stats),
        "crashes" => Some(Command::Crashes(rest.parse().ok()?)),
        _ => None,
    }
}

fn record_of(text: &str) -> Record {
    let mut record = [0u8; 64];
    for (place, byte) in record.iter_mut().zip(text.bytes()) {
        *place = byte;
    }
    record
}

/// Returns the text before the first byte 0.
fn text_of(record: &[u8]) -> &str {
    let end = record.iter().position(|byte| *byte == 0);
    let text = record.get(..end.unwrap_or(record.len())).unwrap_or(record);
    str::from_utf8(text).unwrap_or("?")
}

fn say(rt: &HostRuntime, done: Result<(), StoreError>, word: &str) -> io::Result<()> {
    match done {
        Ok(()) => println!(rt; "{word}"),
        Err(error) => println!(rt; "error: {error:?}"),
    }
}

pub struct Session {
    store: Store<'static>,
    changes: Vec<(u64, Record)>,
}

impl Session {
    pub fn new(alloc: Global, store: Store<'static>) -> Session {
        Session {
            store,
            changes: Vec::new(alloc),
        }
    }

    fn get(&mut self, rt: &HostRuntime, n: u64) -> io::Result<()> {
        match self.store.get(n) {
            Ok(record) => println!(rt; "{n}: {}", text_of(&record)),
            Err(error) => say(rt, Err(error), ""),
        }
    }

    fn put(&mut self, n: u64, text: &str) -> Result<(), StoreError> {
        self.changes
            .push((n, record_of(text)))
            .map_err(|_| StoreError::Memory)
    }

    fn commit(&mut self, rt: &HostRuntime) -> io::Result<()> {
        let done = self.store.commit(rt.alloc(), self.changes.as_slice());
        self.changes.clear();
        say(rt, done, "committed")
    }

    fn stats(&self, rt: &HostRuntime) -> io::Result<()> {
        let cache = self.store.cache();
        println!(rt;
            "pages cached {}, dirty {}, written {}; hits {}, misses {}",
            cache.len(),
            cache.dirty_len(),
            cache.device().writes(),
            cache.hits(),
            cache.misses()
        )
    }

    pub fn answer(&mut self, rt: &HostRuntime, line: &str) -> io::Result<()> {
        match command_of(line) {
            Some(Command::Get(n)) => self.get(rt, n),
            Some(Command::Put(n, text)) => say(rt, self.put(n, text), "noted"),
            Some(Command::Commit) => self.commit(rt),
            Some(Command::Checkpoint) => say(rt, self.store.checkpoint(), "written"),
            Some(Command::Stats) => self.stats(rt),
            Some(Command::Crashes(n)) => crash(rt, n),
            None => println!(rt; "no command"),
        }
    }

    pub fn close(self) -> bool {
        let Session {
            mut store,
            changes: _,
        } = self;
        let is_written = store.checkpoint().is_ok();
        let _ = store.into_files();
        is_written
    }
}

fn crash(rt: &HostRuntime, n: u64) -> io::Result<()> {
    let Ok(counts) = crashes(rt.alloc(), n) else {
        return println!(rt; "out of memory");
    };
    println!(rt;
        "{} crashes, {} lost; {} commits, and of the interrupted {} kept and {} dropped; {} torn pages mended",
        counts.crashes, counts.lost, counts.commits, counts.kept, counts.dropped, counts.torn
    )
}
