//! A store of records on a file of pages and a log.
#![tactic(auto)]

mod counted;
mod disk;
mod log;
mod page;
mod session;
mod store;
mod trial;

use disk::Disk;
use session::Session;
use std::fs::{File, OpenOptions};
use std::process::ExitCode;
use std::{env, io};
use store::{Sizes, Store};

const SIZES: Sizes = Sizes {
    pages: 8,
    log: 16,
    cache: 3,
};

const UNKNOWN: u8 = 4;

const HELP: &str = "\
example_pages < COMMANDS
    Keeps records in a file of pages and a log, in the current folder. Both files begin empty.

A command is a line: get N, put N TEXT, commit, checkpoint, stats or crashes N.
The puts before a commit are one transaction. crashes N crashes a store in memory N times.

Exit status: 0 if the files were written, 1 if a write or a read failed, 2 if a file cannot be
opened, 4 after an unknown argument.
";

fn open(rt: &HostRuntime, name: &str) -> io::Result<File> {
    let mut options = OpenOptions::new();
    options.read(true);
    options.write(true);
    options.create(true);
    options.truncate(true);
    options.open(rt, name)
}

fn answer_lines(rt: &HostRuntime, session: &mut Session) -> io::Result<()> {
    for line in rt.lines(rt.alloc()) {
        session.answer(rt, line?.as_str())?;
    }
    Ok(())
}

fn help(rt: &HostRuntime, argument: &str) -> ExitCode {
    if argument == "--help" {
        let _ = print!(rt; "{HELP}");
        return ExitCode::SUCCESS;
    }
    let _ = eprintln!(rt; "example_pages: unknown argument {argument}; try --help");
    ExitCode::from(UNKNOWN)
}

fn main(rt: HostRuntime) -> ExitCode {
    let argument = match env::args(&rt) {
        Ok(mut arguments) => arguments.nth(1),
        Err(_) => return ExitCode::from(UNKNOWN),
    };
    if let Some(argument) = argument {
        return help(&rt, argument.as_str());
    }
    let (Ok(pages), Ok(log)) = (open(&rt, "pages"), open(&rt, "log")) else {
        return ExitCode::from(2);
    };
    let mut store = Store::new(rt.alloc(), Disk::File(pages), Disk::File(log), SIZES);
    let is_formatted = store.format().is_ok();
    let mut session = Session::new(rt.alloc(), store);
    let answered = answer_lines(&rt, &mut session);
    if session.close() && is_formatted && answered.is_ok() {
        ExitCode::SUCCESS
    } else {
        ExitCode::FAILURE
    }
}
