//! The program `sysapi`: a repository server of the Systems Modeling API over standard input and output.
//!
//! `sysapi JOURNAL WORDS`: the first word is the path of the file in which the entries are kept, which is made where there is none and
//! is locked while the program runs. Or it is `-`, which keeps them in memory. The words behind it say what to do.
#![tactic(auto)]

use journal_disk::{FileDisk, VolatileDisk};
use std::alloc::{AllocError, Global};
use std::io::{ErrorKind, Write};
use std::process::ExitCode;
use std::rt::Env;
use std::{env, str};
use sysapi_base::{StreamSink, StreamSource, SystemClock};
use sysapi_serve::run_offline;

/// The status where the first word can't be opened.
const CANNOT_OPEN: u8 = 1;

/// The status where no memory was found.
const NO_MEMORY: u8 = 3;

/// The longest path that is read where a later word is no text.
const PATH_MOST: usize = 4096;

/// What the program is asked: where the entries are kept, and the words behind that.
#[derive(Drop)]
struct Asked {
    journal: Option<String>,
    words: Vec<String>,
}

/// Why nothing is asked.
#[derive(Drop)]
enum Unasked {
    CannotOpen,
    NoMemory,
}

impl From<AllocError> for Unasked {
    fn from(_error: AllocError) -> Unasked {
        Unasked::NoMemory
    }
}

/// The first word, where it is a text.
fn first_word(rt: &impl Env, alloc: Global) -> Result<String, Unasked> {
    let mut word = [0; PATH_MOST];
    let Ok(length) = rt.arg(1, &mut word) else {
        return Err(Unasked::CannotOpen);
    };
    let Ok(text) = str::from_utf8(&word[..length]) else {
        return Err(Unasked::CannotOpen);
    };
    Ok(String::from_str(alloc, text)?)
}

/// The program's words. One that is no text is in no language, so the list behind the first word is then taken as empty.
fn asked_of(rt: &(impl Env + Alloc<A = Global>)) -> Result<Asked, Unasked> {
    let alloc = rt.alloc();
    match env::args(rt) {
        Ok(args) => {
            let mut words = args.skip(1);
            let journal = words.next();
            let words = words.collect(alloc)?;
            Ok(Asked { journal, words })
        }
        Err(error) if error.kind() == ErrorKind::OutOfMemory => Err(Unasked::NoMemory),
        Err(_) => Ok(Asked {
            journal: Some(first_word(rt, alloc)?),
            words: Vec::new(alloc),
        }),
    }
}

/// Tells why the program ends, with its status.
fn fail(rt: &impl Eprint, complaint: &str, status: u8) -> ExitCode {
    let _ = eprintln!(rt; "sysapi: {complaint}");
    ExitCode::from(status)
}

fn main(rt: HostRuntime) -> ExitCode {
    let alloc = rt.alloc();
    let asked = match asked_of(&rt) {
        Ok(asked) => asked,
        Err(Unasked::CannotOpen) => return fail(&rt, "cannot open", CANNOT_OPEN),
        Err(Unasked::NoMemory) => return fail(&rt, "out of memory", NO_MEMORY),
    };
    let Ok(output) = Box::new(alloc, rt.stdout()) else {
        return fail(&rt, "out of memory", NO_MEMORY);
    };
    let Ok(errors) = Box::new(alloc, rt.stderr()) else {
        return fail(&rt, "out of memory", NO_MEMORY);
    };
    let output: Box<dyn Write + Drop> = output;
    let errors: Box<dyn Write + Drop> = errors;
    let mut source = StreamSource::new(rt.stdin());
    let mut sink = StreamSink::new(output);
    let mut complaints = StreamSink::new(errors);
    let mut clock = SystemClock::new(rt);
    let path = match &asked.journal {
        Some(path) if path.as_str() != "-" => path.as_str(),
        _ => {
            let disk = VolatileDisk::new(alloc);
            let words = &asked.words;
            let ran = run_offline(
                alloc,
                words,
                &mut source,
                &mut sink,
                &mut complaints,
                disk,
                &mut clock,
            );
            return ExitCode::from(ran.status);
        }
    };
    let Ok(disk) = FileDisk::open(&rt, path) else {
        return fail(&rt, "cannot open", CANNOT_OPEN);
    };
    let words = &asked.words;
    let ran = run_offline(
        alloc,
        words,
        &mut source,
        &mut sink,
        &mut complaints,
        disk,
        &mut clock,
    );
    ExitCode::from(ran.status)
}
