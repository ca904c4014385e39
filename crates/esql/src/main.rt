//! The command `esql`: answers one query, and ends with its status.
#![tactic(auto)]

use answer_text::out_of_memory;
use esql_io::{DirFiles, Sink, StdSink, write_whole};
use esql_run::{Status, run};
use esql_types::{CrateMaker, Seq};
use std::alloc::{AllocError, Global};
use std::env::FillError;
use std::process::ExitCode;
use std::rt::Env;

/// How many bytes are first made ready for a word.
const FIRST_LENGTH: usize = 256;

fn main(rt: HostRuntime) -> ExitCode {
    let alloc = rt.alloc();
    let mut out = StdSink::new(rt.stdout());
    let mut err = StdSink::new(rt.stderr());
    let status = match words(alloc, &rt) {
        Ok(words) => {
            let mut files = DirFiles::new(&rt);
            let mut maker = CrateMaker::new(Seq::new(alloc));
            let words = words.as_slice();
            run(alloc, words, &mut files, &mut maker, &mut out, &mut err)
        }
        Err(_) => without_words(&mut err),
    };
    ExitCode::from(status.code())
}

/// The words of the command line, without the program's name.
fn words<E: Env>(alloc: Global, env: &E) -> Result<Vec<String>, AllocError> {
    let mut words = Vec::new(alloc);
    for number in 1..usize::MAX {
        match word_at(alloc, env, number)? {
            Some(word) => words.push(word)?,
            None => break,
        }
    }
    Ok(words)
}

/// One word, with U+FFFD for each part of it that is no UTF-8. What is made ready for it doubles until it fits, since its
/// length is not told.
fn word_at<E: Env>(alloc: Global, env: &E, number: usize) -> Result<Option<String>, AllocError> {
    let mut length = FIRST_LENGTH;
    loop {
        let mut bytes = vec![in alloc; 0u8; length]?;
        match env.arg(number, &mut bytes) {
            Ok(count) => return Ok(Some(String::from_utf8_lossy(alloc, &bytes[..count])?)),
            Err(FillError::NotPresent) => return Ok(None),
            Err(FillError::TooLong) => length *= 2,
        }
    }
}

/// The status where memory was refused before the words were had.
fn without_words<E: Sink>(err: &mut E) -> Status {
    match write_whole(err, out_of_memory().as_bytes()) {
        Ok(()) => Status::NoMemory,
        Err(_) => Status::WriteFault,
    }
}
