use super::*;
use std::alloc::{AllocError, Global};
use std::test::Fail;

const USAGE: &str = "usage";

/// Words with a bar after each, and what they ask for: folder, page size, format and request.
const CASES: [(&str, &str); 24] = [
    ("ROW a = 1|", ". 1024 Txt ROW a = 1"),
    ("|", ". 1024 Txt "),
    ("help|", ". 1024 Txt help"),
    ("--|--x|", ". 1024 Txt --x"),
    (
        "--data|/d e|--page-size=65536|--format|csv|q|",
        "/d e 65536 Csv q",
    ),
    ("q|--page-size|00001|--format=json|", ". 1 Json q"),
    (
        "--generate|007,0001000000|",
        ". 1024 Txt 1000000 rows from 7",
    ),
    (
        "--generate|18446744073709551615,1|",
        ". 1024 Txt 1 rows from 18446744073709551615",
    ),
    ("", USAGE),
    ("a|b|", USAGE),
    ("q|--page-size|0|", USAGE),
    ("q|--page-size|65537|", USAGE),
    ("q|--page-size|+1|", USAGE),
    ("q|--page-size|1|--page-size|1|", USAGE),
    ("q|--format|JSON|", USAGE),
    ("q|--format|", USAGE),
    ("--generate|18446744073709551616,1|", USAGE),
    ("--generate|7,0|", USAGE),
    ("--generate|7,1000001|", USAGE),
    ("--generate|7|", USAGE),
    ("--generate|7,1,1|", USAGE),
    ("--generate|0,1|ROW a = 1|", USAGE),
    ("--explain|q|", USAGE),
    ("--help|", USAGE),
];

fn words_of(alloc: Global, text: &str) -> Result<Vec<String>, AllocError> {
    let mut words = Vec::new(alloc);
    let mut word = String::new(alloc);
    for character in text.chars() {
        if character == '|' {
            words.push(word)?;
            word = String::new(alloc);
        } else {
            word.push(character)?;
        }
    }
    Ok(words)
}

fn told(alloc: Global, options: &Options) -> Result<String, AllocError> {
    let folder = match &options.folder {
        Some(folder) => folder.as_str(),
        None => ".",
    };
    let request = match &options.request {
        Request::Query { text } => String::from_str(alloc, text.as_str())?,
        Request::Generate { seed, rows } => format!(in alloc; "{rows} rows from {seed}")?,
    };
    format!(in alloc;
        "{folder} {} {:?} {request}",
        options.page_size, options.format
    )
}

fn outcome_of(alloc: Global, words: &str) -> Result<String, AllocError> {
    let words = words_of(alloc, words)?;
    match read_words(alloc, words.as_slice()) {
        Ok(options) => told(alloc, &options),
        Err(WordsError::Usage) => String::from_str(alloc, USAGE),
        Err(WordsError::Memory(refused)) => Err(refused),
    }
}

#[test]
fn what_words_ask_for(rt: HostRuntime) -> Result<(), Fail> {
    for (words, want) in CASES {
        let told = outcome_of(rt.alloc(), words)?;
        assert_eq!(rt; told.as_str(), want);
    }
    Ok(())
}

#[test]
fn zeros_before_a_number(rt: HostRuntime) -> Result<(), Fail> {
    let mut size = String::new(rt.alloc());
    for _ in 0..10_000 {
        size.push('0')?;
    }
    let words = format!(in rt.alloc(); "q|--page-size|{size}7|")?;
    let told = outcome_of(rt.alloc(), words.as_str())?;
    assert_eq!(rt; told.as_str(), ". 7 Txt q");
    Ok(())
}
