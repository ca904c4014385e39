ghost use Rattle.std.specs.Prelude.{◌≡◌, ◌≤◌, IfOk, IfErr, IfSome, Some, None};
ghost use Rattle.esql_words.specs.declared.options.WordsError.TheVariants.{Usage};
ghost use Rattle.esql_words.specs.Command.{bytes_of};
ghost use Rattle.esql_words.specs.Values as spec;

use crate::options::{Format, Request, WordsError};
use esql_types::Text;
use std::alloc::Global;

// The number that a text spells, where it has 64 bits; `parse` takes a plus, and a number has none.
fn number_of(text: &str) -> Option<u64>
    ensures { result ≡ spec.number_within 0 18446744073709551615 text.now }
{
    if text.starts_with('+') {
        return None;
    }
    text.parse::<u64>().ok()
}

fn if_within(least: u64, most: u64, number: u64) -> Option<u64>
    ensures is { result ≡ spec.if_within least most number }
    ensures within { IfSome result (λ number. (least ≤ number) × (number ≤ most)) }
{
    if least <= number && number <= most {
        Some(number)
    } else {
        None
    }
}

fn number_within(least: u64, most: u64, text: &str) -> Option<u64>
    ensures is { result ≡ spec.number_within least most text.now }
    ensures within { IfSome result (λ number. (least ≤ number) × (number ≤ most)) }
{
    match number_of(text) {
        Some(number) => if_within(least, most, number),
        None => None,
    }
}

fn count_within(most: u32, text: &str) -> Option<u32>
    ensures is { result ≡ spec.number_within 1 most text.now }
    ensures within { IfSome result (λ number. (1 ≤ number) × (number ≤ most)) }
{
    let number = number_within(1, u64::from(most), text)?;
    Some(number as u32)
}

pub fn page_size_in(text: Option<&str>) -> Option<u32>
    ensures is { result ≡ spec.page_size_in (bytes_of text.entry) }
    ensures within { IfSome result (λ number. (1 ≤ number) × (number ≤ 65536)) }
{
    match text {
        None => Some(1024),
        Some(text) => count_within(65536, text),
    }
}

fn format_named(name: &str) -> Option<Format>
    ensures { result ≡ spec.format_named name.now }
{
    match name {
        "txt" => Some(Format::Txt),
        "csv" => Some(Format::Csv),
        "json" => Some(Format::Json),
        _ => None,
    }
}

pub fn format_in(name: Option<&str>) -> Option<Format>
    ensures { result ≡ spec.format_in (bytes_of name.entry) }
{
    match name {
        None => Some(Format::Txt),
        Some(name) => format_named(name),
    }
}

fn generate_of(text: &str) -> Option<Request>
    ensures is { result ≡ spec.generate_of text.now }
    ensures rows { IfSome result spec.RowsFit }
{
    let (seed, rows) = text.split_once(',')?;
    let seed = number_within(0, u64::MAX, seed)?;
    let rows = count_within(1_000_000, rows)?;
    Some(Request::Generate { seed, rows })
}

pub fn request_in(
    alloc: Global,
    query: Option<&str>,
    generate: Option<&str>,
) -> Result<Request, WordsError>
    ensures read { IfOk result (λ request. spec.request_in (bytes_of query.entry) (bytes_of generate.entry) ≡ Some request) }
    ensures refused { IfErr result (λ error. error ≡ Usage → spec.request_in (bytes_of query.entry) (bytes_of generate.entry) ≡ None) }
    ensures rows { IfOk result spec.RowsFit }
{
    match (query, generate) {
        (Some(query), None) => {
            let text = Text::from_str(alloc, query)?;
            Ok(Request::Query { text })
        }
        (None, Some(text)) => generate_of(text).ok_or(WordsError::Usage),
        (None, None) => Err(WordsError::Usage),
        (Some(_), Some(_)) => Err(WordsError::Usage),
    }
}
