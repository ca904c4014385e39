ghost use Rattle.std.specs.Prelude.{◌≡◌, ◌≤◌, map, IfOk, IfErr, Some, None};
ghost use Rattle.std.specs.String.{string_bytes};
ghost use Rattle.esql_words.specs.declared.options.WordsError.TheVariants.{Usage};
ghost use Rattle.esql_words.specs.Command.{bytes_of, given_by};
ghost use Rattle.esql_words.specs.Values.{RowsFit};
ghost use Rattle.esql_words.specs.Words as spec;
ghost use Rattle.esql_words.specs.Words.{options_of};

use crate::command::{Texts, texts_of};
use crate::options::{Options, WordsError};
use crate::values::{format_in, page_size_in, request_in};
use esql_types::Text;
use std::alloc::{AllocError, Global};

fn owned(alloc: Global, text: Option<&str>) -> Result<Option<Text>, AllocError>
    ensures { IfOk result (λ copy. copy ≡ bytes_of text.entry) }
{
    match text {
        None => Ok(None),
        Some(text) => {
            let text = Text::from_str(alloc, text)?;
            Ok(Some(text))
        }
    }
}

fn options_in(alloc: Global, texts: &Texts<'_>) -> Result<Options, WordsError>
    ensures read { IfOk result (λ options. spec.options_in (given_by texts.now) ≡ Some options) }
    ensures refused { IfErr result (λ error. error ≡ Usage → spec.options_in (given_by texts.now) ≡ None) }
    ensures page { IfOk result (λ options. (1 ≤ options.page_size) × (options.page_size ≤ 65536)) }
    ensures rows { IfOk result (λ options. RowsFit options.request) }
{
    if texts.explain {
        return Err(WordsError::Usage);
    }
    let Some(page_size) = page_size_in(texts.page_size) else {
        return Err(WordsError::Usage);
    };
    let Some(format) = format_in(texts.format) else {
        return Err(WordsError::Usage);
    };
    let request = request_in(alloc, texts.query, texts.generate)?;
    let folder = owned(alloc, texts.folder)?;
    Ok(Options {
        folder,
        page_size,
        format,
        request,
    })
}

/// What the words of the command line ask for, without the program's name:
/// `[--data DIR] [--page-size N] [--format txt|csv|json] [--explain] (QUERY | --generate SEED,ROWS)`.
///
/// N is ASCII digits for 1 to 65,536, SEED for at most 18446744073709551615 and ROWS for 1 to 1,000,000, with any
/// number of zeros before them. `Usage` comes exactly where the words are not accepted: where `clap` finds a fault in
/// them (so at `--help`), at any other value, and at both or neither of QUERY and `--generate`. So far it also comes at
/// `--explain`. `Memory` comes where an allocation was refused.
pub fn read_words(alloc: Global, words: &[String]) -> Result<Options, WordsError>
    ensures read { IfOk result (λ options. options_of (map string_bytes words.now) ≡ Some options) }
    ensures refused { IfErr result (λ error. error ≡ Usage → options_of (map string_bytes words.now) ≡ None) }
    ensures page { IfOk result (λ options. (1 ≤ options.page_size) × (options.page_size ≤ 65536)) }
    ensures rows { IfOk result (λ options. RowsFit options.request) }
{
    match texts_of(alloc, words)? {
        Some(texts) => options_in(alloc, &texts),
        None => Err(WordsError::Usage),
    }
}
