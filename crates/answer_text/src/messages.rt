//! The lines that are written in place of an answer and of a refusal.
ghost use Rattle.std.specs.Prelude.{◌≡◌, IfOk};
ghost use Rattle.answer_text.specs.Messages.{out_of_memory, usage, cannot_read, bad_data_line};

use esql_types::Text;
use std::alloc::{AllocError, Global};

/// The line that is written where a call on a file failed.
pub fn cannot_read(alloc: Global, file: &str) -> Result<Text, AllocError>
    ensures { IfOk result (λ t. t ≡ cannot_read file.now) }
{
    let mut out = String::new(alloc);
    write!(out, "cannot read {file}\n")?;
    Ok(Text::from_string(out))
}

/// The line that is written where a file is bad, with the message that names it.
pub fn bad_data_line(alloc: Global, message: &str) -> Result<Text, AllocError>
    ensures { IfOk result (λ t. t ≡ bad_data_line message.now) }
{
    let mut out = String::new(alloc);
    write!(out, "{message}\n")?;
    Ok(Text::from_string(out))
}

/// The line that is written where memory was refused.
pub fn out_of_memory() -> &'static str
    ensures { result.now ≡ out_of_memory }
{
    "out of memory\n"
}

/// The line that is written where the words are not those of a call.
pub fn usage() -> &'static str
    ensures { result.now ≡ usage }
{
    "usage: esql [--data DIR] [--page-size N] [--format txt|csv|json] [--explain] (QUERY | --generate SEED,ROWS)\n"
}
