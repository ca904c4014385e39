ghost use Rattle.std.specs.Prelude.{◌≡◌, map, IfOk, option_map};
ghost use Rattle.std.specs.String.{string_bytes};
ghost use Rattle.clap.specs.Words.{app_of, found_of, rows_of, with_rule};
ghost use Rattle.esql_words.specs.Command as spec;

use clap::error::ErrorKind;
use clap::{Arg, ArgAction, ArgMatches, Command};
use std::alloc::{AllocError, Global};

/// The texts that words give.
#[derive(Clone, Copy)]
pub struct Texts<'a> {
    pub folder: Option<&'a str>,
    pub page_size: Option<&'a str>,
    pub format: Option<&'a str>,
    pub generate: Option<&'a str>,
    pub explain: bool,
    pub query: Option<&'a str>,
}

fn with_option<'a>(
    alloc: Global,
    command: Command<'a>,
    name: &'a str,
) -> Result<Command<'a>, AllocError>
    ensures { IfOk result (λ c. app_of c ≡ with_rule (app_of command.entry) (spec.option_rule name.entry.now)) }
{
    let option = Arg::new(alloc, name).long(name);
    command.arg(option)
}

fn with_flag<'a>(
    alloc: Global,
    command: Command<'a>,
    name: &'a str,
) -> Result<Command<'a>, AllocError>
    ensures { IfOk result (λ c. app_of c ≡ with_rule (app_of command.entry) (spec.flag_rule name.entry.now)) }
{
    let flag = Arg::new(alloc, name).long(name).action(ArgAction::SetTrue);
    command.arg(flag)
}

fn with_operand<'a>(
    alloc: Global,
    command: Command<'a>,
    name: &'a str,
) -> Result<Command<'a>, AllocError>
    ensures { IfOk result (λ c. app_of c ≡ with_rule (app_of command.entry) (spec.operand_rule name.entry.now)) }
{
    let operand = Arg::new(alloc, name);
    command.arg(operand)
}

#[tactic(auto, unfolding(crate::specs::Command::esql_app))]
fn esql_command<'a>(alloc: Global) -> Result<Command<'a>, AllocError>
    ensures { IfOk result (λ c. app_of c ≡ spec.esql_app) }
{
    let command = Command::new(alloc, "esql").no_binary_name(true);
    let command = with_option(alloc, command, "data")?;
    let command = with_option(alloc, command, "page-size")?;
    let command = with_option(alloc, command, "format")?;
    let command = with_option(alloc, command, "generate")?;
    let command = with_flag(alloc, command, "explain")?;
    with_operand(alloc, command, "query")
}

fn is_set(value: Option<&str>) -> bool
    ensures { result ≡ spec.is_set (spec.bytes_of value.entry) }
{
    matches!(value, Some("true"))
}

fn texts_in<'a>(matches: &ArgMatches<'a>) -> Texts<'a>
    ensures { spec.given_by result ≡ spec.given_in (rows_of (found_of matches.now)) }
{
    Texts {
        folder: matches.get_str("data"),
        page_size: matches.get_str("page-size"),
        format: matches.get_str("format"),
        generate: matches.get_str("generate"),
        explain: is_set(matches.get_str("explain")),
        query: matches.get_str("query"),
    }
}

/// The texts that words give, or `None` where the command does not take the words.
pub fn texts_of<'a>(alloc: Global, words: &'a [String]) -> Result<Option<Texts<'a>>, AllocError>
    ensures { IfOk result (λ texts. option_map spec.given_by texts ≡ spec.given_of spec.esql_app (map string_bytes words.entry.now)) }
{
    let command = esql_command(alloc)?;
    match command.try_get_matches_from(words) {
        Ok(matches) => Ok(Some(texts_in(&matches))),
        Err(error) => match error.kind() {
            ErrorKind::OutOfMemory => Err(AllocError),
            _ => Ok(None),
        },
    }
}
