ghost use Rattle.std.specs.Prelude.{◌≡◌, ◌<◌, ◌++◌, ◌∷◌, [], length, flat_map, map, IfOk, OnOk, OnErr, MatchOption};
ghost use Rattle.function_rules.specs.Cuts.{IsCut, Lacks};
ghost use Rattle.function_rules.specs.Texts.{joined, split_of};
ghost use Rattle.plain_functions.specs.Keywords.{keyword, text_in};

use esql_types::{Cell, Text, Value};
use std::alloc::{AllocError, Global};
use std::marker::Model;

/// A text that grows piece by piece, which contracts see as its UTF-8 bytes so far.
#[derive(Drop)]
pub struct TextBuilder {
    text: String,
}

impl Model for TextBuilder {
    ghost use Rattle.std.specs.Prelude.{List, ℕ};
    ghost use Rattle.std.specs.String.{string_bytes};

    ghost Value = { List ℕ };

    ghost view = { λ t. string_bytes t.text };
}

impl TextBuilder {
    /// The empty text, which takes no memory.
    pub fn new(alloc: Global) -> TextBuilder
        ensures { result ≡ [] }
    {
        TextBuilder {
            text: String::new(alloc),
        }
    }

    /// Adds a text at the end; where memory is refused the text is as before.
    pub fn push(&mut self, text: &str) -> Result<(), AllocError>
        ensures ok { OnOk result (self.new ≡ self.old ++ text.now) }
        ensures err { OnErr result (self.new ≡ self.old) }
    {
        self.text.push_str(text)
    }

    pub fn finish(self) -> Text
        ensures { result ≡ self }
    {
        let TextBuilder { text } = self;
        Text::from_string(text)
    }
}

/// CONCAT: texts one behind another.
pub fn concat(alloc: Global, texts: &[&str]) -> Result<Text, AllocError>
    ensures { IfOk result (λ whole. whole ≡ flat_map (λ text. text.now) texts.now) }
{
    let mut bytes = 0usize;
    for text in texts {
        bytes = bytes.saturating_add(text.len());
    }
    let mut whole = String::with_capacity(alloc, bytes)?;
    for text in texts {
        whole.push_str(text)?;
    }
    Ok(Text::from_string(whole))
}

// The text before the first occurrence of the delimiter, and the text behind it.
fn cut<'a>(text: &'a str, delimiter: &str) -> Option<(&'a str, &'a str)>
    ensures { MatchOption result (Lacks delimiter.now text.now) (λ parts. IsCut delimiter.now text.now parts.0.now parts.1.now) }
{
    text.split_once(delimiter)
}

fn push_piece(alloc: Global, cell: &mut Cell, piece: &str) -> Result<(), AllocError>
    ensures { OnOk result (cell.new ≡ cell.old ++ map keyword (piece.now ∷ [])) }
{
    let text = Text::from_str(alloc, piece)?;
    cell.push(Value::Text(text))
}

/// SPLIT: the pieces of a text between the occurrences of a delimiter from the left, empty ones kept.
pub fn split(alloc: Global, text: &str, delimiter: &str) -> Result<Cell, AllocError>
    requires { 0 < length delimiter.now }
    ensures { IfOk result (λ cell. cell ≡ map keyword (split_of text.now delimiter.now)) }
{
    let mut cell = Cell::null(alloc);
    let mut rest = text;
    while let Some((front, back)) = cut(rest, delimiter) {
        push_piece(alloc, &mut cell, front)?;
        rest = back;
    }
    push_piece(alloc, &mut cell, rest)?;
    Ok(cell)
}

// The text of a keyword, and the empty one of another value.
fn text_in(value: &Value) -> &str
    ensures { result.now ≡ text_in value.now }
{
    match value {
        Value::Text(text) => text.as_str(),
        Value::Int(_) | Value::Long(_) | Value::Bool(_) => "",
    }
}

/// MV_CONCAT: the texts of a cell with a delimiter between each two.
pub fn join(alloc: Global, delimiter: &str, values: &[Value]) -> Result<Text, AllocError>
    ensures { IfOk result (λ whole. whole ≡ joined delimiter.now (map text_in values.now)) }
{
    let mut whole = String::new(alloc);
    if let Some((head, rest)) = values.split_first() {
        whole.push_str(text_in(head))?;
        for value in rest {
            whole.push_str(delimiter)?;
            whole.push_str(text_in(value))?;
        }
    }
    Ok(Text::from_string(whole))
}
