ghost use Rattle.std.specs.Prelude.{◌≡◌, ◌<◌};
ghost use Rattle.std.specs.Str.{IsCharBoundary};
ghost use Rattle.esql_types.specs.Places.{line_at, column_at};
ghost use Rattle.esql_types.specs.Spans.{SpanFits, text_at};

/// A part of a query: byte offsets of its start and of its end, which is excluded.
#[derive(Clone, Copy, Debug, PartialEq, Eq)]
pub struct Span {
    pub from: u32,
    pub to: u32,
}

/// A place in a query, by line and column, both from 1.
#[derive(Clone, Copy, Debug, PartialEq, Eq)]
pub struct Place {
    pub line: u32,
    pub column: u32,
}

/// The place of a byte offset: the line is 1 plus the line feeds before it, the column 1 plus the characters since the
/// last of them. Takes no memory.
pub fn place_of(text: &str, at: u32) -> Place
    requires short { at < 4294967295 }
    requires boundary { IsCharBoundary text.now at }
    ensures line { result.line ≡ line_at text.now at }
    ensures column { result.column ≡ column_at text.now at }
{
    let mut line = 1;
    let mut column = 1;
    let front = &text[..at as usize];
    for character in front.chars() {
        if character == '\n' {
            line += 1;
            column = 1;
        } else {
            column += 1;
        }
    }
    Place { line, column }
}

/// The part of a text that a span covers.
pub fn text_at(text: &str, span: Span) -> &str
    requires { SpanFits text.now span }
    ensures { result.now ≡ text_at text.now span }
{
    &text[span.from as usize..span.to as usize]
}
