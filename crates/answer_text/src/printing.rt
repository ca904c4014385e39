ghost use Rattle.std.specs.Prelude.{◌≡◌, ◌<◌, ◌/◌, ◌%◌, [], ◌∷◌, ◌++◌, OnOk, codes};
ghost use Rattle.std.specs.Char.{digit_char};
ghost use Rattle.std.specs.String.{string_bytes};
ghost use Rattle.answer_text.specs.Txt.{printed, printed_character, width_of};

use std::alloc::AllocError;

/// Writes a name or a cell's text as the layout `txt` prints it: line feed, carriage return and tab as `\n`, `\r` and
/// `\t`, other characters below 32 as `\x` and two lower hexadecimal digits.
pub fn push_printed(out: &mut String, text: &str) -> Result<(), AllocError>
    ensures { OnOk result (string_bytes out.new ≡ string_bytes out.old ++ printed text.now) }
{
    for character in text.chars() {
        push_character(out, character)?;
    }
    Ok(())
}

fn push_character(out: &mut String, character: char) -> Result<(), AllocError>
    ensures { OnOk result (string_bytes out.new ≡ string_bytes out.old ++ printed_character character) }
{
    match character {
        '\n' => out.push_str("\\n"),
        '\r' => out.push_str("\\r"),
        '\t' => out.push_str("\\t"),
        '\0'..='\x1f' => push_code(out, character as u32),
        _ => out.push(character),
    }
}

fn push_code(out: &mut String, code: u32) -> Result<(), AllocError>
    requires { code < 256 }
    ensures { OnOk result (string_bytes out.new ≡ string_bytes out.old ++ codes "\\x" ++ digit_char (code / 16) ∷ digit_char (code % 16) ∷ []) }
{
    out.push_str("\\x")?;
    out.push(hex_digit(code / 16))?;
    out.push(hex_digit(code % 16))
}

fn hex_digit(digit: u32) -> char
    requires { digit < 16 }
    ensures { result ≡ digit_char digit }
{
    match char::from_digit(digit, 16) {
        Some(character) => character,
        None => unreachable!(),
    }
}

/// How many characters a text has, which is how wide it stands in the layout `txt`.
pub fn width(text: &str) -> usize
    ensures { result ≡ width_of text.now }
{
    text.chars().count()
}
