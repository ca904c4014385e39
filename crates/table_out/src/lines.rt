ghost use Rattle.std.specs.Prelude.{◌≡◌, ◌<◌, ◌++◌, OnOk, length, map, replicate, zip, codes, if◌then◌else◌};
ghost use Rattle.std.specs.String.{string_bytes};
ghost use Rattle.answer_text.specs.Txt.{line_of, padded, printed, dashes};

use crate::printed::{Print, Scratch};
use answer_text::width;
use std::alloc::AllocError;

/// Writes the items as a line, each in its column.
pub fn push_line<T: Print>(
    out: &mut String,
    widths: &[usize],
    items: &[T],
    scratch: &mut Scratch,
) -> Result<(), AllocError>
    requires { length items.now ≡ length widths.now }
    ensures { OnOk result (string_bytes out.new ≡ string_bytes out.old ++ (line_of (zip widths.now (map (λ item. printed (T.text item)) items.now)) ++ codes "\n")) }
{
    push_items(out, widths, items, scratch)?;
    out.push_str("\n")
}

fn push_items<T: Print>(
    out: &mut String,
    widths: &[usize],
    items: &[T],
    scratch: &mut Scratch,
) -> Result<(), AllocError>
    requires { length items.now ≡ length widths.now }
    ensures { OnOk result (string_bytes out.new ≡ string_bytes out.old ++ line_of (zip widths.now (map (λ item. printed (T.text item)) items.now))) }
{
    for (place, item) in items.iter().enumerate() {
        let text = scratch.print(item)?;
        push_text(out, widths[place], text, place + 1 == items.len())?;
    }
    Ok(())
}

fn push_text(out: &mut String, wide: usize, text: &str, is_last: bool) -> Result<(), AllocError>
    ensures { OnOk result (string_bytes out.new ≡ string_bytes out.old ++ (if is_last then text.now else padded wide text.now ++ codes " | ")) }
{
    if is_last {
        return out.push_str(text);
    }
    push_padded(out, wide, text)?;
    out.push_str(" | ")
}

fn push_padded(out: &mut String, wide: usize, text: &str) -> Result<(), AllocError>
    ensures { OnOk result (string_bytes out.new ≡ string_bytes out.old ++ padded wide text.now) }
{
    out.push_str(text)?;
    push_repeated(out, ' ', wide.saturating_sub(width(text)))
}

pub fn push_dashes(out: &mut String, widths: &[usize]) -> Result<(), AllocError>
    ensures { OnOk result (string_bytes out.new ≡ string_bytes out.old ++ (dashes widths.now ++ codes "\n")) }
{
    push_joined(out, widths)?;
    out.push_str("\n")
}

fn push_joined(out: &mut String, widths: &[usize]) -> Result<(), AllocError>
    ensures { OnOk result (string_bytes out.new ≡ string_bytes out.old ++ dashes widths.now) }
{
    match widths {
        [] => Ok(()),
        [first, rest @ ..] => {
            push_repeated(out, '-', *first)?;
            for wide in rest {
                out.push_str("-+-")?;
                push_repeated(out, '-', *wide)?;
            }
            Ok(())
        }
    }
}

fn push_repeated(out: &mut String, character: char, count: usize) -> Result<(), AllocError>
    requires { character < 128 }
    ensures { OnOk result (string_bytes out.new ≡ string_bytes out.old ++ replicate count character) }
{
    for _ in 0..count {
        out.push(character)?;
    }
    Ok(())
}
