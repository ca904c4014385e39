ghost use Rattle.std.specs.Prelude.{◌≡◌, ◌++◌, ℕ, List, IfOk, OnOk};
ghost use Rattle.std.specs.String.{string_bytes};
ghost use Rattle.answer_text.specs.Cells.{cell_text};
ghost use Rattle.answer_text.specs.Txt.{printed};

use answer_text::{push_cell, push_printed};
use esql_types::{Cell, Column};
use std::alloc::{AllocError, Global};

/// What has a place in a line of the layout `txt`.
pub trait Print {
    /// Its text, in which no character is replaced yet.
    ghost text: { Self → List ℕ };

    /// Writes that text.
    fn push_text(&self, out: &mut String) -> Result<(), AllocError>
        ensures { OnOk result (string_bytes out.new ≡ string_bytes out.old ++ text self.now) };
}

impl Print for Column {
    ghost text = { λ column. column.name };

    fn push_text(&self, out: &mut String) -> Result<(), AllocError> {
        out.push_str(self.name.as_str())
    }
}

impl Print for Cell {
    ghost text = { cell_text };

    fn push_text(&self, out: &mut String) -> Result<(), AllocError> {
        push_cell(out, self)
    }
}

/// Memory in which one text after another is printed.
#[derive(Drop)]
pub struct Scratch {
    text: String,
    printed: String,
}

impl Scratch {
    pub fn new(alloc: Global) -> Scratch {
        Scratch {
            text: String::new(alloc),
            printed: String::new(alloc),
        }
    }

    /// An item as it is printed, which stands until the next is.
    pub fn print<T: Print>(&mut self, item: &T) -> Result<&str, AllocError>
        ensures { IfOk result (λ text. text.now ≡ printed (T.text item.now)) }
    {
        self.text.clear();
        item.push_text(&mut self.text)?;
        self.printed.clear();
        push_printed(&mut self.printed, self.text.as_str())?;
        Ok(self.printed.as_str())
    }
}
