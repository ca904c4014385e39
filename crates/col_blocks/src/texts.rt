ghost use Rattle.std.specs.Prelude.{◌≡◌, [], ◌∷◌, ◌++◌, ◌<◌, length, slice_index_or, OnOk, OnErr};

use crate::ends::begin_of;
use std::alloc::{AllocError, Global};
use std::marker::Model;

/// A list of texts, one behind the other in one buffer of bytes.
#[derive(Debug, Drop)]
pub struct Texts {
    bytes: String,
    ends: Vec<usize>,
}

impl Model for Texts {
    ghost use Rattle.std.specs.Prelude.{List, ℕ};
    ghost use Rattle.std.specs.String.{string_bytes};
    ghost use Rattle.col_blocks.specs.Pieces.{pieces, IsCutText};

    ghost Value = { List (List ℕ) };

    ghost view = { λ t. pieces (string_bytes t.bytes) 0 t.ends.items };

    ghost invariant = { λ t. IsCutText (string_bytes t.bytes) t.ends.items };
}

impl Texts {
    pub fn new(alloc: Global) -> Texts
        ensures { result ≡ [] }
    {
        Texts {
            bytes: String::new(alloc),
            ends: Vec::new(alloc),
        }
    }

    pub fn len(&self) -> usize
        ensures { result ≡ length self.now }
    {
        self.ends.len()
    }

    pub fn at(&self, place: usize) -> &str
        requires { place < length self.now }
        ensures { result.now ≡ slice_index_or self.now place [] }
    {
        let begin = begin_of(self.ends.as_slice(), place);
        let bytes = self.bytes.as_str();
        &bytes[begin..self.ends[place]]
    }

    /// Adds a text at the end; where memory is refused the list is as before.
    pub fn push(&mut self, text: &str) -> Result<(), AllocError>
        ensures ok { OnOk result (self.new ≡ self.old ++ text.now ∷ []) }
        ensures err { OnErr result (self.new ≡ self.old) }
    {
        self.ends.reserve(1)?;
        self.bytes.push_str(text)?;
        self.ends.push_reserved(self.bytes.len());
        Ok(())
    }
}
