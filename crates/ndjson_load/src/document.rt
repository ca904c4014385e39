//! JSON that is read from bytes.
ghost use Rattle.std.specs.Prelude.{◌≡◌, IfOk, option_map};
ghost use Rattle.serde_json.specs.View.{view};
ghost use Rattle.ndjson_load.specs.Documents.{document_of};

use serde_json::{Category, Value as Json};
use std::alloc::{AllocError, Global};

/// The JSON value that bytes spell, or `None` where they spell none.
pub fn read_document(alloc: Global, bytes: &[u8]) -> Result<Option<Json>, AllocError>
    ensures { IfOk result (λ json. option_map view json ≡ document_of bytes.now) }
{
    match Json::from_slice(alloc, bytes) {
        Ok(json) => Ok(Some(json)),
        Err(error) => match error.classify() {
            Category::Memory => Err(AllocError),
            _ => Ok(None),
        },
    }
}
