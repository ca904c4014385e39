//! The document of a policy.
ghost use Rattle.std.specs.Prelude.{◌≡◌, Ok, IfOk, IfErr, option_map, codes};
ghost use Rattle.ndjson_load.specs.Mappings.{IfBad};
ghost use Rattle.serde_json.specs.View.{view, members_view};
ghost use Rattle.policy_json.specs.Policies.{policy_in, policy_text, sole_member};

use crate::PolicyText;
use crate::policy::policy_of;
use ndjson_load::{MappingCause, MappingError, read_document};
use serde_json::{Map, Value as Json};
use std::alloc::{AllocError, Global};

/// The policy of a document, which is an object of the one member `match`.
///
/// Bytes that are no readable JSON are `NotJson`, and any other document is `NotMatchPolicy`.
pub fn read_policy(alloc: Global, bytes: &[u8]) -> Result<PolicyText, MappingError>
    ensures ok { IfOk result (λ policy. policy_text bytes.now ≡ Ok policy) }
    ensures bad { IfErr result (λ error. IfBad error (λ cause. policy_text bytes.now ≡ Err cause)) }
{
    let Some(document) = read_document(alloc, bytes)? else {
        return Err(MappingError::Bad {
            cause: MappingCause::NotJson,
        });
    };
    match policy_in(alloc, &document)? {
        Some(policy) => Ok(policy),
        None => Err(MappingError::Bad {
            cause: MappingCause::NotMatchPolicy,
        }),
    }
}

fn policy_in(alloc: Global, document: &Json) -> Result<Option<PolicyText>, AllocError>
    ensures { IfOk result (λ policy. policy ≡ policy_in (view document.now)) }
{
    let Json::Object(members) = document else {
        return Ok(None);
    };
    match sole_member(members) {
        None => Ok(None),
        Some(value) => policy_of(alloc, value),
    }
}

/// The value of the member `match`, where there is no other member.
fn sole_member(members: &Map<String, Json>) -> Option<&Json>
    ensures { option_map (λ member. view member.now) result ≡ sole_member (codes "match") (members_view members.now.entries) }
{
    let mut entries = members.iter();
    let (key, value) = entries.next()?;
    match entries.next() {
        Some(_) => None,
        None => if key.as_str() == "match" {
            Some(value)
        } else {
            None
        },
    }
}
