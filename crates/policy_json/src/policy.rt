//! The members of a policy.
ghost use Rattle.std.specs.Prelude.{◌≡◌, IfOk, option_map, option_and_then, codes};
ghost use Rattle.serde_json.specs.Find.{get_member, as_str};
ghost use Rattle.serde_json.specs.View.{view, members_view};
ghost use Rattle.policy_json.specs.Policies.{has_parts_only, is_part, names_of, policy_from, policy_of, texts_of};

use crate::texts::{names_of, text_of, texts_of};
use esql_types::{Seq, Text};
use serde_json::{Map, Value as Json};
use std::alloc::{AllocError, Global};

/// A policy: the names of its tables, the field that is matched, and the fields that are taken.
#[derive(Debug, Drop)]
pub struct PolicyText {
    pub indices: Seq<Text>,
    pub match_field: Text,
    pub fields: Seq<Text>,
}

/// The policy that the value of `match` is.
pub(crate) fn policy_of(alloc: Global, value: &Json) -> Result<Option<PolicyText>, AllocError>
    ensures { IfOk result (λ policy. policy ≡ policy_of (view value.now)) }
{
    let Json::Object(members) = value else {
        return Ok(None);
    };
    if !has_parts_only(members) {
        return Ok(None);
    }
    policy_from(alloc, members)
}

fn policy_from(alloc: Global, members: &Map<String, Json>) -> Result<Option<PolicyText>, AllocError>
    ensures { IfOk result (λ policy. policy ≡ policy_from (members_view members.now.entries)) }
{
    let Some(indices) = names_at(alloc, members)? else {
        return Ok(None);
    };
    let Some(match_field) = text_at(alloc, members)? else {
        return Ok(None);
    };
    let Some(fields) = texts_at(alloc, members)? else {
        return Ok(None);
    };
    Ok(Some(PolicyText {
        indices,
        match_field,
        fields,
    }))
}

fn names_at(alloc: Global, members: &Map<String, Json>) -> Result<Option<Seq<Text>>, AllocError>
    ensures { IfOk result (λ names. names ≡ option_and_then names_of (get_member (codes "indices") (members_view members.now.entries))) }
{
    match member_of(members, "indices") {
        None => Ok(None),
        Some(value) => names_of(alloc, value),
    }
}

fn text_at(alloc: Global, members: &Map<String, Json>) -> Result<Option<Text>, AllocError>
    ensures { IfOk result (λ text. text ≡ option_and_then as_str (get_member (codes "match_field") (members_view members.now.entries))) }
{
    match member_of(members, "match_field") {
        None => Ok(None),
        Some(value) => text_of(alloc, value),
    }
}

fn texts_at(alloc: Global, members: &Map<String, Json>) -> Result<Option<Seq<Text>>, AllocError>
    ensures { IfOk result (λ texts. texts ≡ option_and_then texts_of (get_member (codes "enrich_fields") (members_view members.now.entries))) }
{
    match member_of(members, "enrich_fields") {
        None => Ok(None),
        Some(value) => texts_of(alloc, value),
    }
}

fn member_of<'a>(members: &'a Map<String, Json>, name: &str) -> Option<&'a Json>
    ensures { option_map (λ member. view member.now) result ≡ get_member name.now (members_view members.now.entries) }
{
    members.get(name)
}

fn has_parts_only(members: &Map<String, Json>) -> bool
    ensures { result ≡ has_parts_only (members_view members.now.entries) }
{
    for (key, _) in members.iter() {
        if !is_part(key.as_str()) {
            return false;
        }
    }
    true
}

fn is_part(key: &str) -> bool
    ensures { result ≡ is_part key.now }
{
    key == "indices" || key == "match_field" || key == "enrich_fields"
}
