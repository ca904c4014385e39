use super::*;
use ndjson_load::{MappingCause, MappingError};
use std::alloc::{AllocError, Global};
use std::test::Fail;

fn push_texts(out: &mut String, texts: &[esql_types::Text]) -> Result<(), AllocError> {
    for text in texts {
        write!(out, "{} ", text.as_str())?;
    }
    Ok(())
}

fn push_policy(out: &mut String, policy: &PolicyText) -> Result<(), AllocError> {
    push_texts(out, policy.indices.as_slice())?;
    write!(out, "| {} | ", policy.match_field.as_str())?;
    push_texts(out, policy.fields.as_slice())
}

fn push_cause(out: &mut String, cause: &MappingCause) -> Result<(), AllocError> {
    match cause {
        MappingCause::NotJson => out.push_str("NotJson"),
        MappingCause::NotMatchPolicy => out.push_str("NotMatchPolicy"),
        _ => out.push_str("?"),
    }
}

// The policy of a text, or its cause.
fn policy(alloc: Global, bytes: &str) -> Result<String, AllocError> {
    let mut out = String::new(alloc);
    match read_policy(alloc, bytes.as_bytes()) {
        Ok(policy) => push_policy(&mut out, &policy)?,
        Err(MappingError::Bad { cause }) => push_cause(&mut out, &cause)?,
        Err(MappingError::Memory(error)) => return Err(error),
    }
    Ok(out)
}

const NONE: &str = "NotMatchPolicy";

// A text, and the policy that it is.
const CASES: &[(&str, &str)] = &[
    (
        "{\"match\":{\"indices\":[\"l\",\"m\"],\"match_field\":\"k\",\"enrich_fields\":[\"a\",\"b\"]}}",
        "l m | k | a b ",
    ),
    (
        "{\"match\":{\"enrich_fields\":\"a\",\"match_field\":\"k\",\"indices\":\"l\"}}",
        "l | k | a ",
    ),
    (
        "{\"match\":{\"indices\":[\"l#\"],\"match_field\":\"k\",\"enrich_fields\":\"a\"}}",
        NONE,
    ),
    (
        "{\"match\":{\"indices\":[\"l\",1],\"match_field\":\"k\",\"enrich_fields\":\"a\"}}",
        NONE,
    ),
    ("{\"range\":{\"indices\":\"l\"}}", NONE),
    ("{\"match\":{}", "NotJson"),
];

#[test]
fn a_document_is_a_policy(rt: HostRuntime) -> Result<(), Fail> {
    for (bytes, wanted) in CASES {
        let answer = policy(rt.alloc(), bytes)?;
        assert_eq!(rt; answer.as_str(), *wanted);
    }
    Ok(())
}
