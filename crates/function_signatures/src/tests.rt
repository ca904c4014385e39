use super::*;
use esql_plan::Function;
use esql_types::Kind;

#[test]
fn calls_by_their_kinds(rt: HostRuntime) {
    use Kind::{Boolean, Integer, Keyword, Long, Null};
    let cases: [(Function, &[Kind], Result<Kind, usize>); 14] = [
        (Function::Add, &[Integer, Long], Ok(Long)),
        (Function::Sub, &[Integer, Null], Ok(Integer)),
        (Function::Mul, &[Integer, Boolean], Err(1)),
        (Function::Abs, &[Null], Ok(Null)),
        (Function::Lt, &[Boolean, Boolean], Err(0)),
        (Function::In, &[Integer, Null, Keyword], Err(2)),
        (Function::Greatest, &[Integer, Long], Err(1)),
        (Function::Coalesce, &[Null, Long, Null], Ok(Long)),
        (
            Function::Case,
            &[Boolean, Keyword, Boolean, Null, Keyword],
            Ok(Keyword),
        ),
        (Function::Case, &[Boolean, Boolean, Integer], Err(2)),
        (Function::Like, &[Keyword, Null], Err(1)),
        (Function::Concat, &[Keyword, Null, Integer], Err(2)),
        (Function::Substring, &[Keyword, Integer, Long], Err(2)),
        (Function::MvSlice, &[Keyword, Integer], Ok(Keyword)),
    ];
    for (function, kinds, want) in cases {
        let given = match misfit(function, kinds) {
            Some(place) => Err(place),
            None => Ok(kind_of_call(function, kinds)),
        };
        assert_eq!(rt; given, want, "{function:?} of {kinds:?}");
    }
}
