use super::*;
use esql_types::{CrateMaker, Maker, PatternError, Seq};
use std::test::Fail;

#[test]
fn wildcards(rt: HostRuntime) -> Result<(), Fail> {
    let table = [
        ("", "", true),
        ("", "a", false),
        ("*", "", true),
        ("**", "ab", true),
        ("?", "", false),
        ("?", "\u{1F600}", true),
        ("a?1*", "ab12", true),
        ("a?1*", "a12", false),
        ("\\*", "*", true),
        ("\\*", "a", false),
        ("\\\\", "\\", true),
        ("a\\", "a\\", true),
        ("a\\", "a", false),
        ("*error*", "an error\n", true),
        ("*error", "error: no", false),
        ("*ab", "aab", true),
        ("*a*b*c", "a b ab c", true),
        ("*é?", "caféé", true),
    ];
    for (pattern, text, is_like) in table {
        assert_eq!(rt; like(pattern, text), is_like);
    }
    let run = "a".repeat(rt.alloc(), 5000)?;
    assert!(rt; !like("*a*a*a*a*a*a*a*b", run.as_str()));
    Ok(())
}

#[test]
fn whole_texts(rt: HostRuntime) -> Result<(), Fail> {
    let mut maker = CrateMaker::new(Seq::new(rt.alloc()));
    let regex = WholeRegex::new(rt.alloc(), &mut maker, "[a-z]+[0-9]{2}")?;
    assert!(rt; regex.matches(rt.alloc(), "ab12")?);
    assert!(rt; !regex.matches(rt.alloc(), "ab123")?);
    let either = WholeRegex::new(rt.alloc(), &mut maker, "a|b")?;
    assert!(rt; !either.matches(rt.alloc(), "ac")?);
    assert!(rt;
        matches!(
            WholeRegex::new(rt.alloc(), &mut maker, "a)|(b"),
            Err(PatternError::NotRead)
        )
    );
    Ok(())
}

#[test]
fn parts_of_texts(rt: HostRuntime) -> Result<(), Fail> {
    let table = [
        ("[0-9]+", "ab12", "#", "ab#"),
        ("([a-z])1", "a1b1", "$1", "$1$1"),
        ("x*", "abc", "-", "-a-b-c-"),
        ("b", "", "-", ""),
    ];
    let mut maker = CrateMaker::new(Seq::new(rt.alloc()));
    for (pattern, text, with, made) in table {
        let regex = FreeRegex::new(rt.alloc(), &mut maker, pattern)?;
        assert_eq!(rt; regex.replace(rt.alloc(), text, with)?.as_str(), made);
    }
    Ok(())
}

#[test]
fn a_maker_that_refuses(rt: HostRuntime) -> Result<(), Fail> {
    let mut failing = Seq::new(rt.alloc());
    failing.push(0)?;
    failing.push(2)?;
    let mut maker = CrateMaker::new(failing);
    assert!(rt;
        matches!(
            FreeRegex::new(rt.alloc(), &mut maker, "a"),
            Err(PatternError::TooLarge)
        )
    );
    assert!(rt;
        matches!(
            WholeRegex::new(rt.alloc(), &mut maker, "b"),
            Err(PatternError::TooLarge)
        )
    );
    let regex = FreeRegex::new(rt.alloc(), &mut maker, "c")?;
    let mut patterns = Patterns {
        whole: Seq::new(rt.alloc()),
        free: Seq::new(rt.alloc()),
    };
    patterns.free.push(regex)?;
    assert_eq!(rt; patterns.whole.len(), 0);
    Ok(())
}
