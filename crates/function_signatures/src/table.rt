//! The table of the signatures, and what it says of the argument at a place.

ghost use Rattle.std.specs.Prelude.{◌≡◌, ◌+◌, ◌<◌, [], ◌∷◌, drop, MatchOption};
ghost use Rattle.esql_plan.specs.Signatures.{branch_wants, signature_of, takes, wants_of, widening};
ghost use Rattle.function_signatures.specs.Tables.{gives_meant, parameters_meant, signature_meant, want_meant};

use esql_plan::Function;
use esql_types::Kind;

/// What an argument must be.
#[derive(Clone, Copy)]
pub(crate) enum Want {
    Boolean,
    Keyword,
    /// An integer or a long; all of a call have one kind.
    Number,
    /// A value of any kind; all of a call have one kind.
    Value,
    /// An integer, a long or a keyword; all of a call have one kind.
    Ordered,
    LikePattern,
    WholePattern,
    FreePattern,
}

/// The arguments that a function takes.
#[derive(Clone, Copy)]
pub(crate) enum Parameters {
    One(Want),
    Two(Want, Want),
    Three(Want, Want, Want),
    /// The last may be left out.
    TwoOrThree(Want, Want, Want),
    OneOrMore(Want),
    TwoOrMore(Want),
    /// Conditions, each with a value behind it, and perhaps a value at the end.
    Branches,
}

/// The kind of a result.
#[derive(Clone, Copy)]
pub(crate) enum Gives {
    Always(Kind),
    /// That of the arguments of any kind.
    OfValues,
    OfNumbers,
}

/// In a function that widens, integers and longs go together as longs.
#[derive(Clone, Copy)]
pub(crate) struct Signature {
    pub(crate) parameters: Parameters,
    pub(crate) widens: bool,
    pub(crate) gives: Gives,
}

fn takes(parameters: Parameters, gives: Gives) -> Signature
    ensures { signature_meant result ≡ takes (parameters_meant parameters) (gives_meant gives) }
{
    Signature {
        parameters,
        widens: false,
        gives,
    }
}

fn widening(parameters: Parameters, gives: Gives) -> Signature
    ensures { signature_meant result ≡ widening (parameters_meant parameters) (gives_meant gives) }
{
    Signature {
        parameters,
        widens: true,
        gives,
    }
}

const BOOLEAN: Gives = Gives::Always(Kind::Boolean);

const INTEGER: Gives = Gives::Always(Kind::Integer);

const LONG: Gives = Gives::Always(Kind::Long);

const KEYWORD: Gives = Gives::Always(Kind::Keyword);

/// The signature of each function.
pub(crate) fn signature_of(function: Function) -> Signature
    ensures { signature_meant result ≡ signature_of function }
{
    match function {
        Function::Add | Function::Sub | Function::Mul | Function::Div | Function::Mod => {
            widening(
                Parameters::Two(Want::Number, Want::Number),
                Gives::OfNumbers,
            )
        }
        Function::Neg | Function::Abs | Function::MvSum => {
            takes(Parameters::One(Want::Number), Gives::OfNumbers)
        }
        Function::Eq | Function::Ne => widening(Parameters::Two(Want::Value, Want::Value), BOOLEAN),
        Function::Lt | Function::Le | Function::Gt | Function::Ge => {
            widening(Parameters::Two(Want::Ordered, Want::Ordered), BOOLEAN)
        }
        Function::And | Function::Or => {
            takes(Parameters::Two(Want::Boolean, Want::Boolean), BOOLEAN)
        }
        Function::Not => takes(Parameters::One(Want::Boolean), BOOLEAN),
        Function::In | Function::NotIn => widening(Parameters::OneOrMore(Want::Value), BOOLEAN),
        Function::Like | Function::NotLike => {
            takes(Parameters::Two(Want::Keyword, Want::LikePattern), BOOLEAN)
        }
        Function::Rlike | Function::NotRlike => {
            takes(Parameters::Two(Want::Keyword, Want::WholePattern), BOOLEAN)
        }
        Function::IsNull | Function::IsNotNull | Function::ToBoolean => {
            takes(Parameters::One(Want::Value), BOOLEAN)
        }
        Function::ToInteger | Function::MvCount => takes(Parameters::One(Want::Value), INTEGER),
        Function::ToLong => takes(Parameters::One(Want::Value), LONG),
        Function::ToString => takes(Parameters::One(Want::Value), KEYWORD),
        Function::MvMin
        | Function::MvMax
        | Function::MvFirst
        | Function::MvLast
        | Function::MvDedupe
        | Function::MvSort
        | Function::MvSortDesc => takes(Parameters::One(Want::Value), Gives::OfValues),
        Function::Greatest | Function::Least | Function::Coalesce => {
            takes(Parameters::OneOrMore(Want::Value), Gives::OfValues)
        }
        Function::Case => takes(Parameters::Branches, Gives::OfValues),
        Function::Length => takes(Parameters::One(Want::Keyword), INTEGER),
        Function::Trim | Function::Ltrim | Function::Rtrim => {
            takes(Parameters::One(Want::Keyword), KEYWORD)
        }
        Function::Left | Function::Right => {
            takes(Parameters::Two(Want::Keyword, Want::Number), KEYWORD)
        }
        Function::Substring => {
            takes(
                Parameters::TwoOrThree(Want::Keyword, Want::Number, Want::Number),
                KEYWORD,
            )
        }
        Function::Concat => takes(Parameters::TwoOrMore(Want::Keyword), KEYWORD),
        Function::StartsWith | Function::EndsWith => {
            takes(Parameters::Two(Want::Keyword, Want::Keyword), BOOLEAN)
        }
        Function::Replace => {
            takes(
                Parameters::Three(Want::Keyword, Want::FreePattern, Want::Keyword),
                KEYWORD,
            )
        }
        Function::Split | Function::MvConcat => {
            takes(Parameters::Two(Want::Keyword, Want::Keyword), KEYWORD)
        }
        Function::MvAppend => takes(Parameters::Two(Want::Value, Want::Value), Gives::OfValues),
        Function::MvSlice => {
            takes(
                Parameters::TwoOrThree(Want::Value, Want::Number, Want::Number),
                Gives::OfValues,
            )
        }
    }
}

impl Parameters {
    /// What the argument at a place must be, of so many; `None` behind the last that is taken.
    pub(crate) fn want_at(self, place: usize, count: usize) -> Option<Want>
        requires { place < count }
        ensures { let wants = wants_of (parameters_meant self) count in MatchOption result (drop place wants ≡ []) (λ want. drop place wants ≡ want_meant want ∷ drop (place + 1) wants) }
    {
        match self {
            Parameters::One(only) => { if place == 0 { Some(only) } else { None } }
            Parameters::Two(first, second) => match place {
                0 => Some(first),
                1 => Some(second),
                _ => None,
            },
            Parameters::Three(first, second, third)
            | Parameters::TwoOrThree(first, second, third) => match place {
                0 => Some(first),
                1 => Some(second),
                2 => Some(third),
                _ => None,
            },
            Parameters::OneOrMore(each) => Some(each),
            Parameters::TwoOrMore(each) => Some(each),
            Parameters::Branches => Some(branch_want(place, count)),
        }
    }
}

fn branch_want(place: usize, count: usize) -> Want
    requires { place < count }
    ensures { drop place (branch_wants count) ≡ want_meant result ∷ drop (place + 1) (branch_wants count) }
{
    if place % 2 == 0 && place + 1 < count {
        Want::Boolean
    } else {
        Want::Value
    }
}
