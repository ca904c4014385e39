ghost use Rattle.std.specs.Prelude.{◌≡◌, length};
ghost use Rattle.esql_plan.specs.Signatures.{arguments, kind_of_call, kinds_in, misfit, no_kinds, wants_of};
ghost use Rattle.function_signatures.specs.Tables.{kinds_meant, parameters_meant};

use crate::kinds::OneKinds;
use crate::table::{Gives, Parameters, signature_of};
use esql_plan::Function;
use esql_types::Kind;

/// The place of the first argument of a call, from the left, that does not fit by its kind; `None` where all fit. Takes no
/// memory.
pub fn misfit(function: Function, kinds: &[Kind]) -> Option<usize>
    ensures { result ≡ misfit function kinds.now }
{
    let signature = signature_of(function);
    let mut so_far = OneKinds::none();
    for (place, kind) in kinds.iter().enumerate() {
        let want = signature.parameters.want_at(place, kinds.len())?;
        if !so_far.fits(signature.widens, want, *kind) {
            return Some(place);
        }
        so_far = so_far.with_kind(want, *kind);
    }
    None
}

/// The kind of a call of a function with arguments that fit. Takes no memory.
pub fn kind_of_call(function: Function, kinds: &[Kind]) -> Kind
    ensures { result ≡ kind_of_call function kinds.now }
{
    let signature = signature_of(function);
    match signature.gives {
        Gives::Always(kind) => kind,
        Gives::OfValues => kinds_in(signature.parameters, kinds).values,
        Gives::OfNumbers => kinds_in(signature.parameters, kinds).numbers,
    }
}

fn kinds_in(parameters: Parameters, kinds: &[Kind]) -> OneKinds
    ensures { kinds_meant result ≡ kinds_in no_kinds (arguments (wants_of (parameters_meant parameters) (length kinds.now)) kinds.now) }
{
    let mut so_far = OneKinds::none();
    for (place, kind) in kinds.iter().enumerate() {
        match parameters.want_at(place, kinds.len()) {
            Some(want) => so_far = so_far.with_kind(want, *kind),
            None => return so_far,
        }
    }
    so_far
}
