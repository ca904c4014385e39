ghost use Rattle.std.specs.Prelude.{◌≡◌, [], IfOk};
ghost use Rattle.warn_log.specs.Logs.{keep};

use esql_types::Cause;
use std::alloc::{AllocError, Global};
use std::marker::Model;

/// How many causes of a node are kept.
const MOST_KEPT: usize = 20;

/// The causes of a node's first failures. Their room is taken when it is made.
#[derive(Drop)]
pub(crate) struct FirstCauses {
    causes: Vec<Cause>,
}

impl Model for FirstCauses {
    ghost use Rattle.std.specs.Prelude.{◌≤◌, List, vec_capacity};
    ghost use Rattle.esql_types.specs.declared.cause.Cause.{Cause};

    ghost Value = { List Cause };

    ghost view = { λ first. first.causes.items };

    ghost invariant = { λ first. 20 ≤ vec_capacity first.causes };
}

impl FirstCauses {
    pub(crate) fn new(alloc: Global) -> Result<FirstCauses, AllocError>
        ensures { IfOk result (λ first. first ≡ []) }
    {
        Ok(FirstCauses {
            causes: Vec::with_capacity(alloc, MOST_KEPT)?,
        })
    }

    /// Keeps a cause, where fewer than 20 are kept.
    pub(crate) fn note(&mut self, cause: Cause)
        ensures { self.new ≡ keep self.old cause }
    {
        if self.causes.len() < MOST_KEPT {
            self.causes.push_reserved(cause);
        }
    }

    pub(crate) fn as_slice(&self) -> &[Cause]
        ensures { result.now ≡ self.now }
    {
        self.causes.as_slice()
    }
}
