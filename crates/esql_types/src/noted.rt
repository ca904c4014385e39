ghost use Rattle.std.specs.Prelude.{◌≡◌, [], List, ℕ};
ghost use Rattle.std.specs.Coded.{coded_list, coded_ℕ};
ghost use base.Fml.{ftrue};

use std::marker::Model;

/// A text that contracts alone see: it takes no memory, and the program cannot read it.
#[derive(Drop)]
pub struct Noted {
    pub ghost text: { List ℕ } by { coded_list coded_ℕ },
}

impl Model for Noted {
    ghost also_owns = { λ _. ftrue };
}

/// The text that a `Noted` is to have.
#[derive(Clone, Copy)]
pub struct Name<'a> {
    pub text: &'a str,
}

impl Noted {
    /// Notes the empty text.
    pub fn new() -> Noted
        ensures { result.text ≡ [] }
    {
        Noted {}
    }

    /// Notes a text in place of the one that was noted before.
    pub fn then(&self, _name: &Name<'_>) -> Noted
        ensures { result.text ≡ _name.now.text.now }
    {
        Noted {}
    }
}
