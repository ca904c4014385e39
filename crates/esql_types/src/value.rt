ghost use Rattle.std.specs.Prelude.{◌≡◌};
ghost use Rattle.esql_types.specs.Values.{kind_of_value};

use crate::Text;

/// The kinds of a column: four kinds of values, and the kind of the literal NULL and of what is made of nothing else.
#[derive(Clone, Copy, Debug, PartialEq, Eq)]
pub enum Kind {
    Integer,
    Long,
    Boolean,
    Keyword,
    Null,
}

/// One value of a cell.
#[derive(Debug, Drop)]
pub enum Value {
    /// An integer of 32 bits.
    Int(i32),
    /// A long of 64 bits.
    Long(i64),
    /// A boolean.
    Bool(bool),
    /// A keyword, which is a UTF-8 text.
    Text(Text),
}

impl Value {
    /// The kind of the value, which is never that of NULL. Takes no memory.
    pub fn kind(&self) -> Kind
        ensures { result ≡ kind_of_value self.now }
    {
        match self {
            Value::Int(_) => Kind::Integer,
            Value::Long(_) => Kind::Long,
            Value::Bool(_) => Kind::Boolean,
            Value::Text(_) => Kind::Keyword,
        }
    }
}

impl Default for Value {
    ghost use Rattle.std.specs.Prelude.{◌≡◌, false};
    ghost use Rattle.esql_types.specs.declared.value.Value.TheVariants.{Bool as Boolean};

    ghost is_default = { λ value. value ≡ Boolean false };

    fn default() -> Value {
        Value::Bool(false)
    }
}

/// A value that is read where it stands.
#[derive(Clone, Copy, Debug)]
pub enum ValueRef<'a> {
    Int(i32),
    Long(i64),
    Bool(bool),
    Text(&'a str),
}
