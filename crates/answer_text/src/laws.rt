ghost use Rattle.std.specs.Prelude.{◌≡◌, ◌+◌, ◌==◌, ℕ, [], List, length, count_by};
ghost use Rattle.std.specs.Bool.{Decides};
ghost use Rattle.std.specs.List.{IsDistinct};
ghost use Rattle.esql_types.specs.declared.cause.Cause.{Cause};
ghost use Rattle.esql_types.specs.declared.names.Column.{Column};
ghost use Rattle.esql_types.specs.declared.value.Value.{Value};
ghost use Rattle.esql_ast.specs.declared.nodes.NodeAt.{NodeAt};
ghost use Rattle.answer_text.specs.Txt.{shown_txt};
ghost use Rattle.answer_text.specs.Warnings.{cause_eq, distinct, warned};

/// A law: a table in the layout `txt` has two lines more than rows, whatever its names and cells hold.
pub fn shown_in_lines()
    ensures { (columns : List Column) (rows : List (List (List Value))) → count_by (λ byte. byte == 10) (shown_txt columns rows) ≡ 2 + length rows }
{}

/// A law: without failures nothing is warned of.
pub fn warned_of_nothing()
    ensures { (text : List ℕ) (nodes : List NodeAt) → warned text nodes [] ≡ [] }
{}

/// A law: no cause is told twice.
pub fn told_once()
    ensures { (causes : List Cause) → IsDistinct cause_eq (distinct causes) }
{}

/// A law: two causes are told as one exactly where they are equal.
pub fn same_cause()
    ensures { (left right : Cause) → Decides (cause_eq left right) (left ≡ right) }
{}
