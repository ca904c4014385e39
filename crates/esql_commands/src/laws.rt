ghost use Rattle.std.specs.Prelude.{◌≡◌, ℕ, max, List};
ghost use Rattle.esql_commands.specs.declared.place.CommandEnd.{CommandEnd};
ghost use Rattle.esql_commands.specs.declared.place.Place.{Place};
ghost use Rattle.esql_commands.specs.declared.words.CommandWord.{CommandWord};
ghost use Rattle.esql_commands.specs.Begins.{place_after};
ghost use Rattle.esql_commands.specs.Depths.{depth_of_end};
ghost use Rattle.esql_commands.specs.Fits.{EndFits};
ghost use Rattle.esql_commands.specs.Grammar.{Says};
ghost use Rattle.esql_commands.specs.Leads.{Leads, Finishes, Completes, need_of};
ghost use Rattle.esql_phrases.specs.Stands.{Stands};
ghost use Rattle.esql_phrases.specs.declared.lexeme.Lexeme.{Lexeme};

/// A law: lexemes that say a whole command lead to a point where it ends, and it says the same there.
pub fn commands_are_read()
    ensures { (begin : CommandWord) (lexemes : List Lexeme) (says : CommandEnd) (depth : ℕ) → Says begin lexemes says depth → Finishes begin lexemes says depth }
{}

/// A law: where a command ends, the lexemes that lead there say what it says.
pub fn what_ends_is_a_command()
    ensures { (begin : CommandWord) (lexemes : List Lexeme) (says : CommandEnd) (depth : ℕ) → Finishes begin lexemes says depth → Says begin lexemes says depth }
{}

/// A law: wherever lexemes lead, some lexemes more say a whole command with them, of no depth but what was read and has to come.
pub fn commands_can_end()
    ensures { (begin : CommandWord) (lexemes : List Lexeme) (depth : ℕ) (to : Place) → Leads (place_after begin) lexemes depth to → Completes begin lexemes (max depth (need_of to)) }
{}

/// A law: the depth that the grammar gives a command is that of what it says.
pub fn depth_of_command()
    ensures { (begin : CommandWord) (lexemes : List Lexeme) (says : CommandEnd) (depth : ℕ) → Says begin lexemes says depth → depth ≡ depth_of_end says }
{}

/// A law: where the lexemes of a command stand in a text one after another, the spans of what it says are parts of the text.
pub fn commands_fit()
    ensures { (text : List ℕ) (begin : CommandWord) (lexemes : List Lexeme) (says : CommandEnd) (depth : ℕ) → Says begin lexemes says depth → Stands text lexemes → EndFits text says }
{}
