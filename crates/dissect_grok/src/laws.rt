ghost use Rattle.std.specs.Prelude.{◌≡◌, ◌++◌, ◌∷◌, [], ℕ, Bool, List, None, Some, IfSome, codes, length, true};
ghost use Rattle.std.specs.List.{list_all};
ghost use Rattle.dissect_grok.specs.Texts.{cut_at};
ghost use Rattle.dissect_grok.specs.Groks.{GrokRead, fits, grok_columns, grok_of, grok_takes};
ghost use Rattle.dissect_grok.specs.Cuts.{cut_of, texts_of};
ghost use Rattle.dissect_grok.specs.Laws.{AreJoined};
ghost use Rattle.dissect_grok.specs.declared.keys.Key.{Key};
ghost use Rattle.dissect_grok.specs.declared.keys.Form.TheVariants.{Named};

/// A law: the texts that keys take, joined with the keys' delimiters, are a front of the text.
pub fn cut_and_joined_is_a_front()
    ensures { (keys : List Key) (text : List ℕ) (texts : List (List ℕ)) → texts_of keys text ≡ Some texts
        → (front : List ℕ) × (back : List ℕ) × (text ≡ front ++ back) × AreJoined keys texts front }
{}

/// A law: one key without a delimiter takes the whole text behind the first literal.
pub fn one_key_takes_the_rest()
    ensures { (first text name separator : List ℕ) (repeats : Bool)
        → cut_of (record { first = first; keys = record { form = Named name; repeats = repeats; delimiter = [] } ∷ []; separator = separator }) (first ++ text) ≡ Some (text ∷ []) }
{}

/// A law: a pattern without references is bad, since it names nothing.
pub fn no_reference_is_bad()
    ensures { (text : List ℕ) → cut_at (codes "%{") text ≡ None → grok_of text ≡ None }
{}

/// A law: there are as many lists of texts as columns.
pub fn as_many_lists_as_columns()
    ensures { (read : GrokRead) (text : List ℕ) → IfSome (grok_takes read text) (λ lists. length lists ≡ length (grok_columns read)) }
{}

/// A law: each place of a pattern has the kind of the column of its name.
pub fn places_have_the_kinds_of_their_columns()
    ensures { (pattern : List ℕ) (read : GrokRead) → grok_of pattern ≡ Some read
        → list_all (λ place. list_all (fits place) (grok_columns read)) read.places ≡ true }
{}
