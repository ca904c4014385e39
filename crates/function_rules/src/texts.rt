ghost use Rattle.std.specs.Prelude.{◌≡◌, ◌<◌, ◌++◌, ℕ, ℤ, List, length, min, Ok};
ghost use Rattle.std.specs.Str.{IsAscii, IsTrim, IsTrimEnd, IsTrimStart, trim, trim_end, trim_start};
ghost use Rattle.function_rules.specs.Cuts.{ArePieces};
ghost use Rattle.function_rules.specs.Texts.{joined, left_of, length_of, right_of, split_of, substring_from, substring_of};

/// A law: SPLIT cuts a text at the first occurrence of the delimiter, then what is behind it in the same way, until it
/// occurs no more.
pub fn split_cuts_at_each_occurrence()
    ensures { (text delimiter : List ℕ) → 0 < length delimiter → ArePieces delimiter text (split_of text delimiter) }
{}

/// A law: the only pieces between the occurrences of a delimiter are those that SPLIT gives.
pub fn split_gives_the_only_pieces()
    ensures { (text delimiter : List ℕ) (pieces : List (List ℕ)) → 0 < length delimiter → ArePieces delimiter text pieces → pieces ≡ split_of text delimiter }
{}

/// A law: the pieces that SPLIT gives, joined by the delimiter, are the text.
pub fn split_joined_is_the_text()
    ensures { (text delimiter : List ℕ) → 0 < length delimiter → joined delimiter (split_of text delimiter) ≡ text }
{}

/// A law: SUBSTRING without a length is a back of the text.
pub fn substring_from_is_a_back(text: &str)
    ensures { (start : ℤ) → (front : List ℕ) × (front ++ substring_from text.now start ≡ text.now) }
{}

/// A law: SUBSTRING with a length is a part of the text.
pub fn substring_is_a_part(text: &str)
    ensures { (start count : ℤ) (part : List ℕ) → substring_of text.now start count ≡ Ok part → (front : List ℕ) × (back : List ℕ) × (front ++ (part ++ back) ≡ text.now) }
{}

/// A law: LEFT is a front of the text.
pub fn left_is_a_front(text: &str)
    ensures { (count : ℤ) → (back : List ℕ) × (left_of text.now count ++ back ≡ text.now) }
{}

/// A law: RIGHT is a back of the text.
pub fn right_is_a_back(text: &str)
    ensures { (count : ℤ) → (front : List ℕ) × (front ++ right_of text.now count ≡ text.now) }
{}

/// A law: TRIM cuts off white space alone, and its result neither begins nor ends with any.
pub fn trim_cuts_off_white_space(text: &str)
    ensures { IsTrim text.now (trim text.now) }
{
    let _result = text.trim();
}

/// A law: LTRIM cuts off white space alone, at the front, and its result does not begin with any.
pub fn trim_start_cuts_off_white_space(text: &str)
    ensures { IsTrimStart text.now (trim_start text.now) }
{
    let _result = text.trim_start();
}

/// A law: RTRIM cuts off white space alone, at the end, and its result does not end with any.
pub fn trim_end_cuts_off_white_space(text: &str)
    ensures { IsTrimEnd text.now (trim_end text.now) }
{
    let _result = text.trim_end();
}

/// A law: LENGTH of a text of ASCII is its number of bytes, at most 2147483647.
pub fn length_of_ascii()
    ensures { (text : List ℕ) → IsAscii text → length_of text ≡ min (length text) 2147483647 }
{}
