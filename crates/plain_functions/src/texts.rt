ghost use Rattle.std.specs.Prelude.{◌≡◌, ◌≤◌, ◌-◌, ◌++◌, ◌∷◌, [], ℕ, pos, length, take, drop, min, count_by, MatchOption, MatchResult};
ghost use Rattle.std.specs.Str.{chars, encode_utf8_all, trim, trim_start, trim_end};
ghost use Rattle.function_rules.specs.Texts.{length_of, substring_from, substring_of, left_of, right_of, begins_with, finishes_with};
ghost use Rattle.plain_functions.specs.Bytes.{begins_character};

fn begins_character(byte: u8) -> bool
    ensures { result ≡ begins_character byte }
{
    byte < 0x80 || byte >= 0xc0
}

// Counts in one byte, so that a lane of the machine holds a count: at most 255 of them.
fn few_characters(bytes: &[u8]) -> u8
    requires { length bytes.now ≤ 255 }
    ensures { result ≡ count_by begins_character bytes.now }
{
    let mut count = 0u8;
    for byte in bytes {
        count += u8::from(begins_character(*byte));
    }
    count
}

fn character_starts(bytes: &[u8]) -> usize
    ensures { result ≡ count_by begins_character bytes.now }
{
    let mut count = 0usize;
    let mut rest = bytes;
    while rest.len() > 255 {
        let (part, behind) = rest.split_at(255);
        count += usize::from(few_characters(part));
        rest = behind;
    }
    count + usize::from(few_characters(rest))
}

fn as_integer(count: usize) -> i32
    ensures { result ≡ pos (min count 2147483647) }
{
    if count < 0x7fff_ffff {
        count as i32
    } else {
        i32::MAX
    }
}

/// LENGTH: how many characters a text has, at most 2147483647. Takes no memory.
pub fn length(text: &str) -> i32
    ensures { result ≡ pos (length_of text.now) }
{
    as_integer(character_starts(text.as_bytes()))
}

// The text behind its first character.
fn behind_one(text: &str) -> Option<&str>
    ensures { MatchOption result (chars text.now ≡ []) (λ behind. (first : ℕ) × (chars text.now ≡ first ∷ chars behind.now)) }
{
    let mut characters = text.chars();
    match characters.next() {
        Some(_) => Some(characters.as_str()),
        None => None,
    }
}

// The text before its last character.
fn before_one(text: &str) -> Option<&str>
    ensures { MatchOption result (chars text.now ≡ []) (λ before. (last : ℕ) × (chars text.now ≡ chars before.now ++ last ∷ [])) }
{
    let mut characters = text.chars();
    match characters.next_back() {
        Some(_) => Some(characters.as_str()),
        None => None,
    }
}

fn behind_first(text: &str, count: u64) -> &str
    ensures { chars result.now ≡ drop count (chars text.now) }
{
    let mut rest = text;
    for _ in 0..count {
        match behind_one(rest) {
            Some(behind) => rest = behind,
            None => return "",
        }
    }
    rest
}

fn before_last(text: &str, count: u64) -> &str
    ensures { chars result.now ≡ take (length (chars text.now) - count) (chars text.now) }
{
    let mut rest = text;
    for _ in 0..count {
        match before_one(rest) {
            Some(before) => rest = before,
            None => return "",
        }
    }
    rest
}

fn first(text: &str, count: u64) -> &str
    ensures { result.now ≡ encode_utf8_all (take count (chars text.now)) }
{
    let behind = behind_first(text, count);
    let (front, _) = text.split_at(text.len() - behind.len());
    front
}

fn last(text: &str, count: u64) -> &str
    ensures { result.now ≡ encode_utf8_all (drop (length (chars text.now) - count) (chars text.now)) }
{
    let before = before_last(text, count);
    let (_, back) = text.split_at(before.len());
    back
}

/// SUBSTRING without a length: the text from a start to its end; a start counts characters from 1, or from the end where
/// it is negative. Takes no memory.
pub fn substring_from(text: &str, start: i64) -> &str
    ensures { result.now ≡ substring_from text.now start }
{
    match u64::try_from(start) {
        Ok(place) => behind_first(text, place.saturating_sub(1)),
        Err(_) => last(text, start.unsigned_abs()),
    }
}

/// SUBSTRING with a length: so many characters from a start on, or all that there are; a negative length is given back.
/// Takes no memory.
pub fn substring(text: &str, start: i64, count: i64) -> Result<&str, i64>
    ensures { MatchResult result (λ part. substring_of text.now start count ≡ Ok part.now) (λ refused. substring_of text.now start count ≡ Err refused) }
{
    match u64::try_from(count) {
        Ok(number) => Ok(first(substring_from(text, start), number)),
        Err(_) => Err(count),
    }
}

/// LEFT: the first characters, all where the count is larger, none where it is below 1. Takes no memory.
pub fn left(text: &str, count: i64) -> &str
    ensures { result.now ≡ left_of text.now count }
{
    match u64::try_from(count) {
        Ok(number) => first(text, number),
        Err(_) => "",
    }
}

/// RIGHT: the last characters, all where the count is larger, none where it is below 1. Takes no memory.
pub fn right(text: &str, count: i64) -> &str
    ensures { result.now ≡ right_of text.now count }
{
    match u64::try_from(count) {
        Ok(number) => last(text, number),
        Err(_) => "",
    }
}

/// TRIM: the text without white space at both ends. Takes no memory.
pub fn trim(text: &str) -> &str
    ensures { result.now ≡ trim text.now }
{
    text.trim()
}

/// LTRIM: the text without white space at its front. Takes no memory.
pub fn trim_start(text: &str) -> &str
    ensures { result.now ≡ trim_start text.now }
{
    text.trim_start()
}

/// RTRIM: the text without white space at its end. Takes no memory.
pub fn trim_end(text: &str) -> &str
    ensures { result.now ≡ trim_end text.now }
{
    text.trim_end()
}

/// STARTS_WITH, by bytes. Takes no memory.
pub fn starts_with(text: &str, front: &str) -> bool
    ensures { result ≡ begins_with text.now front.now }
{
    text.as_bytes().starts_with(front.as_bytes())
}

/// ENDS_WITH, by bytes. Takes no memory.
pub fn ends_with(text: &str, back: &str) -> bool
    ensures { result ≡ finishes_with text.now back.now }
{
    text.as_bytes().ends_with(back.as_bytes())
}
