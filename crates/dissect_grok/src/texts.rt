//! Texts cut at other texts.
ghost use Rattle.std.specs.Prelude.{◌≡◌, ◌<◌, length, None, Some, MatchOption};
ghost use Rattle.dissect_grok.specs.Texts.{before_back, behind_copies, behind_front, cut_at};

/// The text behind a front, where it begins with the front.
pub(crate) fn behind_front<'a>(text: &'a str, front: &str) -> Option<&'a str>
    ensures { MatchOption result (behind_front front.now text.now ≡ None) (λ rest. behind_front front.now text.now ≡ Some rest.now) }
{
    text.strip_prefix(front)
}

/// The text before a back, where it ends with the back.
pub(crate) fn before_back<'a>(text: &'a str, back: &str) -> Option<&'a str>
    ensures { MatchOption result (before_back back.now text.now ≡ None) (λ front. before_back back.now text.now ≡ Some front.now) }
{
    text.strip_suffix(back)
}

/// The text before the first occurrence of a delimiter, and the text behind it.
pub(crate) fn cut_at<'a>(text: &'a str, delimiter: &str) -> Option<(&'a str, &'a str)>
    ensures { MatchOption result (cut_at delimiter.now text.now ≡ None) (λ parts. cut_at delimiter.now text.now ≡ Some (parts.0.now, parts.1.now)) }
{
    text.split_once(delimiter)
}

/// The text behind all copies of a delimiter that it begins with.
pub(crate) fn behind_copies<'a>(text: &'a str, delimiter: &str) -> &'a str
    requires { 0 < length delimiter.now }
    ensures { result.now ≡ behind_copies delimiter.now text.now }
{
    text.trim_start_matches(delimiter)
}
