ghost use Rattle.std.specs.Prelude.{◌≡◌, ℕ, ◌≤◌, List, length, take, drop, Option, Some, None, codes, IfSome};
ghost use Rattle.std.specs.List.{prefix_len};
ghost use Rattle.esql_lex.specs.Gaps.{is_white, is_in_line, end_of, begins_line, begins_block, comment_len, piece_len, SplitsGap};

fn is_white(byte: u8) -> bool
    ensures { result ≡ is_white byte }
{
    matches!(byte, b' ' | b'\t' | b'\r' | b'\n')
}

// How far the first mark goes.
pub(crate) fn end_of(mark: &[u8], text: &[u8]) -> Option<usize>
    ensures value { result ≡ end_of mark.now text.now }
    ensures within { IfSome result (λ len. len ≤ length text.now) }
{
    let mut at = 0;
    'walk: while at < text.len() {
        let (_, rest) = text.split_at(at);
        if rest.starts_with(mark) {
            return Some(at + mark.len());
        }
        at += 1;
    }
    None
}

fn line_len(text: &[u8]) -> usize
    ensures value { result ≡ prefix_len is_in_line text.now }
    ensures within { result ≤ length text.now }
{
    text.iter().take_while(|byte| **byte != b'\n').count()
}

fn begins_line(text: &[u8]) -> bool
    ensures { result ≡ begins_line text.now }
{
    matches!(text, [b'/', b'/', ..])
}

pub(crate) fn begins_block(text: &[u8]) -> bool
    ensures { result ≡ begins_block text.now }
{
    matches!(text, [b'/', b'*', ..])
}

#[tactic(auto, unfolding(crate::specs::Gaps::comment_len))]
fn comment_len(text: &[u8]) -> Option<usize>
    ensures { result ≡ comment_len text.now }
{
    if begins_line(text) {
        let (_, line) = text.split_at(2);
        return Some(2 + line_len(line));
    }
    if begins_block(text) {
        let (_, block) = text.split_at(2);
        let len = end_of("*/".as_bytes(), block)?;
        return Some(2 + len);
    }
    None
}

// The white space or comment that stands here.
fn piece_len(text: &[u8]) -> Option<usize>
    ensures { result ≡ piece_len text.now }
{
    match text {
        [] => None,
        [first, ..] => {
            if is_white(*first) {
                Some(1)
            } else {
                comment_len(text)
            }
        }
    }
}

// How long the gap is at the front.
pub(crate) fn gap_len(text: &[u8]) -> usize
    ensures splits { SplitsGap text.now (take result text.now) (drop result text.now) }
    ensures within { result ≤ length text.now }
{
    let mut len = 0;
    'walk: loop {
        let (_, rest) = text.split_at(len);
        match piece_len(rest) {
            Some(more) => len += more,
            None => return len,
        }
    }
}
