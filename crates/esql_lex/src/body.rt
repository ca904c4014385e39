ghost use Rattle.std.specs.Prelude.{◌≡◌, ℕ, ◌≤◌, List, length, if◌then◌else◌};
ghost use Rattle.esql_lex.specs.Forms.{begins_name, continues_name, is_escaped, is_literal, mark_of, may_follow, stands_alone, body_len};
ghost use Rattle.esql_lex.specs.Steps.{step_len};

/// What single characters, and pairs of a mark and a character, make up.
#[derive(Clone, Copy, Debug, PartialEq, Eq)]
pub enum Body {
    /// A name goes on with parts, and dots that join them.
    OfName,
    /// A text in quotes has characters, and escapes that a backslash begins.
    OfText,
}

pub fn begins_name(byte: u8) -> bool
    ensures { result ≡ begins_name byte }
{
    byte.is_ascii_alphabetic() || byte == b'_' || byte == b'@'
}

fn continues_name(byte: u8) -> bool
    ensures { result ≡ continues_name byte }
{
    byte.is_ascii_alphanumeric() || byte == b'_'
}

fn is_escaped(byte: u8) -> bool
    ensures { result ≡ is_escaped byte }
{
    matches!(byte, b't' | b'n' | b'r' | b'"' | b'\\')
}

fn is_literal(byte: u8) -> bool
    ensures { result ≡ is_literal byte }
{
    !matches!(byte, b'"' | b'\\' | b'\n' | b'\r')
}

impl Body {
    fn mark(self) -> u8
        ensures { result ≡ mark_of self }
    {
        match self {
            Body::OfName => b'.',
            Body::OfText => b'\\',
        }
    }

    fn may_follow(self, byte: u8) -> bool
        ensures { result ≡ may_follow self byte }
    {
        match self {
            Body::OfName => begins_name(byte),
            Body::OfText => is_escaped(byte),
        }
    }

    fn stands_alone(self, byte: u8) -> bool
        ensures { result ≡ stands_alone self byte }
    {
        match self {
            Body::OfName => continues_name(byte),
            Body::OfText => is_literal(byte),
        }
    }

    fn alone_len(self, byte: u8) -> usize
        ensures { result ≡ (if stands_alone self byte then 1 else 0) }
    {
        if self.stands_alone(byte) { 1 } else { 0 }
    }

    fn pair_len(self, byte: u8) -> usize
        ensures { result ≡ (if may_follow self byte then 2 else 0) }
    {
        if self.may_follow(byte) { 2 } else { 0 }
    }

    // How long the next character or pair is.
    fn step(self, text: &[u8]) -> usize
        ensures { result ≡ step_len self text.now }
    {
        match text {
            [] => 0,
            [byte] => self.alone_len(*byte),
            [byte, next, ..] => {
                if *byte == self.mark() {
                    self.pair_len(*next)
                } else {
                    self.alone_len(*byte)
                }
            }
        }
    }

    /// How far the body goes.
    pub fn len(self, text: &[u8]) -> usize
        ensures value { result ≡ body_len self text.now }
        ensures within { result ≤ length text.now }
    {
        let mut len = 0;
        'walk: loop {
            let (_, rest) = text.split_at(len);
            let step = self.step(rest);
            if step == 0 {
                return len;
            }
            len += step;
        }
    }
}
