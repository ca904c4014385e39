//! The library of GROK.
ghost use Rattle.std.specs.Prelude.{◌≡◌, None, Some, MatchOption};
ghost use Rattle.dissect_grok.specs.Library.{written_out};

/// The expression of a name of the library, in which names are replaced by their expressions.
pub(crate) fn written_out(name: &str) -> Option<&'static str>
    ensures { MatchOption result (written_out name.now ≡ None) (λ expression. written_out name.now ≡ Some expression.now) }
{
    match name {
        "WORD" => Some("\\b\\w+\\b"),
        "NOTSPACE" => Some("\\S+"),
        "SPACE" => Some("\\s*"),
        "DATA" => Some(".*?"),
        "GREEDYDATA" => Some(".*"),
        "INT" => Some("[+-]?[0-9]+"),
        "POSINT" => Some("\\b[1-9][0-9]*\\b"),
        "NONNEGINT" => Some("\\b[0-9]+\\b"),
        "NUMBER" => Some("[+-]?(?:[0-9]+(?:\\.[0-9]+)?|\\.[0-9]+)"),
        "BASE16NUM" => Some("(?:0[xX])?[0-9A-Fa-f]+"),
        "USERNAME" => Some("[a-zA-Z0-9._-]+"),
        "USER" => Some("[a-zA-Z0-9._-]+"),
        "QUOTEDSTRING" => Some("\"(?:[^\"\\\\]|\\\\.)*\""),
        "UUID" => Some("[A-Fa-f0-9]{8}-(?:[A-Fa-f0-9]{4}-){3}[A-Fa-f0-9]{12}"),
        "IPV4" => Some("(?:[0-9]{1,3}\\.){3}[0-9]{1,3}"),
        "HOSTNAME" => Some("\\b[0-9A-Za-z][0-9A-Za-z-]*(?:\\.[0-9A-Za-z][0-9A-Za-z-]*)*\\b"),
        "IPORHOST" => Some(
            "(?:(?:[0-9]{1,3}\\.){3}[0-9]{1,3})|(?:\\b[0-9A-Za-z][0-9A-Za-z-]*(?:\\.[0-9A-Za-z][0-9A-Za-z-]*)*\\b)",
        ),
        "UNIXPATH" => Some("(?:/[^\\s?#]*)+"),
        "URIPATH" => Some("(?:/[^\\s?#]*)+"),
        "LOGLEVEL" => Some("(?i:trace|debug|info|notice|warn|warning|error|fatal)"),
        "YEAR" => Some("[0-9]{4}"),
        "MONTHNUM" => Some("[0-9]{2}"),
        "MONTHDAY" => Some("[0-9]{2}"),
        "HOUR" => Some("[0-9]{2}"),
        "MINUTE" => Some("[0-9]{2}"),
        "SECOND" => Some("[0-9]{2}(?:[.,][0-9]+)?"),
        "TIMESTAMP_ISO8601" => Some(
            "(?:[0-9]{4})-(?:[0-9]{2})-(?:[0-9]{2})[T ](?:[0-9]{2}):(?:[0-9]{2})(?::(?:[0-9]{2}(?:[.,][0-9]+)?))?(?:Z|[+-][0-9]{2}:?[0-9]{2})?",
        ),
        _ => None,
    }
}
