//! Classes of bytes, and texts.
ghost use Rattle.std.specs.Prelude.{◌≡◌, ◌≤◌, length, drop};
ghost use Rattle.std.specs.List.{list_any};
ghost use Rattle.oz_base.specs.Lists.{list_eq};
ghost use Rattle.oz_language.specs.Tokens.{is_blank, is_upper, is_lower, is_digit, goes_on_word, is_printable, is_escape, is_reserved, is_symbol};

/// The reserved words that are no literals.
static RESERVED: [&[u8]; 45] = [
    b"andthen",
    b"case",
    b"catch",
    b"choice",
    b"div",
    b"else",
    b"elseif",
    b"end",
    b"fail",
    b"fun",
    b"if",
    b"in",
    b"local",
    b"mod",
    b"of",
    b"orelse",
    b"proc",
    b"raise",
    b"skip",
    b"then",
    b"thread",
    b"try",
    b"at",
    b"attr",
    b"class",
    b"cond",
    b"declare",
    b"define",
    b"dis",
    b"elsecase",
    b"elseof",
    b"export",
    b"feat",
    b"finally",
    b"from",
    b"functor",
    b"import",
    b"lock",
    b"meth",
    b"not",
    b"or",
    b"prepare",
    b"prop",
    b"require",
    b"self",
];

static SYMBOLS: [&[u8]; 33] = [
    b"(", b")", b"[", b"]", b"[]", b"{", b"}", b"|", b"#", b":", b"::", b":::", b"=", b"==",
    b"\\=", b"\\=:", b"=:", b"<", b"=<", b">", b">=", b"<:", b"=<:", b">:", b">=:", b":=", b"+",
    b"-", b"*", b".", b"@", b"_", b"$",
];

/// Blank, tab, line feed or carriage return.
pub fn is_blank(byte: u8) -> bool
    ensures { result ≡ is_blank byte }
{
    byte == b' ' || byte == b'\t' || byte == b'\n' || byte == b'\r'
}

pub fn is_upper(byte: u8) -> bool
    ensures { result ≡ is_upper byte }
{
    b'A' <= byte && byte <= b'Z'
}

pub fn is_lower(byte: u8) -> bool
    ensures { result ≡ is_lower byte }
{
    b'a' <= byte && byte <= b'z'
}

pub fn is_digit(byte: u8) -> bool
    ensures { result ≡ is_digit byte }
{
    b'0' <= byte && byte <= b'9'
}

/// A letter, a digit or an underscore.
pub fn goes_on_word(byte: u8) -> bool
    ensures { result ≡ goes_on_word byte }
{
    is_upper(byte) || is_lower(byte) || is_digit(byte) || byte == b'_'
}

/// A byte that may stand in quotes, or behind a `&`.
pub fn is_printable(byte: u8) -> bool
    ensures { result ≡ is_printable byte }
{
    b' ' <= byte && byte <= b'~'
}

/// What may stand behind a `\`.
pub fn is_escape(byte: u8) -> bool
    ensures { result ≡ is_escape byte }
{
    byte == b'n' || byte == b't' || byte == b'\\' || byte == b'\'' || byte == b'"'
}

/// What follows the first bytes.
pub fn rest_of(text: &[u8], place: usize) -> &[u8]
    requires { place ≤ length text.now }
    ensures { result.now ≡ drop place text.now }
{
    &text[place..]
}

/// Whether two texts have the same bytes.
pub fn same_bytes(left: &[u8], right: &[u8]) -> bool
    ensures { result ≡ list_eq left.now right.now }
{
    left == right
}

/// Whether a text is among these.
pub fn is_among(text: &[u8], others: &[&[u8]]) -> bool
    ensures { result ≡ list_any (λ other. list_eq text.now other.now) others.now }
{
    others.iter().any(|other| same_bytes(text, other))
}

/// Whether a word is reserved and no literal.
pub fn is_reserved(word: &[u8]) -> bool
    ensures { result ≡ is_reserved word.now }
{
    is_among(word, &RESERVED)
}

/// Whether these bytes are a symbol.
pub fn is_symbol(bytes: &[u8]) -> bool
    ensures { result ≡ is_symbol bytes.now }
{
    is_among(bytes, &SYMBOLS)
}
