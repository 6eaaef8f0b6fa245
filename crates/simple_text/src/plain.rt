//! Atoms that stand without quotes.
ghost use Rattle.std.specs.Prelude.{◌≡◌, is_some};
ghost use Rattle.std.specs.List.{list_all, list_any};
ghost use Rattle.oz_base.specs.Lists.{list_eq};
ghost use Rattle.oz_language.specs.Tokens.{is_lower, goes_on_word, is_small_word, is_reserved};
ghost use Rattle.oz_language.specs.Wording.{constant_of};
ghost use Rattle.oz_language.specs.SimpleTexts.{is_plain};

/// The reserved words that are no literals.
static RESERVED: [&[u8]; 45] = [
    b"andthen",
    b"case",
    b"catch",
    b"choice",
    b"div",
    b"else",
    b"elseif",
    b"end",
    b"fail",
    b"fun",
    b"if",
    b"in",
    b"local",
    b"mod",
    b"of",
    b"orelse",
    b"proc",
    b"raise",
    b"skip",
    b"then",
    b"thread",
    b"try",
    b"at",
    b"attr",
    b"class",
    b"cond",
    b"declare",
    b"define",
    b"dis",
    b"elsecase",
    b"elseof",
    b"export",
    b"feat",
    b"finally",
    b"from",
    b"functor",
    b"import",
    b"lock",
    b"meth",
    b"not",
    b"or",
    b"prepare",
    b"prop",
    b"require",
    b"self",
];

/// Whether two texts have the same bytes.
pub fn same_bytes(left: &[u8], right: &[u8]) -> bool
    ensures { result ≡ list_eq left.now right.now }
{
    left == right
}

/// Whether an atom's text stands by itself: a word with a small letter in front that has no other meaning.
pub fn is_plain(word: &[u8]) -> bool
    ensures { result ≡ is_plain word.now }
{
    is_small_word(word) && !is_reserved(word) && !is_constant(word)
}

fn is_small_word(word: &[u8]) -> bool
    ensures { result ≡ is_small_word word.now }
{
    match word {
        [] => false,
        [first, rest @ ..] => is_lower(*first) && go_on_word(rest),
    }
}

fn is_lower(byte: u8) -> bool
    ensures { result ≡ is_lower byte }
{
    b'a' <= byte && byte <= b'z'
}

fn go_on_word(bytes: &[u8]) -> bool
    ensures { result ≡ list_all goes_on_word bytes.now }
{
    bytes.iter().all(|byte| goes_on_word(*byte))
}

/// A letter, a digit or an underscore.
fn goes_on_word(byte: u8) -> bool
    ensures { result ≡ goes_on_word byte }
{
    (b'A' <= byte && byte <= b'Z')
        || is_lower(byte)
        || (b'0' <= byte && byte <= b'9')
        || byte == b'_'
}

fn is_reserved(word: &[u8]) -> bool
    ensures { result ≡ is_reserved word.now }
{
    is_among(word, &RESERVED)
}

fn is_among(text: &[u8], others: &[&[u8]]) -> bool
    ensures { result ≡ list_any (λ other. list_eq text.now other.now) others.now }
{
    others.iter().any(|other| same_bytes(text, other))
}

/// Whether a word is `true`, `false` or `unit`.
fn is_constant(word: &[u8]) -> bool
    ensures { result ≡ is_some (constant_of word.now) }
{
    if same_bytes(word, b"true") {
        return true;
    }
    if same_bytes(word, b"false") {
        return true;
    }
    same_bytes(word, b"unit")
}
