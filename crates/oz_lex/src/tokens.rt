//! Tokens as the grammar sees them.
ghost use Rattle.std.specs.Prelude.{◌≡◌, ◌≤◌, ◌+◌, ℕ, pos, true, List, [], Some, IfOk, OnOk, OnErr, length, fold, find, map, option_map};
ghost use Rattle.oz_base.specs.Lists.{list_eq};
ghost use Rattle.oz_base.specs.Words.{with_text};
ghost use Rattle.oz_language.specs.declared.token.Lexeme.{Lexeme};
ghost use Rattle.oz_language.specs.declared.token.Token.{Token};
ghost use Rattle.oz_language.specs.declared.token.Token.TheVariants as token;
ghost use Rattle.oz_language.specs.Tokens.{is_literal};
ghost use Rattle.oz_language.specs.Wording.{bytes_of, first_words, word_in, with_word, atom_word, atom_unless, unquoted, label_word, joining, token_in, word_token, literal_in, quoted_in, label_in, constant_of, fixed_token, fixed, number_of, char_value};
ghost use Rattle.oz_lex.specs.Lexing.{IsLexeme, IsNew, KeepsNumbers, TakesMemory, placed};

use crate::bytes::{is_reserved, same_bytes};
use crate::integers::int_token;
use crate::meanings::{char_value, has_escape, inside_of, meant, without_last};
use crate::quotes::begins_with;
use oz_base::Words;
use oz_language::{Comparison, Lexeme, Literal, Operator, Sort, Token};
use std::alloc::{AllocError, Global};

/// The tokens of symbols and reserved words, as they are at the front of a text.
static FIXED: [(&[u8], Token); 55] = [
    (b"_", Token::Any { at: 0 }),
    (b"(", Token::OpenParen { at: 0 }),
    (b")", Token::CloseParen),
    (b"[", Token::OpenBracket { at: 0 }),
    (b"]", Token::CloseBracket),
    (b"{", Token::OpenBrace { at: 0 }),
    (b"}", Token::CloseBrace),
    (b":", Token::Colon),
    (b"=", Token::Equals),
    (b":=", Token::Assign),
    (b"::", Token::Domain),
    (b":::", Token::Domains),
    (b"[]", Token::Box),
    (b"|", Token::Bar),
    (b"#", Token::Hash),
    (b".", Token::Dot),
    (b"@", Token::At { at: 0 }),
    (b"$", Token::Dollar),
    (
        b"orelse",
        Token::Infix {
            operator: Operator::OrElse,
        },
    ),
    (
        b"andthen",
        Token::Infix {
            operator: Operator::AndThen,
        },
    ),
    (
        b"==",
        Token::Infix {
            operator: Operator::Same,
        },
    ),
    (
        b"\\=",
        Token::Infix {
            operator: Operator::Differs,
        },
    ),
    (
        b"<",
        Token::Infix {
            operator: Operator::Less,
        },
    ),
    (
        b"=<",
        Token::Infix {
            operator: Operator::AtMost,
        },
    ),
    (
        b">",
        Token::Infix {
            operator: Operator::Greater,
        },
    ),
    (
        b">=",
        Token::Infix {
            operator: Operator::AtLeast,
        },
    ),
    (
        b"+",
        Token::Infix {
            operator: Operator::Plus,
        },
    ),
    (
        b"-",
        Token::Infix {
            operator: Operator::Minus,
        },
    ),
    (
        b"*",
        Token::Infix {
            operator: Operator::Times,
        },
    ),
    (
        b"div",
        Token::Infix {
            operator: Operator::Div,
        },
    ),
    (
        b"mod",
        Token::Infix {
            operator: Operator::Mod,
        },
    ),
    (
        b"=:",
        Token::Relates {
            comparison: Comparison::Equal,
        },
    ),
    (
        b"\\=:",
        Token::Relates {
            comparison: Comparison::Unequal,
        },
    ),
    (
        b"<:",
        Token::Relates {
            comparison: Comparison::Below,
        },
    ),
    (
        b"=<:",
        Token::Relates {
            comparison: Comparison::NotAbove,
        },
    ),
    (
        b">:",
        Token::Relates {
            comparison: Comparison::Above,
        },
    ),
    (
        b">=:",
        Token::Relates {
            comparison: Comparison::NotBelow,
        },
    ),
    (b"case", Token::Case { at: 0 }),
    (b"catch", Token::Catch),
    (b"choice", Token::Choice { at: 0 }),
    (b"else", Token::Else),
    (b"elseif", Token::ElseIf),
    (b"end", Token::End),
    (b"fail", Token::Fail { at: 0 }),
    (b"fun", Token::Fun { at: 0 }),
    (b"if", Token::If { at: 0 }),
    (b"in", Token::In),
    (b"local", Token::Local { at: 0 }),
    (b"of", Token::Of),
    (b"proc", Token::Proc { at: 0 }),
    (b"raise", Token::Raise { at: 0 }),
    (b"skip", Token::Skip),
    (b"then", Token::Then),
    (b"thread", Token::Thread { at: 0 }),
    (b"try", Token::Try),
];

/// The words that each text has: the names that need no declaration, and atoms.
static FIRST_WORDS: [&[u8]; 62] = [
    b"Script",
    b"Show",
    b"FD",
    b"Label",
    b"Width",
    b"Arity",
    b"NewName",
    b"Wait",
    b"NewCell",
    b"Access",
    b"Assign",
    b"Exchange",
    b"NewPort",
    b"Send",
    b"ByNeed",
    b"NewSpace",
    b"Ask",
    b"Choose",
    b"Commit",
    b"Clone",
    b"Inject",
    b"Merge",
    b"nil",
    b"|",
    b"#",
    b"lazy",
    b"failure",
    b"tell",
    b"fail",
    b"top",
    b"space",
    b"error",
    b"kernel",
    b"overflow",
    b"div0",
    b"type",
    b"apply",
    b"arity",
    b"feature",
    b"boolean",
    b"noElse",
    b"domain",
    b"spaceParent",
    b"spaceChoice",
    b"spaceMerged",
    b"spaceRaised",
    b"globalState",
    b"cell",
    b"port",
    b"io",
    b"failed",
    b"succeeded",
    b"alternatives",
    b"raised",
    b"merged",
    b"opaque",
    b"fd",
    b"distinct",
    b"distribute",
    b"naive",
    b"ff",
    b"split",
];

/// The words that each text has.
pub fn first_words(alloc: Global) -> Result<Words, AllocError>
    ensures { IfOk result (λ words. words ≡ first_words) }
{
    numbered(alloc, &FIRST_WORDS)
}

/// These words, each once, in their order.
fn numbered(alloc: Global, texts: &[&[u8]]) -> Result<Words, AllocError>
    ensures { IfOk result (λ words. words ≡ fold with_text [] (map (λ text. text.now) texts.now)) }
{
    let mut words = Words::new(alloc);
    'texts: for text in texts {
        words.number(text)?;
    }
    Ok(words)
}

/// A token of the text as the grammar sees it. A word that it has joins the words, and has the same number under all words
/// that join later. It refuses only a new word, as `Words::number` does, and one with an escape, which takes memory to read.
pub fn token_of(words: &mut Words, text: &[u8], lexeme: Lexeme) -> Result<Token, AllocError>
    requires { IsLexeme text.now lexeme }
    ensures words { OnOk result (words.new ≡ joining text.now words.old lexeme) }
    ensures token { IfOk result (λ token. (more : List Lexeme) → token ≡ token_in (fold (joining text.now) words.new more) text.now lexeme) }
    ensures err { OnErr result (words.new ≡ words.old) }
    ensures refused { OnErr result (TakesMemory words.old (bytes_of text.now lexeme) (word_in lexeme.sort (bytes_of text.now lexeme))) }
{
    let bytes = bytes_of(text, lexeme);
    match lexeme.sort {
        Sort::Var => Ok(Token::Var {
            name: words.number(bytes)?,
            at: lexeme.at,
        }),
        Sort::Word => word_token(words, lexeme.at, bytes),
        Sort::Label => Ok(Token::Label {
            literal: label_in(words, without_last(bytes))?,
            at: lexeme.at,
        }),
        Sort::Int => Ok(int_token(lexeme.at, bytes)),
        Sort::Quoted => Ok(Token::Literal {
            literal: quoted_in(words, bytes)?,
            at: lexeme.at,
        }),
        Sort::String => Ok(Token::String {
            text: quoted_number(words, bytes)?,
            at: lexeme.at,
        }),
        Sort::Char => Ok(char_token(lexeme.at, bytes)),
        Sort::Symbol => Ok(fixed_token(lexeme.at, bytes)),
    }
}

/// The token of a word that begins with a small letter, at its place.
fn word_token(words: &mut Words, at: usize, word: &[u8]) -> Result<Token, AllocError>
    ensures words { OnOk result (words.new ≡ with_word words.old (atom_word word.now)) }
    ensures token { IfOk result (λ token. (later : List (List ℕ)) → KeepsNumbers words.new later → token ≡ word_token later at word.now) }
    ensures err { OnErr result (words.new ≡ words.old) }
    ensures refused { OnErr result (IsNew words.old (atom_word word.now)) }
{
    if is_reserved(word) {
        return Ok(fixed_token(at, word));
    }
    Ok(Token::Literal {
        literal: literal_in(words, word)?,
        at,
    })
}

/// The literal of a label without its `(`.
fn label_in(words: &mut Words, bytes: &[u8]) -> Result<Literal, AllocError>
    requires { is_literal bytes.now ≡ true }
    ensures words { OnOk result (words.new ≡ with_word words.old (label_word bytes.now)) }
    ensures literal { IfOk result (λ literal. (later : List (List ℕ)) → KeepsNumbers words.new later → literal ≡ label_in later bytes.now) }
    ensures err { OnErr result (words.new ≡ words.old) }
    ensures refused { OnErr result (TakesMemory words.old bytes.now (label_word bytes.now)) }
{
    if begins_with(b'\'', bytes) {
        return quoted_in(words, bytes);
    }
    literal_in(words, bytes)
}

/// The number of the text that stands in quotes. A buffer is made only where an escape stands in it.
fn quoted_number(words: &mut Words, bytes: &[u8]) -> Result<u32, AllocError>
    ensures words { OnOk result (words.new ≡ with_text words.old (unquoted bytes.now)) }
    ensures number { IfOk result (λ number. (later : List (List ℕ)) → KeepsNumbers words.new later → number ≡ number_of later (unquoted bytes.now)) }
    ensures err { OnErr result (words.new ≡ words.old) }
    ensures refused { OnErr result (TakesMemory words.old bytes.now (Some (unquoted bytes.now))) }
{
    let inside = inside_of(bytes);
    if has_escape(inside) {
        let word = meant(words.allocator(), inside)?;
        return words.number(word.as_slice());
    }
    words.number(inside)
}

/// The atom that stands in quotes.
fn quoted_in(words: &mut Words, bytes: &[u8]) -> Result<Literal, AllocError>
    ensures words { OnOk result (words.new ≡ with_text words.old (unquoted bytes.now)) }
    ensures literal { IfOk result (λ literal. (later : List (List ℕ)) → KeepsNumbers words.new later → literal ≡ quoted_in later bytes.now) }
    ensures err { OnErr result (words.new ≡ words.old) }
    ensures refused { OnErr result (TakesMemory words.old bytes.now (Some (unquoted bytes.now))) }
{
    Ok(Literal::Atom(quoted_number(words, bytes)?))
}

/// The literal of a word, which joins the words where it is an atom.
fn literal_in(words: &mut Words, word: &[u8]) -> Result<Literal, AllocError>
    ensures words { OnOk result (words.new ≡ with_word words.old (atom_unless word.now (constant_of word.now))) }
    ensures literal { IfOk result (λ literal. (later : List (List ℕ)) → KeepsNumbers words.new later → literal ≡ literal_in later word.now) }
    ensures err { OnErr result (words.new ≡ words.old) }
    ensures refused { OnErr result (IsNew words.old (atom_unless word.now (constant_of word.now))) }
{
    if let Some(literal) = constant_of(word) {
        return Ok(literal);
    }
    Ok(Literal::Atom(words.number(word)?))
}

/// The literal that a word is by itself.
fn constant_of(word: &[u8]) -> Option<Literal>
    ensures { result ≡ constant_of word.now }
{
    if same_bytes(word, b"true") {
        Some(Literal::True)
    } else if same_bytes(word, b"false") {
        Some(Literal::False)
    } else if same_bytes(word, b"unit") {
        Some(Literal::Unit)
    } else {
        None
    }
}

/// A character as the grammar sees it: an integer.
fn char_token(at: usize, bytes: &[u8]) -> Token
    ensures { result ≡ token.Int (pos (char_value bytes.now)) at }
{
    Token::Int {
        value: char_value(bytes) as i128,
        at,
    }
}

/// A symbol or a reserved word as the grammar sees it, at its place.
#[tactic(auto, using(crate::proofs::Tables::fixed_at))]
fn fixed_token(at: usize, bytes: &[u8]) -> Token
    ensures { result ≡ fixed_token at bytes.now }
{
    match known_token(bytes) {
        Some(token) => placed(at, token),
        None => Token::Other,
    }
}

/// The token at a place.
fn placed(at: usize, token: Token) -> Token
    ensures { result ≡ placed at token }
{
    match token {
        Token::Any { .. } => Token::Any { at },
        Token::OpenParen { .. } => Token::OpenParen { at },
        Token::OpenBracket { .. } => Token::OpenBracket { at },
        Token::OpenBrace { .. } => Token::OpenBrace { at },
        Token::At { .. } => Token::At { at },
        Token::Case { .. } => Token::Case { at },
        Token::Choice { .. } => Token::Choice { at },
        Token::Fail { .. } => Token::Fail { at },
        Token::Fun { .. } => Token::Fun { at },
        Token::If { .. } => Token::If { at },
        Token::Local { .. } => Token::Local { at },
        Token::Proc { .. } => Token::Proc { at },
        Token::Raise { .. } => Token::Raise { at },
        Token::Thread { .. } => Token::Thread { at },
        _ => token,
    }
}

/// The token of these bytes at the front of a text, where a production names it.
fn known_token(bytes: &[u8]) -> Option<Token>
    ensures { result ≡ option_map (λ (p : List ℕ × Token). p.1) (find (λ (p : List ℕ × Token). list_eq bytes.now p.0) (fixed 0)) }
{
    token_among(bytes, &FIXED)
}

/// The token that stands beside these bytes in a table.
fn token_among(bytes: &[u8], table: &[(&[u8], Token)]) -> Option<Token>
    ensures { result ≡ option_map (λ (p : List ℕ × Token). p.1) (find (λ (p : List ℕ × Token). list_eq bytes.now p.0) (map (λ p. (p.0.now, p.1)) table.now)) }
{
    first_beside(bytes, table)
}

fn first_beside(bytes: &[u8], table: &[(&[u8], Token)]) -> Option<Token>
    ensures { result ≡ option_map (λ p. p.1) (find (λ p. list_eq bytes.now p.0.now) table.now) }
{
    let (_, token) = table.iter().find(|(text, _)| same_bytes(bytes, text))?;
    Some(*token)
}

fn bytes_of(text: &[u8], lexeme: Lexeme) -> &[u8]
    requires { lexeme.at + lexeme.len ≤ length text.now }
    ensures { result.now ≡ bytes_of text.now lexeme }
{
    &text[lexeme.at..lexeme.at + lexeme.len]
}
