//! Tests of oz_lex.
use oz_language::{Comparison, Literal, Token};
use oz_lex::{LexError, first_words, lexemes, token_of};
use std::alloc::Global;
use std::test::Fail;

/// The tokens of a text as the grammar sees them.
fn tokens(alloc: Global, text: &[u8]) -> Result<Vec<Token>, LexError> {
    let found = lexemes(alloc, text)?;
    let mut words = first_words(alloc)?;
    let mut tokens = Vec::new(alloc);
    for lexeme in &found {
        tokens.push(token_of(&mut words, text, *lexeme)?)?;
    }
    Ok(tokens)
}

fn only_token(alloc: Global, text: &[u8]) -> Option<Token> {
    match tokens(alloc, text) {
        Ok(tokens) if tokens.len() == 1 => Some(tokens[0]),
        _ => None,
    }
}

fn atom(number: u32, at: usize) -> Token {
    Token::Literal {
        literal: Literal::Atom(number),
        at,
    }
}

fn label(number: u32, at: usize) -> Token {
    Token::Label {
        literal: Literal::Atom(number),
        at,
    }
}

fn var(name: u32, at: usize) -> Token {
    Token::Var { name, at }
}

#[test]
fn splits_a_text(rt: HostRuntime) -> Result<(), Fail> {
    let text = b"abc 'abc' 'true' 'a\\n\\''( \"x'y\" &\\n X\\=:nil|lazy FD [@ elseif _a";
    let found = tokens(rt.alloc(), text).ok().ok_or("tokens")?;
    let comparison = Comparison::Unequal;
    let expected = [
        atom(62, 0),
        atom(62, 4),
        atom(63, 10),
        label(64, 17),
        Token::String { text: 65, at: 26 },
        Token::Int { value: 10, at: 32 },
        var(66, 36),
        Token::Relates { comparison },
        atom(22, 40),
        Token::Bar,
        atom(25, 44),
        var(2, 49),
        Token::OpenBracket { at: 52 },
        Token::At { at: 53 },
        Token::ElseIf,
        Token::Any { at: 62 },
        atom(67, 63),
    ];
    assert_eq!(rt; found.as_slice(), expected.as_slice());
    Ok(())
}

fn bad_byte(alloc: Global, text: &[u8]) -> Option<usize> {
    match lexemes(alloc, text) {
        Err(LexError::BadByte { at }) => Some(at),
        _ => None,
    }
}

#[test]
fn names_the_bad_byte(rt: HostRuntime) {
    let cases: [(&[u8], Option<usize>); 12] = [
        (b"1.5", Some(1)),
        (b"X ~ 1", Some(2)),
        (b" /* x", Some(1)),
        (b"X=&", Some(2)),
        (b"&\\x", Some(0)),
        (b"\\", Some(0)),
        (b"1 . 5", None),
        (b"X='a\n'", Some(4)),
        (b"'a\\x'", Some(2)),
        (b" \"s\x7f\"", Some(3)),
        (b"X='a", Some(2)),
        (b"'a'\"\"", None),
    ];
    for (text, at) in cases {
        assert_eq!(rt; bad_byte(rt.alloc(), text), at);
    }
}

#[test]
fn keeps_to_the_limits_of_integers(rt: HostRuntime) {
    let cases: [(&[u8], Option<i128>); 5] = [
        (b"170141183460469231731687303715884105727", Some(i128::MAX)),
        (b"170141183460469231731687303715884105728", None),
        (b"~170141183460469231731687303715884105728", Some(i128::MIN)),
        (b"9999999999999999999999999999999999999999999", None),
        (b"~007", Some(-7)),
    ];
    for (text, value) in cases {
        let expected = match value {
            Some(value) => Token::Int { value, at: 0 },
            None => Token::Other,
        };
        assert_eq!(rt; only_token(rt.alloc(), text), Some(expected));
    }
}
