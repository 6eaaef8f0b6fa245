//! Blanks and comments.
ghost use Rattle.std.specs.Prelude.{◌≡◌, ◌≤◌, ◌<◌, ◌+◌, ◌-◌, length};
ghost use Rattle.oz_language.specs.Tokens.{line_length, close_length, block_length, gap_length, after_one};
ghost use Rattle.oz_lex.specs.Scanning.{begins_close};

use crate::bytes::is_blank;

/// How long the blank or the comment at the front is; 0 where there is none.
pub fn gap_len(text: &[u8]) -> usize
    ensures value { result ≡ gap_length text.now }
    ensures within { result ≤ length text.now }
{
    match text {
        [] => 0,
        [first, rest @ ..] => {
            if is_blank(*first) {
                1
            } else if *first == b'%' {
                1 + line_len(rest)
            } else if *first == b'/' {
                block_len(rest)
            } else {
                0
            }
        }
    }
}

/// How many bytes there are up to the first line feed.
fn line_len(text: &[u8]) -> usize
    ensures value { result ≡ line_length text.now }
    ensures within { result ≤ length text.now }
{
    for (place, byte) in text.iter().enumerate() {
        if *byte == b'\n' {
            return place;
        }
    }
    text.len()
}

/// How long a comment is, by what follows its first `/`; 0 where it does not end.
fn block_len(text: &[u8]) -> usize
    ensures value { result ≡ block_length text.now }
    ensures within { result ≤ length text.now + 1 }
{
    match text {
        [b'*', rest @ ..] => behind_two(close_len(rest)),
        _ => 0,
    }
}

fn behind_two(len: usize) -> usize
    requires { len < usize.MAX - 1 }
    ensures { result ≡ after_one (after_one len) }
{
    match len {
        0 => 0,
        len => len + 2,
    }
}

/// How many bytes there are up to the first `*/` and with it; 0 where there is none.
fn close_len(text: &[u8]) -> usize
    ensures value { result ≡ close_length text.now }
    ensures within { result ≤ length text.now }
{
    let mut n = 0;
    while text.len() - n >= 2 {
        if begins_close(&text[n..]) {
            return n + 2;
        }
        n += 1;
    }
    0
}

fn begins_close(text: &[u8]) -> bool
    ensures { result ≡ begins_close text.now }
{
    match text {
        [a, b, ..] => *a == b'*' && *b == b'/',
        _ => false,
    }
}
