//! Tests of oz_base: texts, and their numbers.
use oz_base::{Copies, Text, Words};
use std::test::Fail;

#[test]
fn a_repeated_text_keeps_its_number(rt: HostRuntime) -> Result<(), Fail> {
    let mut words = Words::new(rt.alloc());
    let texts = ["Browse", "Show", "", "Browse", "Show "];
    let numbers = [0, 1, 2, 0, 3];
    for i in 0..5 {
        assert_eq!(rt; words.number(texts[i].as_bytes())?, numbers[i]);
    }
    assert_eq!(rt; words.len(), 4);
    assert!(rt; words.text(0) == Some("Browse".as_bytes()));
    assert!(rt; words.text(2) == Some("".as_bytes()));
    assert!(rt; words.text(4) == None);
    Ok(())
}

#[test]
fn a_text_has_an_equal_copy(rt: HostRuntime) -> Result<(), Fail> {
    let text = Text::from_vec(Vec::from_array(rt.alloc(), [b'O', b'z'])?);
    let copy = text.copied(rt.alloc())?;
    assert!(rt; copy == text);
    assert!(rt; copy.as_slice() == "Oz".as_bytes());
    Ok(())
}
