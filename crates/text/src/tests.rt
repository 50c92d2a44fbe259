use crate::field::{Field, Fields};
use crate::line::Line;
use crate::numeral::read_numeral;
use std::test::Fail;

#[test]
fn numerals_are_read(rt: HostRuntime) {
    assert_eq!(rt; read_numeral(b"0"), Some(0));
    assert_eq!(rt; read_numeral(b"-5"), Some(-5));
    assert_eq!(rt; read_numeral(b"1000000"), Some(1_000_000));
    assert_eq!(rt;
        read_numeral(b"1234567890123456789012345678901234567890"),
        Some(100_000_000)
    );
    assert_eq!(rt;
        read_numeral(b"-1234567890123456789012345678901234567890"),
        Some(-100_000_000)
    );
}

#[test]
fn other_texts_are_not(rt: HostRuntime) {
    assert_eq!(rt; read_numeral(b""), None);
    assert_eq!(rt; read_numeral(b"-"), None);
    assert_eq!(rt; read_numeral(b"-0"), None);
    assert_eq!(rt; read_numeral(b"00"), None);
    assert_eq!(rt; read_numeral(b"007"), None);
    assert_eq!(rt; read_numeral(b"+1"), None);
    assert_eq!(rt; read_numeral(b"1 "), None);
}

fn fields(text: &[u8], number: u32) -> Fields {
    Fields::of(Line { text, number })
}

#[test]
fn fields_are_taken(rt: HostRuntime) -> Result<(), Fail> {
    let mut rest = fields(b"node=par kids=2 need=-1", 3);
    let kind = rest.word(b"node").ok_or("no word")?;
    assert!(rt; kind == b"par".as_slice());
    assert_eq!(rt; rest.one_number(b"kids"), None);
    assert_eq!(rt; rest.two_numbers(b"need", b"kids"), None);
    assert_eq!(rt; rest.two_numbers(b"kids", b"need"), Some((2, -1)));
    Ok(())
}

#[test]
fn a_field_has_its_line(rt: HostRuntime) -> Result<(), Fail> {
    let mut rest = fields(b"key=a=b", 7);
    let field = rest.next().ok_or("no field")?;
    assert_eq!(rt; rest.end(), Some(()));
    assert!(rt; field.name() == b"key".as_slice() && field.value() == b"a=b".as_slice());
    assert_eq!(rt; field.line(), 7);
    match field {
        Field::Word { .. } => Ok(()),
        Field::Number { .. } => Err(Fail::new("a word is no number")),
    }
}

#[test]
fn a_word_for_no_number(rt: HostRuntime) -> Result<(), Fail> {
    let mut rest = fields(b"device=none key=4", 1);
    let device = rest.number_or(b"device", b"none").ok_or("no device")?;
    assert_eq!(rt; device, None);
    let key = rest.number_or(b"key", b"none").ok_or("no key")?;
    assert_eq!(rt; key, Some(4));
    assert_eq!(rt; rest.end(), Some(()));
    Ok(())
}

#[test]
fn one_space_between(rt: HostRuntime) {
    assert_eq!(rt; fields(b"a=1  b=2", 1).two_numbers(b"a", b"b"), None);
    assert_eq!(rt; fields(b"a=1 ", 1).one_number(b"a"), None);
    assert_eq!(rt; fields(b"a=1", 1).one_number(b"a"), Some(1));
}

#[test]
fn fields_end_where_no_field_is(rt: HostRuntime) {
    assert_eq!(rt; fields(b"a=1 b c=2", 1).count(), 1);
    assert_eq!(rt; fields(b"a=1 b= c=2", 1).count(), 3);
}
