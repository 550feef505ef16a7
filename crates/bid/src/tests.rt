// Lines of each kind, right and wrong, and whole texts there and back.

use bidtext::{Expected, TextFault, read_line, text_words, words_text};
use std::alloc::Global;
use std::process::Abort;
use std::test::Fail;

// What is told of a line, none where it is read.
fn check_line(rt: &impl Abort, heap: Global, line: &str, text: Option<&str>) -> Result<(), Fail> {
    let Err(expected) = read_line(line.as_bytes()) else {
        assert!(rt; text.is_none());
        return Ok(());
    };
    let told = expected.to_string(heap)?;
    assert!(rt; text == Some(told.as_str()));
    Ok(())
}

#[test]
fn lines_of_each_kind(rt: HostRuntime) -> Result<(), Fail> {
    let name = "a name of 1 to 8 printable characters, or hex: and 16 hexadecimal digits";
    let table = [
        ("\t # only a comment", None),
        ("close # or not\r", None),
        ("exit 268435455 007", None),
        ("unit hex:484f4C542D312020 1 7 taker years 1 random 0", None),
        (
            "bid 1 2",
            Some("auction, corner, unit, exit, years, back or close"),
        ),
        ("auction 7000", Some("the word cap")),
        ("corner 10 -1", Some("a number in decimal digits")),
        ("corner 10", Some("a number in decimal digits")),
        ("exit 268435456 1", Some("a number of at most 268435455")),
        (
            "exit 99999999999999999999 1",
            Some("a number of at most 268435455"),
        ),
        ("back 1", Some("nothing more on the line")),
        ("unit LONGNAMES 1 new maker years 1 random 0", Some(name)),
        ("unit hex:12 1 new maker years 1 random 0", Some(name)),
        (
            "unit A 1 old maker years 1 random 0",
            Some("existing, refurbishing, new, demand or the number of a class"),
        ),
        ("unit A 1 new both years 1 random 0", Some("taker or maker")),
        ("unit A 1 new maker 1", Some("the word years")),
    ];
    for (line, text) in table {
        check_line(&rt, rt.alloc(), line, text)?;
    }
    Ok(())
}

#[test]
fn terms_word_by_word(rt: HostRuntime) -> Result<(), Fail> {
    let table = [
        (
            "auction cap 1 spread 2 threshold 3 curve stepped order name",
            None,
        ),
        ("auction cap 1 2", Some("the word spread")),
        ("auction cap 1 spread 2 3", Some("the word threshold")),
        (
            "auction cap 1 spread 2 threshold 3 straight",
            Some("the word curve"),
        ),
        (
            "auction cap 1 spread 2 threshold 3 curve flat",
            Some("straight or stepped"),
        ),
        (
            "auction cap 1 spread 2 threshold 3 curve stepped rule",
            Some("the word order"),
        ),
        (
            "auction cap 1 spread 2 threshold 3 curve stepped order size",
            Some("rule or name"),
        ),
        ("unit A 1 new maker years 1 4", Some("the word random")),
    ];
    for (line, text) in table {
        check_line(&rt, rt.alloc(), line, text)?;
    }
    Ok(())
}

#[test]
fn text_there_and_back(rt: HostRuntime) -> Result<(), Fail> {
    let heap = rt.alloc();
    let text =
        "  unit   hex:6865783A20202020 1 0 maker years 2 random 3 # a name that begins with hex:\n\nunit A 1 9 taker years 2 random 3";
    let Ok(words) = text_words(heap, text.as_bytes()) else {
        return Err(Fail::new("the text is not read"));
    };
    assert_eq!(rt; words.len(), 56);
    let listed = words_text(heap, words.as_slice())?;
    assert!(rt; listed.fault.is_none());
    assert!(rt;
        listed.text.as_str()
            == "unit hex:6865783A20202020 1 existing maker years 2 random 3\nunit A 1 9 taker years 2 random 3\n"
    );
    Ok(())
}

#[test]
fn wrong_line_and_damage(rt: HostRuntime) -> Result<(), Fail> {
    let heap = rt.alloc();
    let wrong = text_words(heap, b"back\n\nclose 1\nback 2");
    assert!(rt; matches!(wrong, Err(TextFault::Line(3, Expected::End))));
    let listed = words_text(heap, &[0x60, 0, 0, 0, 0x30, 0, 0, 0])?;
    assert!(rt; listed.text.as_str() == "back\n");
    let Some(fault) = listed.fault else {
        return Err(Fail::new("no fault is told"));
    };
    assert_eq!(rt; u32::from(fault), 25);
    assert_eq!(rt; fault.place, 1);
    Ok(())
}
