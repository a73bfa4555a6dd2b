// Texts of a source where they are shown: in a page, and inside a string of DOT.

use std::test::Fail;

fn is_mark(byte: u8) -> bool {
    byte == b'<' || byte == b'>' || byte == b'"' || byte == b'\''
}

// each byte that a comment may hold, alone and with all others
#[test]
fn a_page_has_each_byte(rt: HostRuntime) -> Result<(), Fail> {
    let mut all = Vec::new(rt.alloc());
    for byte in 0..=255u8 {
        all.push(byte)?;
        let alone = view::escaped(rt.alloc(), &[byte])?;
        assert!(rt; !alone.is_empty());
        assert!(rt; !alone.iter().any(|b| is_mark(*b)));
    }
    let text = view::escaped(rt.alloc(), &all)?;
    assert!(rt; !text.iter().any(|b| is_mark(*b)));
    assert!(rt; str::from_utf8(&text).is_ok());
    Ok(())
}

#[test]
fn a_page_keeps_texts(rt: HostRuntime) -> Result<(), Fail> {
    let text = view::escaped(rt.alloc(), "</code>\t\u{e9}&amp;".as_bytes())?;
    let wanted = "&lt;/code&gt;\t\u{e9}&amp;amp;".as_bytes();
    assert_eq!(rt; text.as_slice(), wanted);
    let cut = view::escaped(rt.alloc(), b"a\xff\r'")?;
    assert_eq!(rt; cut.as_slice(), b"a&#65533;&#65533;&#39;".as_slice());
    Ok(())
}

#[test]
fn a_graph_keeps_texts(rt: HostRuntime) -> Result<(), Fail> {
    let text = graph::quoted(rt.alloc(), "a\t\"\\\u{e9}&lt;<b>".as_bytes())?;
    let wanted = "\"a\t\\\"\\\\\u{e9}&amp;lt;<b>\"".as_bytes();
    assert_eq!(rt; text.as_slice(), wanted);
    let cut = graph::escaped(rt.alloc(), b"a\xff\r\n")?;
    assert_eq!(rt; cut.as_slice(), "a\u{fffd}\u{fffd}\u{fffd}".as_bytes());
    Ok(())
}
