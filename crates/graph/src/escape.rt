// Texts of a source in DOT.

ghost use Rattle.std.specs.Prelude.{◌≡◌, ◌++◌, IfOk, OnOk};
ghost use Rattle.graph.specs.Escaped.{IsEscapeOf, IsOneLine, IsOneString, IsQuoted, StaysInside, escape_of};

use std::alloc::{AllocError, Global};

// What stands for a byte that is no text there: U+FFFD.
const NO_TEXT: &[u8] = b"\xef\xbf\xbd";

// Whether a byte cannot be shown: it is a control character, or part of a text that is not UTF-8.
fn is_no_text(byte: u8, is_text: bool) -> bool
    ensures { result ≡ Rattle.graph.specs.Escaped.is_no_text byte is_text }
{
    (byte < 32 && byte != 9) || byte == 127 || (byte >= 128 && !is_text)
}

fn add_escaped(text: &mut Vec<u8>, byte: u8, is_text: bool) -> Result<(), AllocError>
    ensures { OnOk result (text.new.items ≡ text.old.items ++ escape_of is_text byte) }
{
    match byte {
        b'"' => text.extend_from_slice(b"\\\""),
        b'\\' => text.extend_from_slice(b"\\\\"),
        b'&' => text.extend_from_slice(b"&amp;"),
        _ => {
            if is_no_text(byte, is_text) {
                return text.extend_from_slice(NO_TEXT);
            }
            text.push(byte)?;
            Ok(())
        }
    }
}

/// A text as it stands inside a string of DOT: a quotation mark and a backslash behind a backslash, and an ampersand as
/// `&amp;`, since names of characters are read there too. A byte that cannot be shown is there as U+FFFD. Whoever reads
/// the string is still inside it behind the text, whatever follows. The error comes where an allocation fails.
pub fn escaped(alloc: Global, bytes: &[u8]) -> Result<Vec<u8>, AllocError>
    ensures escaped { IfOk result (λ text. IsEscapeOf text.items bytes.now) }
    ensures inside { IfOk result (λ text. StaysInside text.items) }
    ensures one_line { IfOk result (λ text. IsOneLine text.items) }
{
    let is_text = str::from_utf8(bytes).is_ok();
    let mut text = Vec::new(alloc);
    'bytes: for byte in bytes {
        add_escaped(&mut text, *byte, is_text)?;
    }
    Ok(text)
}

/// A text as a string of DOT, between quotation marks. Whoever reads it comes to the end of the string where it ends,
/// whatever follows. The error comes where an allocation fails.
pub fn quoted(alloc: Global, bytes: &[u8]) -> Result<Vec<u8>, AllocError>
    ensures quoted { IfOk result (λ text. IsQuoted text.items bytes.now) }
    ensures string { IfOk result (λ text. IsOneString text.items) }
    ensures one_line { IfOk result (λ text. IsOneLine text.items) }
{
    let inner = escaped(alloc, bytes)?;
    let mut text = Vec::new(alloc);
    text.push(b'"')?;
    text.extend_from_slice(&inner)?;
    text.push(b'"')?;
    Ok(text)
}
