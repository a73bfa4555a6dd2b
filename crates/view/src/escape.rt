// Texts of a source in a page.

ghost use Rattle.std.specs.Prelude.{◌≡◌, ◌++◌, IfOk, OnOk};
ghost use Rattle.view.specs.Escaped.{IsEscapeOf, IsHarmless, escape_of};

use std::alloc::{AllocError, Global};

// What stands in a page for a byte that is no text there: the sign of a character that cannot be shown.
const NO_TEXT: &str = "&#65533;";

// Whether a byte cannot be shown: it is a control character, or part of a text that is not UTF-8.
fn is_no_text(byte: u8, is_text: bool) -> bool
    ensures { result ≡ Rattle.view.specs.Escaped.is_no_text byte is_text }
{
    (byte < 32 && byte != 9) || byte == 127 || (byte >= 128 && !is_text)
}

fn add_escaped(text: &mut Vec<u8>, byte: u8, is_text: bool) -> Result<(), AllocError>
    ensures { OnOk result (text.new.items ≡ text.old.items ++ escape_of is_text byte) }
{
    match byte {
        b'&' => text.extend_from_slice(b"&amp;"),
        b'<' => text.extend_from_slice(b"&lt;"),
        b'>' => text.extend_from_slice(b"&gt;"),
        b'"' => text.extend_from_slice(b"&quot;"),
        b'\'' => text.extend_from_slice(b"&#39;"),
        _ => {
            if is_no_text(byte, is_text) {
                return text.extend_from_slice(NO_TEXT.as_bytes());
            }
            text.push(byte)?;
            Ok(())
        }
    }
}

/// A text as it stands in a page, between tags or in an attribute: no byte of it is `<`, `>`, `"` or `'`, and each `&`
/// begins one of the names that stand for a byte. A byte that cannot be shown is there as the sign for that. The error
/// comes where an allocation fails.
pub fn escaped(alloc: Global, bytes: &[u8]) -> Result<Vec<u8>, AllocError>
    ensures escaped { IfOk result (λ text. IsEscapeOf text.items bytes.now) }
    ensures harmless { IfOk result (λ text. IsHarmless text.items) }
{
    let is_text = str::from_utf8(bytes).is_ok();
    let mut text = Vec::new(alloc);
    'bytes: for byte in bytes {
        add_escaped(&mut text, *byte, is_text)?;
    }
    Ok(text)
}
