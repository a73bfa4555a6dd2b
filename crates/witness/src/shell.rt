// A name as a shell takes it.

ghost use Rattle.std.specs.Prelude.{◌≡◌, ◌≤◌, OnOk, length};
ghost use Rattle.std.specs.List.{prefix_len};
ghost use Rattle.std.specs.Io.KnownBytes.{Appends};
ghost use Rattle.witness.specs.Shell.{is_dashed, is_plain, quoted, quoted_byte, shell_word};

use std::io;
use std::io::Write;

fn is_plain(b: u8) -> bool
    ensures { result ≡ is_plain b }
{
    (b >= b'a' && b <= b'z')
        || (b >= b'A' && b <= b'Z')
        || (b >= b'+' && b <= b':')
        || b == b'_'
        || b >= 128
}

// How many bytes at the front stand for themselves.
fn plain_len(name: &[u8]) -> usize
    ensures value { result ≡ prefix_len is_plain name.now }
    ensures within { result ≤ length name.now }
{
    name.iter().take_while(|b| is_plain(**b)).count()
}

// A byte between quotation marks: one of these stands outside, behind a backslash.
fn quoted_byte<W: Write>(byte: u8, out: &mut W) -> io::Result<()>
    ensures { OnOk result (Appends (W.contents out.old) (W.contents out.new) (quoted_byte byte)) }
{
    if byte == b'\'' {
        return out.write_all(b"'\\''".as_slice());
    }
    out.write_all([byte].as_slice())
}

fn quoted_text<W: Write>(name: &[u8], out: &mut W) -> io::Result<()>
    ensures { OnOk result (Appends (W.contents out.old) (W.contents out.new) (quoted name.now)) }
{
    'bytes: for byte in name {
        quoted_byte(*byte, out)?;
    }
    Ok(())
}

/// Writes a name so that a shell takes it as one word: between quotation marks, unless each of its bytes stands for itself.
pub fn word_text<W: Write>(name: &[u8], out: &mut W) -> io::Result<()>
    ensures { OnOk result (Appends (W.contents out.old) (W.contents out.new) (shell_word name.now)) }
{
    if plain_len(name) == name.len() {
        return out.write_all(name);
    }
    out.write_all(b"'".as_slice())?;
    quoted_text(name, out)?;
    out.write_all(b"'".as_slice())
}

/// Whether a name could be taken for an option.
pub fn is_dashed(name: &[u8]) -> bool
    ensures { result ≡ is_dashed name.now }
{
    match name {
        [first, ..] => *first == b'-',
        [] => false,
    }
}
