//! Texts as a page holds them: no byte of theirs is markup.
#![tactic(auto)]

ghost use Rattle.std.specs.Prelude.{◌≡◌, ◌++◌, ◌<◌, OnOk};
ghost use Rattle.alarm_page.specs.Escapes as specs;
ghost use Rattle.alarm_page.specs.Laws.{AreBytes};

use fam_outer::NoMemory;

/// Whether a byte stands for itself in a page: a newline, or a printable ASCII character that is no markup.
fn is_plain(byte: u8) -> bool
    ensures { result ≡ specs.is_plain byte }
{
    byte == b'\n'
        || (b' ' <= byte
            && byte <= b'~'
            && byte != b'"'
            && byte != b'&'
            && byte != b'\''
            && byte != b'<'
            && byte != b'>')
}

/// A number below 16 as a digit.
fn hex_digit(number: u8) -> u8
    requires { number < 16 }
    ensures { result ≡ specs.hex_digit number }
{
    if number < 10 {
        b'0' + number
    } else {
        b'a' + (number - 10)
    }
}

/// Adds what a byte is written as.
fn push_escape(text: &mut Vec<u8>, byte: u8) -> Result<(), NoMemory>
    ensures { OnOk result (text.new.items ≡ text.old.items ++ specs.escape byte) }
{
    if is_plain(byte) {
        text.push(byte)?;
    } else {
        let reference = [
            b'&',
            b'#',
            b'x',
            hex_digit(byte / 16),
            hex_digit(byte % 16),
            b';',
        ];
        text.extend_from_slice(&reference)?;
    }
    Ok(())
}

/// Adds what these bytes are written as. A byte that stands for itself is written so, and each other as `&#xHH;`, in hexadecimal digits.
pub fn push_escaped(text: &mut Vec<u8>, bytes: &[u8]) -> Result<(), NoMemory>
    ensures written { OnOk result (text.new.items ≡ text.old.items ++ specs.escaped bytes.now) }
    ensures bytes { OnOk result (AreBytes bytes.now) }
{
    for byte in bytes {
        push_escape(text, *byte)?;
    }
    Ok(())
}
