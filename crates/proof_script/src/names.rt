//! Whether bytes are a name of a report.

ghost use Rattle.std.specs.Prelude.{◌≡◌, ◌↔◌, IsTrue};
ghost use Rattle.std.specs.List.{list_any};
ghost use Rattle.std.specs.Str.{bytes_eq, chars, IsUtf8};
ghost use Rattle.spec_text.specs.Names.{IsName};
ghost use Rattle.proof_script.specs.Names.{IsReportName, reserved_words};

use spec_text::name_at;

const MAX_NAME_BYTES: usize = 64;

/// Whether the bytes are a name that may appear in a report.
pub fn is_report_name(bytes: &[u8]) -> bool
    ensures { IsTrue result ↔ IsReportName bytes.now }
{
    if bytes.len() > MAX_NAME_BYTES || is_reserved(bytes) {
        return false;
    }
    is_name(bytes)
}

fn is_reserved(word: &[u8]) -> bool
    ensures { result ≡ list_any (bytes_eq word.now) reserved_words }
{
    if word == b"spike".as_slice() {
        true
    } else if word == b"sort".as_slice() {
        true
    } else if word == b"fun".as_slice() {
        true
    } else if word == b"rule".as_slice() {
        true
    } else if word == b"goal".as_slice() {
        true
    } else if word == b"if".as_slice() {
        true
    } else if word == b"unless".as_slice() {
        true
    } else if word == b"order".as_slice() {
        true
    } else if word == b"status".as_slice() {
        true
    } else if word == b"equal".as_slice() {
        true
    } else {
        word == b"_".as_slice()
    }
}

/// Whether the whole bytes are a name.
fn is_name(bytes: &[u8]) -> bool
    ensures { IsTrue result ↔ (IsUtf8 bytes.now × IsName (chars bytes.now)) }
{
    match str::from_utf8(bytes) {
        Ok(text) => !text.is_empty() && name_at(text, 0) == text.len(),
        Err(_) => false,
    }
}
