//! The longest name that begins a text.

ghost use Rattle.std.specs.Prelude.{◌≡◌, ◌+◌, ◌<◌, ◌≤◌, drop, length};
ghost use Rattle.std.specs.Str.{chars, IsCharBoundary};
ghost use Rattle.spec_text.specs.Names.{LongestName, NoName};
ghost use Rattle.spec_text.specs.Scanner.{name_of, run_of};

use crate::characters::first_char;

/// How many bytes go on with a name.
fn run_len(text: &str) -> usize
    ensures value { result ≡ run_of (chars text.now) }
    ensures within { result ≤ length text.now }
{
    let mut rest = text;
    let mut len = 0;
    while let Some((c, after)) = first_char(rest) {
        if !unicode_ident::is_xid_continue(c) {
            break;
        }
        len += c.len_utf8();
        rest = after;
    }
    len
}

/// How many bytes the longest name at the front takes.
fn name_len(text: &str) -> usize
    ensures value { result ≡ name_of (chars text.now) }
    ensures within { result ≤ length text.now }
{
    match first_char(text) {
        Some((c, rest)) if unicode_ident::is_xid_start(c) || c == '_' => {
            c.len_utf8() + run_len(rest)
        }
        _ => 0,
    }
}

/// The length in bytes of the longest name that begins at this byte of the text, and 0 if none
/// does.
pub fn name_at(text: &str, at: usize) -> usize
    requires { IsCharBoundary text.now at }
    ensures none { result ≡ 0 → NoName (chars (drop at text.now)) }
    ensures longest { 0 < result → LongestName (chars (drop at text.now)) result }
    ensures within { at + result ≤ length text.now }
{
    name_len(&text[at..])
}
