//! The scanner: `scan` finds the tokens of bytes.

ghost use Rattle.std.specs.Prelude.{◌≡◌, ℕ, List, false, None, Some, IfErr, IfOk, MatchOption};
ghost use Rattle.std.specs.Prelude.{MatchResult};
ghost use Rattle.std.specs.Str.{chars, IsUtf8};
ghost use Rattle.spec_text.specs.Gaps.{is_blank};
ghost use Rattle.spec_text.specs.Scanner.{digits, first_token, is_digit, sign_of, skip_gaps};
ghost use Rattle.spec_text.specs.Scanner.{skip_name};
ghost use Rattle.spec_text.specs.Tokens.{AreTokens, IsFault, IsTextFault, IsTokens, TellsFault};

use crate::characters::first_char;
use crate::tokens::{ScanError, Token, TokenKind};
use std::alloc::Global;

fn is_blank(c: char) -> bool
    ensures { result ≡ is_blank c }
{
    c == ' ' || c == '\t' || c == '\r' || c == '\n'
}

fn is_digit(c: char) -> bool
    ensures { result ≡ is_digit c }
{
    c.to_digit(10).is_some()
}

/// The sign of one character, but not `=`, which begins two tokens.
fn sign_of(c: char) -> Option<TokenKind>
    ensures { result ≡ sign_of c }
{
    match c {
        '(' => Some(TokenKind::LeftPar),
        ')' => Some(TokenKind::RightPar),
        ',' => Some(TokenKind::Comma),
        ':' => Some(TokenKind::Colon),
        '|' => Some(TokenKind::Bar),
        _ => None,
    }
}

/// What follows the blanks and comments at the front.
fn skip_gaps(text: &str) -> &str
    ensures value { chars result.now ≡ skip_gaps false (chars text.now) }
{
    let mut rest = text;
    let mut inside = false;
    while let Some((c, after)) = first_char(rest) {
        if inside {
            inside = c != '\n';
        } else if c == '#' {
            inside = true;
        } else if !is_blank(c) {
            break;
        }
        rest = after;
    }
    rest
}

/// What follows the characters that go on with a name.
fn skip_name(text: &str) -> &str
    ensures { chars result.now ≡ skip_name (chars text.now) }
{
    let mut rest = text;
    while let Some((c, after)) = first_char(rest) {
        if !unicode_ident::is_xid_continue(c) {
            break;
        }
        rest = after;
    }
    rest
}

/// The number at the front, of at most six digits, and what follows it.
fn number(text: &str) -> Option<(u32, &str)>
    ensures { MatchOption result (digits 0 0 (chars text.now) ≡ None)
        (λ p. (digits 0 0 (chars text.now) ≡ Some (p.0, chars p.1.now)) × IsUtf8 p.1.now) }
{
    let mut rest = text;
    let mut count = 0usize;
    let mut value = 0u32;
    while let Some((c, after)) = first_char(rest) {
        let Some(digit) = c.to_digit(10) else { break };
        if count >= 6 {
            return None;
        }
        value = value * 10 + digit;
        count += 1;
        rest = after;
    }
    Some((value, rest))
}

/// The longest token at the front, and what follows it.
fn token_in(text: &str) -> Option<(TokenKind, &str)>
    ensures { MatchOption result (first_token (chars text.now) ≡ None)
        (λ p. (first_token (chars text.now) ≡ Some (p.0, chars p.1.now)) × IsUtf8 p.1.now) }
{
    let Some((c, rest)) = first_char(text) else {
        return None;
    };
    if unicode_ident::is_xid_start(c) || c == '_' {
        Some((TokenKind::Word, skip_name(rest)))
    } else if is_digit(c) {
        let (value, after) = number(text)?;
        Some((TokenKind::Number(value), after))
    } else if c == '=' {
        match first_char(rest) {
            Some((d, after)) if d == '>' => Some((TokenKind::Arrow, after)),
            _ => Some((TokenKind::Equals, rest)),
        }
    } else {
        let kind = sign_of(c)?;
        Some((kind, rest))
    }
}

/// The tokens of a text, or the place where none begins.
fn scan_text(alloc: Global, text: &str) -> Result<Vec<Token>, ScanError>
    ensures { MatchResult result (λ ts. AreTokens text.now ts.items) (λ e. TellsFault text.now e) }
{
    let mut tokens = Vec::new(alloc);
    let mut rest = skip_gaps(text);
    while !rest.is_empty() {
        let at = text.len() - rest.len();
        let Some((kind, after)) = token_in(rest) else {
            return Err(ScanError::Text { at });
        };
        let len = rest.len() - after.len();
        tokens.push(Token { kind, at, len })?;
        rest = skip_gaps(after);
    }
    Ok(tokens)
}

fn scan_all(alloc: Global, bytes: &[u8]) -> Result<Vec<Token>, ScanError>
    ensures { MatchResult result
        (λ ts. AreTokens bytes.now ts.items) (λ e. TellsFault bytes.now e) }
{
    match str::from_utf8(bytes) {
        Ok(text) => scan_text(alloc, text),
        Err(fault) => Err(ScanError::Text {
            at: fault.valid_up_to(),
        }),
    }
}

/// The tokens of a text, in order. Bytes that aren't UTF-8 are found before every other fault, also
/// inside a comment and also if another fault comes earlier.
pub fn scan(alloc: Global, bytes: &[u8]) -> Result<Vec<Token>, ScanError>
    ensures found { IfOk result (λ ts. AreTokens bytes.now ts.items) }
    ensures fault { IfErr result (λ e. TellsFault bytes.now e) }
    ensures only { (ts : List Token) → AreTokens bytes.now ts → IsTokens (λ x. x.items) ts result }
    ensures exact { (at : ℕ) → IsTextFault bytes.now at → IsFault at result }
{
    scan_all(alloc, bytes)
}
