//! The tokens that are left, and the name, key or number that is next.

ghost use Rattle.std.specs.Prelude.{ℕ, List, ◌≡◌, ◌∷◌, [], None, OnOk, MatchOption, MatchResult};
ghost use Rattle.std.specs.Prelude.{length};
ghost use Rattle.std.specs.Bool.{MatchBool};
ghost use Rattle.spec_grammar.specs.Grammar.{sign as sign_text, name_text};
ghost use Rattle.spec_grammar.specs.Items.{Word, Sign, Number, Item, key_of as key_of_token};
ghost use Rattle.spec_grammar.specs.Items.{reserved as reserved_key, item_as, text_of, items_of};
ghost use Rattle.spec_grammar.specs.Limits.{over as over_limit};
ghost use Rattle.spec_grammar.specs.Symbols.{key as key_symbol, name as name_symbol};
ghost use Rattle.spec_syntax.specs.Reading.{Lacks, BeginsWord, LacksWord, LacksNumber, IsPassed};
ghost use Rattle.spec_syntax.specs.Reading.{Reads};

use crate::stop::Stop;
use spec_grammar::{Key, LimitKind, MAX_NAME_BYTES, RawName};
use spec_text::{Token, TokenKind};
use std::alloc::Global;
use term_core::{Name, front};

/// The bytes of a text, and the memory that what is read of it takes.
#[derive(Clone, Copy)]
pub(crate) struct Source<'a> {
    pub(crate) alloc: Global,
    pub(crate) bytes: &'a [u8],
}

/// The limit that the item of number `n`, from 0, passes if at most `most` are allowed.
pub(crate) fn over(n: usize, most: usize, why: LimitKind) -> Option<LimitKind>
    ensures { result ≡ over_limit n most why }
{
    if n >= most { Some(why) } else { None }
}

/// The key of a reserved word.
fn reserved(word: &[u8]) -> Option<Key>
    ensures { result ≡ reserved_key word.now }
{
    if word == b"spike".as_slice() {
        Some(Key::Spike)
    } else if word == b"sort".as_slice() {
        Some(Key::Sort)
    } else if word == b"fun".as_slice() {
        Some(Key::Fun)
    } else if word == b"rule".as_slice() {
        Some(Key::Rule)
    } else if word == b"goal".as_slice() {
        Some(Key::Goal)
    } else if word == b"if".as_slice() {
        Some(Key::If)
    } else if word == b"unless".as_slice() {
        Some(Key::Unless)
    } else if word == b"order".as_slice() {
        Some(Key::Order)
    } else if word == b"status".as_slice() {
        Some(Key::Status)
    } else if word == b"equal".as_slice() {
        Some(Key::Equal)
    } else if word == b"_".as_slice() {
        Some(Key::Stray)
    } else {
        None
    }
}

/// The key that a token of this text is; None if it is a name or a number.
fn key_of(kind: TokenKind, text: &[u8]) -> Option<Key>
    ensures { result ≡ key_of_token kind text.now }
{
    match kind {
        TokenKind::Word => reserved(text),
        TokenKind::Number(_) => None,
        TokenKind::LeftPar => Some(Key::LeftPar),
        TokenKind::RightPar => Some(Key::RightPar),
        TokenKind::Comma => Some(Key::Comma),
        TokenKind::Colon => Some(Key::Colon),
        TokenKind::Equals => Some(Key::Equals),
        TokenKind::Bar => Some(Key::Bar),
        TokenKind::Arrow => Some(Key::Arrow),
    }
}

/// Whether a token of this text is a name.
fn is_name(kind: TokenKind, text: &[u8]) -> bool
    ensures { MatchBool result ((at : ℕ) → item_as kind text.now at ≡ Word text.now at)
        ((at : ℕ) (rest : List Item) → LacksWord (item_as kind text.now at ∷ rest)) }
{
    match kind {
        TokenKind::Word => reserved(text).is_none(),
        _ => false,
    }
}

impl<'a> Source<'a> {
    /// A token's slice of the bytes.
    fn text(&self, token: Token) -> &'a [u8]
        ensures { result.now ≡ text_of self.now.bytes.now token }
    {
        let rest = &self.bytes[token.at.min(self.bytes.len())..];
        &rest[..token.len.min(rest.len())]
    }

    /// A fault at the first of these tokens.
    pub(crate) fn fault(&self, tokens: &[Token], why: Option<LimitKind>) -> Stop
        ensures { result ≡ Stop.Fault (length (items_of self.now.bytes.now tokens.now)) why }
    {
        Stop::Fault(tokens.len(), why)
    }

    /// What follows the key, if it is at the front.
    pub(crate) fn after_key<'t>(&self, tokens: &'t [Token], key: Key) -> Option<&'t [Token]>
        ensures { MatchOption result (Lacks key (items_of self.now.bytes.now tokens.now))
            (λ rest. items_of self.now.bytes.now tokens.now
            ≡ Sign key ∷ items_of self.now.bytes.now rest.now) }
    {
        let (token, rest) = front(tokens)?;
        let found = key_of(token.kind, self.text(*token))?;
        if found == key { Some(rest) } else { None }
    }

    /// The number at the front, and what follows it.
    pub(crate) fn after_number<'t>(&self, tokens: &'t [Token]) -> Option<(u32, &'t [Token])>
        ensures { MatchOption result (LacksNumber (items_of self.now.bytes.now tokens.now))
            (λ x. items_of self.now.bytes.now tokens.now
            ≡ Number x.0 ∷ items_of self.now.bytes.now x.1.now) }
    {
        let (token, rest) = front(tokens)?;
        match token.kind {
            TokenKind::Number(number) => Some((number, rest)),
            _ => None,
        }
    }

    /// Whether a name comes next.
    pub(crate) fn begins_word(&self, tokens: &[Token]) -> bool
        ensures { MatchBool result (BeginsWord (items_of self.now.bytes.now tokens.now))
            (LacksWord (items_of self.now.bytes.now tokens.now)) }
    {
        match front(tokens) {
            Some((token, _)) => is_name(token.kind, self.text(*token)),
            None => false,
        }
    }

    /// Stops if the item at the front is one too many.
    pub(crate) fn within(&self, tokens: &[Token], over: Option<LimitKind>) -> Result<(), Stop>
        ensures { MatchResult result (λ _. over ≡ None)
            (λ stop. IsPassed over (length (items_of self.now.bytes.now tokens.now)) stop) }
    {
        match over {
            Some(why) => Err(self.fault(tokens, Some(why))),
            None => Ok(()),
        }
    }

    /// Passes the key, which has to come next.
    #[tactic(auto, unfolding(spec_grammar::specs::Symbols::run))]
    pub(crate) fn expect<'t>(&self, tokens: &'t [Token], key: Key) -> Result<&'t [Token], Stop>
        ensures { Reads (λ _ v. sign_text key ∷ v) (λ rest. items_of self.now.bytes.now rest.now)
            (key_symbol key ∷ []) (items_of self.now.bytes.now tokens.now) result }
    {
        match self.after_key(tokens, key) {
            Some(rest) => Ok(rest),
            None => Err(self.fault(tokens, None)),
        }
    }

    /// The name that has to come next, in a place that may pass a limit.
    #[tactic(auto, unfolding(spec_grammar::specs::Symbols::run))]
    pub(crate) fn name<'t>(
        &self,
        tokens: &'t [Token],
        over: Option<LimitKind>,
    ) -> Result<(RawName, &'t [Token]), Stop>
        ensures reads { Reads (λ x. name_text over x.0) (λ x. items_of self.now.bytes.now x.1.now)
            (name_symbol over ∷ []) (items_of self.now.bytes.now tokens.now) result }
        ensures within { OnOk result (over ≡ None) }
    {
        let Some((token, rest)) = front(tokens) else {
            return Err(self.fault(tokens, None));
        };
        let text = self.text(*token);
        if !is_name(token.kind, text) {
            return Err(self.fault(tokens, None));
        }
        if text.len() > MAX_NAME_BYTES {
            return Err(self.fault(tokens, Some(LimitKind::Name)));
        }
        self.within(tokens, over)?;
        let name = Name::from_bytes(Vec::from_slice(self.alloc, text)?);
        let at = token.at;
        Ok((RawName { name, at }, rest))
    }
}
