//! The tokens of C programs, of annotations and of Ya texts.

ghost use Rattle.std.specs.Prelude.{◌≡◌, ◌==◌, ◌||◌, ◌+◌, ◌^◌, ◌<◌, ◌≤◌, true, None, length, take, drop, IfOk, IfErr};
ghost use Rattle.c_lexer.specs.LexingLaws.{HasOneLexing, TokensAreSpelled, TokensFollow, TokensAreFew};
ghost use Rattle.c_lexer.specs.Positions.{start, after};
ghost use Rattle.c_lexer.specs.Lexing.{Stands, Reaches, token_at, Lexed, IsFaultOf, Tokens, AnnotationTokens, SpecTokens};

use crate::fault::LexFault;
use crate::piece::{Extent, Piece, piece_of};
use crate::position::Position;
use crate::profile::Profile;
use crate::run::skip;
use crate::token::{Token, TokenKind};
use std::alloc::Global;

/// The most bytes that a text may have.
pub const MAX_TEXT: usize = 16_777_216;

fn token_at(position: Position, kind: TokenKind, extent: Extent) -> Token
    requires first { position.offset + extent.first < 2 ^ 32 }
    requires past { position.offset + extent.past < 2 ^ 32 }
    requires line { position.line < 2 ^ 32 }
    requires column { position.column < 2 ^ 32 }
    ensures { result ≡ token_at position kind extent }
{
    Token {
        kind,
        first: (position.offset + extent.first) as u32,
        past: (position.offset + extent.past) as u32,
        place: position.place(),
    }
}

/// Whether only blanks stand in the line after this blank, as they did before it.
fn leads_after(byte: u8, leads: bool) -> bool
    ensures { result ≡ (byte == 10 || leads) }
{
    byte == b'\n' || leads
}

/// The position before the byte at `offset`.
fn position_at(text: &[u8], offset: usize) -> Position
    requires within { offset ≤ length text.now }
    requires short { length text.now < 2 ^ 32 }
    ensures position { result ≡ after start (take offset text.now) }
    ensures offset { result.offset ≡ offset }
    ensures line { result.line ≤ result.offset + 1 }
    ensures column { result.column ≤ result.offset + 1 }
{
    Position::start().across(&text[..offset])
}

/// What stands at a place.
fn piece_at(profile: Profile, leads: bool, text: &[u8], at: usize) -> Piece
    ensures stands { Stands profile leads (drop at text.now) result }
    ensures reaches { Reaches (drop at text.now) result }
{
    piece_of(profile, leads, skip(text, at))
}

/// The position after `len` bytes more.
fn moved(position: Position, text: &[u8], len: usize) -> Position
    requires within { position.offset + len ≤ length text.now }
    requires short { length text.now < 2 ^ 32 }
    requires line { position.line ≤ position.offset + 1 }
    requires column { position.column ≤ position.offset + 1 }
    ensures { result ≡ after position (take len (drop position.offset text.now)) }
{
    position.across(&text[position.offset..position.offset + len])
}

/// The tokens from the position to the end of the text.
fn tokens_from(
    alloc: Global,
    profile: Profile,
    text: &[u8],
    from: Position,
) -> Result<Vec<Token>, LexFault>
    requires short { length text.now < 2 ^ 32 }
    requires within { from.offset ≤ length text.now }
    requires line { from.line ≤ from.offset + 1 }
    requires column { from.column ≤ from.offset + 1 }
    ensures tokens { IfOk result (λ v. Lexed profile from true (drop from.offset text.now) v.items None) }
    ensures fault { IfErr result (λ f. IsFaultOf (Lexed profile from true (drop from.offset text.now)) f) }
{
    let mut tokens = Vec::new(alloc);
    let mut position = from;
    let mut leads = true;
    loop {
        match piece_at(profile, leads, text, position.offset) {
            Piece::End => return Ok(tokens),
            Piece::Blank(byte) => {
                leads = leads_after(byte, leads);
                position = position.after(byte);
            }
            Piece::Ignored(len) => {
                leads = false;
                position = moved(position, text, len);
            }
            Piece::Token(kind, extent) => {
                tokens.push(token_at(position, kind, extent))?;
                leads = false;
                position = moved(position, text, extent.len);
            }
            Piece::Fault(flaw) => return Err(flaw.at(position.place())),
        }
    }
}

/// The tokens of a C program (C11 6.4), in their order. A `meta`, `ghost` or `assert` annotation is one token,
/// whose text is its inside and whose place is that of the `/` that begins it. The fault is the first in the text.
pub fn lex(alloc: Global, text: &[u8]) -> Result<Vec<Token>, LexFault>
    requires { length text.now ≤ MAX_TEXT }
    ensures tokens { IfOk result (λ v. Tokens text.now v.items None) }
    ensures fault { IfErr result (λ f. IsFaultOf (Tokens text.now) f) }
{
    tokens_from(alloc, Profile::C, text, Position::start())
}

/// The tokens of `text[first..past]`, the inside of an annotation, in their order. Their bytes and places count from
/// the beginning of the whole text, so it is read from there. The fault is the first from `first` on.
pub fn lex_annotation(
    alloc: Global,
    text: &[u8],
    first: u32,
    past: u32,
) -> Result<Vec<Token>, LexFault>
    requires short { length text.now < 2 ^ 32 }
    requires ordered { first ≤ past }
    requires within { past ≤ length text.now }
    ensures tokens { IfOk result (λ v. AnnotationTokens text.now first past v.items None) }
    ensures fault { IfErr result (λ f. IsFaultOf (AnnotationTokens text.now first past) f) }
{
    let from = position_at(text, first as usize);
    tokens_from(alloc, Profile::Annotation, &text[..past as usize], from)
}

/// The tokens of a Ya text, in their order. The fault is the first in the text.
pub fn lex_spec(alloc: Global, text: &[u8]) -> Result<Vec<Token>, LexFault>
    requires { length text.now ≤ MAX_TEXT }
    ensures tokens { IfOk result (λ v. SpecTokens text.now v.items None) }
    ensures fault { IfErr result (λ f. IsFaultOf (SpecTokens text.now) f) }
{
    tokens_from(alloc, Profile::Ya, text, Position::start())
}

/// A text has one list of tokens, and one end.
pub fn one_lexing()
    ensures { HasOneLexing }
{}

/// Where the tokens lie: the text of each is one of the text and has the form of its kind, and they are in order.
pub fn tokens_lie()
    ensures spelled { TokensAreSpelled }
    ensures ordered { TokensFollow }
    ensures few { TokensAreFew }
{}

#[cfg(test)]
mod tests;
