//! What the contracts do not say: the words and signs, and that each call can succeed.
ghost use Rattle.std.specs.Prelude.{◌≡◌, ◌+◌, ◌<◌, ◌≤◌, ◌^◌, length, false, None, IfOk};

use goal_lexer::{Label, LexFault, Lexer, Token, TokenKind};
use std::alloc::{AllocError, Global};
use std::test::Fail;

/// Reads a whole piece, and appends its tokens to the list. Returns the place of a fault, or `None` if the piece has
/// none.
fn feed(lexer: &mut Lexer, piece: &[u8], tokens: &mut Vec<Token>) -> Result<Option<u64>, AllocError>
    requires room { lexer.old.place + length piece.now < 2 ^ 64 }
    requires apart { lexer.old.ends_run ≡ false }
    ensures place { IfOk result (λ fault. fault ≡ None → lexer.new.place ≡ lexer.old.place + length piece.now) }
    ensures apart { IfOk result (λ fault. fault ≡ None → lexer.new.ends_run ≡ false) }
{
    let mut at = 0;
    while at < piece.len() {
        match lexer.next_token(&piece[at..]) {
            Err(fault) => return Ok(Some(fault.at)),
            Ok(lexed) => {
                at += lexed.taken;
                if let Some(Token { kind, start, end }) = lexed.token {
                    tokens.push(Token { kind, start, end })?;
                }
            }
        }
    }
    Ok(None)
}

/// The tokens of a text that is read in two pieces, and its fault, if it has one.
fn lexed(alloc: Global, text: &[u8], cut: usize) -> Result<(Vec<Token>, Option<u64>), AllocError>
    requires within { cut ≤ length text.now }
    requires short { length text.now < 2 ^ 32 }
{
    let mut tokens = Vec::new(alloc);
    let mut lexer = Lexer::new();
    if let Some(at) = feed(&mut lexer, &text[..cut], &mut tokens)? {
        return Ok((tokens, Some(at)));
    }
    if let Some(at) = feed(&mut lexer, &text[cut..], &mut tokens)? {
        return Ok((tokens, Some(at)));
    }
    match lexer.finish() {
        Err(fault) => Ok((tokens, Some(fault.at))),
        Ok(None) => Ok((tokens, None)),
        Ok(Some(token)) => {
            tokens.push(token)?;
            Ok((tokens, None))
        }
    }
}

/// The kind of the first token of a text; `None` if it has none.
fn only_kind(text: &[u8]) -> Result<Option<TokenKind>, LexFault>
    requires { length text.now < 2 ^ 32 }
{
    let mut lexer = Lexer::new();
    let first = lexer.next_token(text)?;
    if let Some(token) = first.token {
        return Ok(Some(token.kind));
    }
    match lexer.finish()? {
        None => Ok(None),
        Some(token) => Ok(Some(token.kind)),
    }
}

#[test]
fn kinds(rt: HostRuntime) -> Result<(), Fail> {
    let label = Label::of(b"_9");
    for (text, kind) in [
        ("num_ranks", TokenKind::NumRanks),
        ("rank", TokenKind::Rank),
        ("calc", TokenKind::Calc),
        ("send", TokenKind::Send),
        ("recv", TokenKind::Recv),
        ("to", TokenKind::To),
        ("from", TokenKind::From),
        ("tag", TokenKind::Tag),
        ("cpu", TokenKind::Cpu),
        ("nic", TokenKind::Nic),
        ("any", TokenKind::Any),
        ("requires", TokenKind::Requires),
        ("irequires", TokenKind::Irequires),
        ("moves", TokenKind::Moves),
        ("adds", TokenKind::Adds),
        ("_9", TokenKind::Label(label)),
        ("007", TokenKind::Number { value: 7 }),
        (
            "18446744073709551616",
            TokenKind::Number { value: u64::MAX },
        ),
        ("10b", TokenKind::Size { value: 10 }),
        ("{", TokenKind::Open),
        ("}", TokenKind::Close),
        (":", TokenKind::Colon),
    ] {
        assert!(rt; text.len() < 100);
        assert_eq!(rt; only_kind(text.as_bytes()), Ok(Some(kind)), "of {text}");
    }
    Ok(())
}

#[test]
fn pieces(rt: HostRuntime) -> Result<(), Fail> {
    // The last word has 64 letters.
    let text =
        b"l1:send 10b /*/ ** **/to\r\n1// {\nRank}zzzzzzzzzzzzzzzzzzzzzzzzzzzzzzzzzzzzzzzzzzzzzzzzzzzzzzzzzzzzzzzz".as_slice();
    let spans = [
        (0, 2),
        (2, 3),
        (3, 7),
        (8, 11),
        (22, 24),
        (26, 27),
        (32, 36),
        (36, 37),
        (37, 101),
    ];
    for cut in 0..=text.len() {
        let (tokens, fault) = lexed(rt.alloc(), text, cut)?;
        assert_eq!(rt; fault, None, "cut at {cut}");
        assert_eq!(rt; tokens.len(), spans.len(), "cut at {cut}");
        for (token, span) in tokens.iter().zip(spans.iter()) {
            assert_eq!(rt; (token.start, token.end), *span, "cut at {cut}");
        }
    }
    Ok(())
}

#[test]
fn faults(rt: HostRuntime) -> Result<(), Fail> {
    for (text, place, count) in [
        ("num_ranks 5x", 10, 1),
        ("calc 5bb", 5, 1),
        ("a 12b3", 2, 1),
        ("{ / }", 2, 1),
        ("{ /", 2, 1),
        ("{ /* * }", 2, 1),
        ("/*/", 0, 0),
        ("a-b", 1, 1),
        ("a // b\n\"", 7, 1),
        (
            "a bbbbbbbbbbbbbbbbbbbbbbbbbbbbbbbbbbbbbbbbbbbbbbbbbbbbbbbbbbbbbbbbb",
            2,
            1,
        ),
    ] {
        assert!(rt; text.len() < 100);
        for cut in 0..=text.len() {
            let (tokens, fault) = lexed(rt.alloc(), text.as_bytes(), cut)?;
            assert_eq!(rt; fault, Some(place), "in {text} cut at {cut}");
            assert_eq!(rt; tokens.len(), count, "in {text} cut at {cut}");
        }
    }
    Ok(())
}
