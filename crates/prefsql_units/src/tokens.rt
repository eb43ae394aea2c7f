//! The tokens of scripts, and their first faults.
ghost use Rattle.std.specs.Prelude.{◌≤◌, length};

use prefsql_lexer::{LexFault, Spot, Token, TokenKind, tokens};
use std::alloc::Global;
use std::test::Fail;

/// A token as its span, its kind and its value.
fn shown(alloc: Global, token: &Token) -> Result<String, Fail> {
    let (start, end) = (token.start, token.end);
    let text = match &token.kind {
        TokenKind::Word(word) => format!(in alloc; "{start}-{end} {word:?}")?,
        TokenKind::Name(name) => format!(in alloc; "{start}-{end} name {}", name.as_str())?,
        TokenKind::Number(n) => format!(in alloc; "{start}-{end} number {n}")?,
        TokenKind::Chars(text) => format!(in alloc; "{start}-{end} text {}", text.as_str())?,
        TokenKind::Symbol(symbol) => format!(in alloc; "{start}-{end} {symbol:?}")?,
    };
    Ok(text)
}

/// The tokens of a script, each followed by a bar.
fn all_shown(alloc: Global, script: &str) -> Result<String, Fail>
    requires { length script.now ≤ 268435456 }
{
    let mut all = String::new(alloc);
    let Ok(found) = tokens(alloc, script.as_bytes(), 64) else {
        return Err("refused".into());
    };
    for token in found.as_slice() {
        all.push_str(shown(alloc, token)?.as_str())?;
        all.push_str(" | ")?;
    }
    Ok(all)
}

// The expected kinds, values and spans are counted by hand.
#[test]
fn tokens_have_kinds_values_and_spans(rt: HostRuntime) -> Result<(), Fail> {
    for (script, want) in [
        ("", ""),
        (
            "Select \"select\" a_1--b",
            "0-6 Select | 7-15 name select | 16-19 name A_1 | ",
        ),
        (
            "1a 007 1.5",
            "0-1 number 1 | 1-2 name A | 3-6 number 7 | 7-8 number 1 | 8-9 Dot | 9-10 number 5 | ",
        ),
        (
            "<=><>>=",
            "0-2 LessEqual | 2-3 Greater | 3-5 NotEqual | 5-7 GreaterEqual | ",
        ),
        ("'it''s, \"x\"\ny'", "0-14 text it's, \"x\"\ny | "),
        (
            "\"a\"\"b\"-- 'c'\n*;-- shop",
            "0-6 name a\"b | 13-14 Star | 14-15 Semicolon | ",
        ),
        ("'--'- -", "0-4 text -- | 4-5 Minus | 6-7 Minus | "),
        // a carriage return is a blank, and ends no comment
        (
            "a\rb--c\rd\r\ne",
            "0-1 name A | 2-3 name B | 10-11 name E | ",
        ),
    ] {
        assert_eq!(rt; all_shown(rt.alloc(), script)?.as_str(), want);
    }
    Ok(())
}

#[test]
fn first_faults(rt: HostRuntime) {
    for (script, limit, code, at) in [
        (&b"SELECT id FROM cars WHERE id != 1"[..], 64, 101, 29),
        (&b"SELECT id FROM cars WHERE color = 'red"[..], 64, 102, 34),
        (&b"'it''s"[..], 64, 102, 4),
        (
            &b"SELECT v FROM big WHERE v = 1000000000000000000"[..],
            64,
            103,
            28,
        ),
        (
            &b"SELECT id FROM cars WHERE (((((((((((((((((((((((((((((((((((((((((((((((((((((((((((((((((id = 1)))))))))))))))))))))))))))))))))))))))))))))))))))))))))))))))))"[..],
            64,
            104,
            90,
        ),
        (&b"))(("[..], 1, 104, 3),
        (&b"case"[..], 0, 104, 0),
        (
            &b"SELECT aaaaaaaaaaaaaaaaaaaaaaaaaaaaaaaaaaaaaaaaaaaaaaaaaaaaaaaaaaaaaaaaa"[..],
            64,
            105,
            7,
        ),
        (&b"a \"\""[..], 64, 105, 2),
        (&b"\xff"[..], 64, 107, 0),
        (&b"! \xff"[..], 64, 107, 2),
    ] {
        assert_eq!(rt;
            tokens(rt.alloc(), script, limit).err(),
            Some(LexFault::Bad(Spot { code, at })),
            "E{code} at {at}"
        );
    }
}

// The limits themselves are kept: 64 characters of two bytes each, 18 digits, and 64 parentheses.
#[test]
fn limits_are_kept(rt: HostRuntime) {
    for (script, count) in [
        (
            "\"éééééééééééééééééééééééééééééééééééééééééééééééééééééééééééééééé\"",
            1,
        ),
        ("999999999999999999", 1),
        (
            "SELECT id FROM cars WHERE ((((((((((((((((((((((((((((((((((((((((((((((((((((((((((((((((id = 1))))))))))))))))))))))))))))))))))))))))))))))))))))))))))))))))",
            136,
        ),
        ("case end case end", 4),
    ] {
        let found = tokens(rt.alloc(), script.as_bytes(), 64);
        assert_eq!(rt; found.map(|found| found.as_slice().len()).ok(), Some(count));
    }
}
