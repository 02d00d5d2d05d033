//! Lines, values and parts, by tables.
ghost use Rattle.std.specs.Prelude.{◌≤◌, length};

use std::alloc::{AllocError, Global};
use std::test::Fail;
use zn_base::{Pair, Text, Value};
use zonecfg_lex::TokenKind::{
    self, Close, Comma, Equals, ListClose, ListOpen, Open, Quoted, Semi, Word,
};
use zonecfg_lex::{LexFault, Span, Token, part_tokens, parts, tokens, value};

type Tokens = &'static [(TokenKind, u32, u32)];

const LINES: &[(&[u8], Tokens)] = &[
    (
        b"set zonepath=\"/zones/we\"",
        &[
            (Word, 0, 3),
            (Word, 4, 12),
            (Equals, 12, 13),
            (Quoted, 13, 23),
        ],
    ),
    (
        b"(a=b,);[c]",
        &[
            (Open, 0, 1),
            (Word, 1, 2),
            (Equals, 2, 3),
            (Word, 3, 4),
            (Comma, 4, 5),
            (Close, 5, 6),
            (Semi, 6, 7),
            (ListOpen, 7, 8),
            (Word, 8, 9),
            (ListClose, 9, 10),
        ],
    ),
    (b" a,b[1];#x", &[(Word, 1, 7), (Semi, 7, 8), (Word, 8, 10)]),
    (b"\t # \" (", &[]),
    (b" \t# set brand=ipkg", &[]),
    (
        b"create -b # no",
        &[(Word, 0, 6), (Word, 7, 9), (Word, 10, 11), (Word, 12, 14)],
    ),
];

fn are(found: &[Token], wanted: Tokens) -> bool {
    let mut told = found.len() == wanted.len();
    for (token, (kind, start, end)) in found.iter().zip(wanted) {
        told = told && token.kind == *kind && token.start == *start && token.end == *end;
    }
    told
}

fn is_cut(alloc: Global, line: &[u8], wanted: Tokens) -> Result<bool, LexFault> {
    Ok(line.len() <= 4200 && are(&tokens(alloc, line)?, wanted))
}

#[test]
fn lines_are_cut(rt: HostRuntime) -> Result<(), Fail> {
    for (line, wanted) in LINES {
        assert!(rt; is_cut(rt.alloc(), line, wanted)?, "{line:?}");
    }
    Ok(())
}

const FAULTS: &[(&[u8], LexFault)] = &[
    (b"a \"b", LexFault::OpenQuote(2)),
    (b"\"a\tb\"", LexFault::StrayByte(2)),
    (b"\"a\tb", LexFault::OpenQuote(0)),
    (b"a\rb\"", LexFault::StrayByte(1)),
    (b"a)", LexFault::StrayByte(1)),
    (b"a ]", LexFault::StrayByte(2)),
    (b"(a;b)\"", LexFault::StrayByte(2)),
    (b"(a[b", LexFault::OpenBracket(0)),
    (b"a [\"]", LexFault::OpenBracket(2)),
    (b"[a,(b)]", LexFault::StrayByte(3)),
    (b"[a)]", LexFault::StrayByte(2)),
    (b"(a])", LexFault::StrayByte(2)),
    (b"\"\t", LexFault::OpenQuote(0)),
    (b"(;", LexFault::OpenBracket(0)),
    (b"a; \"b", LexFault::OpenQuote(3)),
    (b"a; (b;c)", LexFault::StrayByte(5)),
];

// Whether the tokens and the parts of a line are refused for the same fault.
fn is_refused(alloc: Global, line: &[u8], fault: LexFault) -> bool
    requires { length line.now ≤ 4200 }
{
    let cut = match tokens(alloc, line) {
        Ok(_) => false,
        Err(found) => found == fault,
    };
    cut && match parts(alloc, line) {
        Ok(_) => false,
        Err(found) => found == fault,
    }
}

#[test]
fn the_first_fault_of_a_line_is_told(rt: HostRuntime) {
    for (line, fault) in FAULTS {
        assert!(rt;
            line.len() <= 4200 && is_refused(rt.alloc(), line, *fault),
            "{line:?}"
        );
    }
}

type Spans = &'static [(u32, u32)];

const PARTS: &[(&[u8], Spans)] = &[
    (b"create -b; #a;", &[(0, 9), (10, 13)]),
    (b"a \";\" ;;b=\"#\"; ", &[(0, 6), (8, 13)]),
    (b" ; ;", &[]),
    (b"# a; b", &[]),
];

fn span(alloc: Global, line: &[u8], wanted: Spans) -> Result<bool, LexFault>
    requires { length line.now ≤ 4200 }
{
    let found = parts(alloc, line)?;
    let mut told = found.len() == wanted.len();
    for (span, (start, end)) in found.iter().zip(wanted) {
        told = told && span.start == *start && span.end == *end;
    }
    Ok(told)
}

#[test]
fn semicolons_part_what_holds_a_token(rt: HostRuntime) -> Result<(), Fail> {
    for (line, wanted) in PARTS {
        assert!(rt;
            line.len() <= 4200 && span(rt.alloc(), line, wanted)?,
            "{line:?}"
        );
    }
    Ok(())
}

#[test]
fn tokens_and_spans_have_their_texts(rt: HostRuntime) {
    let word = Token {
        kind: Word,
        start: 1,
        end: 3,
    };
    assert!(rt; word.text(b" ab") == b"ab".as_slice());
    assert!(rt; Span { start: 2, end: 5 }.text(b"a; b;") == b" b;".as_slice());
    assert!(rt; LexFault::StrayByte(3).place() == 3);
}

fn push_pair(out: &mut Vec<u8>, pair: &Pair) -> Result<(), AllocError> {
    out.push(b'(')?;
    out.extend_from_slice(pair.name.bytes())?;
    out.push(b'=')?;
    out.extend_from_slice(pair.value.bytes())?;
    out.push(b')')?;
    Ok(())
}

fn push_item(out: &mut Vec<u8>, text: &Text) -> Result<(), AllocError> {
    out.push(b'[')?;
    out.extend_from_slice(text.bytes())?;
    out.push(b']')?;
    Ok(())
}

// A text as it is, pairs as `(a=b)` and items as `[a]`, one after the other.
fn push_value(out: &mut Vec<u8>, value: &Value) -> Result<(), AllocError> {
    match value {
        Value::Simple(text) => out.extend_from_slice(text.bytes())?,
        Value::Complex(pairs) => {
            for pair in pairs.as_slice() {
                push_pair(out, pair)?;
            }
        }
        Value::List(texts) => {
            for text in texts.as_slice() {
                push_item(out, text)?;
            }
        }
    }
    Ok(())
}

fn shows(alloc: Global, value: &Value, wanted: &[u8]) -> Result<bool, AllocError> {
    let mut out = Vec::new(alloc);
    push_value(&mut out, value)?;
    Ok(out.as_slice() == wanted)
}

fn value_of_part(alloc: Global, part: &[u8]) -> Result<Value, LexFault>
    requires { length part.now ≤ 4200 }
{
    let tokens = part_tokens(alloc, part)?;
    value(alloc, part, &tokens)
}

const VALUES: &[(&[u8], &[u8])] = &[
    (b"#a[1]", b"#a[1]"),
    (b"\"a b\"", b"a b"),
    (b"\"\"", b""),
    (b"(a=b, c=\"d e\")", b"(a=b)(c=d e)"),
    (b"[a,\"b,c\"]", b"[a][b,c]"),
    (b"[ ]", b""),
];

fn is_value(alloc: Global, part: &[u8], wanted: &[u8]) -> Result<bool, LexFault>
    requires { length part.now ≤ 4200 }
{
    let value = value_of_part(alloc, part)?;
    Ok(shows(alloc, &value, wanted)?)
}

#[test]
fn tokens_are_a_value(rt: HostRuntime) -> Result<(), Fail> {
    for (part, wanted) in VALUES {
        assert!(rt;
            part.len() <= 4200 && is_value(rt.alloc(), part, wanted)?,
            "{part:?}"
        );
    }
    Ok(())
}

const NO_VALUES: &[(&[u8], usize)] = &[
    (b"a b", 2),
    (b"a \"b\"", 2),
    (b" ", 1),
    (b"()", 1),
    (b"(a=b,)", 5),
    (b"(\"a\"=b)", 1),
    (b"[a b]", 3),
    (b"[a,]", 3),
    (b"(a b)", 3),
    (b"(a=b c=d)", 5),
    (b"=a", 0),
    (b"[a] ;", 4),
];

// Whether tokens stop being a value at a place.
fn stops_at(alloc: Global, part: &[u8], place: usize) -> bool
    requires { length part.now ≤ 4200 }
{
    match value_of_part(alloc, part) {
        Ok(_) => false,
        Err(fault) => fault == LexFault::NoValue(place),
    }
}

#[test]
fn tokens_end_being_a_value(rt: HostRuntime) {
    for (part, place) in NO_VALUES {
        assert!(rt;
            part.len() <= 4200 && stops_at(rt.alloc(), part, *place),
            "{part:?}"
        );
    }
}
