use crate::{ParseFault, PieceKind, Tokens, is_complete};
use std::alloc::{AllocError, Global};
use std::test::Fail;

fn letter(kind: PieceKind) -> char {
    match kind {
        PieceKind::Blank => '_',
        PieceKind::CommandEnd => ';',
        PieceKind::Comment => '#',
        PieceKind::Literal => 'l',
        PieceKind::Escape => 'e',
        PieceKind::Dollar => '$',
        PieceKind::Open => '[',
        PieceKind::Close => ']',
        PieceKind::Mark => '"',
        PieceKind::Expand => '*',
    }
}

/// The kinds of the pieces, their joined text, and the fault.
fn cut(alloc: Global, text: &str) -> Result<(String, Vec<u8>, Option<ParseFault>), AllocError> {
    let mut kinds = String::new(alloc);
    let mut joined = Vec::new(alloc);
    let mut fault = None;
    let mut tokens = Tokens::new(text.as_bytes());
    for _turn in 0..1000 {
        match tokens.next() {
            Some(Ok(piece)) => {
                kinds.push(letter(piece.kind))?;
                joined.extend_from_slice(piece.text)?;
            }
            Some(Err(found)) => fault = Some(found),
            None => return Ok((kinds, joined, fault)),
        }
    }
    Ok((kinds, joined, fault))
}

#[test]
fn pieces_have_their_kinds(rt: HostRuntime) -> Result<(), Fail> {
    let rows = [
        ("puts hello", "l_l"),
        ("", ""),
        (" \t\\\n  x", "_l"),
        ("# a \\\n b\nset x", "#;l_l"),
        (";\n a", ";;_l"),
        ("a#b # c", "l_l_l"),
        ("{a {b} \\} c} d", "\"l\"_l"),
        ("{a\\\n  b}", "\"lel\""),
        ("\"a [b $c] d\\n\"", "\"l[l_$]le\""),
        ("$a(x y)z", "$[l]l"),
        ("$a([f] $i)", "$[[l]l$]"),
        ("$(x)${a b}(c)", "$[l]$l"),
        ("$ $;$::a::b$a:b", "l_l;$$l"),
        ("{*}$x {*} {*}{a b}", "*$_\"l\"_*\"l\""),
        ("\\x41\\102\\u43\\", "eeee"),
        ("a]b\u{e9}", "l"),
        ("[a]b;[# ]\n]", "[l]l;[#;]"),
    ];
    for (text, kinds) in rows {
        let found = cut(rt.alloc(), text)?;
        assert_eq!(rt; found.0.as_str(), kinds);
        assert!(rt; found.1.as_slice() == text.as_bytes());
        assert!(rt; found.2.is_none());
    }
    Ok(())
}

#[test]
fn faults_stand_behind_the_pieces(rt: HostRuntime) -> Result<(), Fail> {
    let rows = [
        ("x {a}b", "l_\"l\"", ParseFault::AfterBrace),
        ("x \"a\"b", "l_\"l\"", ParseFault::AfterQuote),
        ("x {a {b}", "l_\"l", ParseFault::CloseBrace),
        ("[x \"a", "[l_\"l", ParseFault::CloseQuote),
        ("x [a", "l_[l", ParseFault::CloseBracket),
        ("$a(b", "$[l", ParseFault::CloseParen),
        ("a\"${b", "l", ParseFault::VarBrace),
        ("{*}{*}x", "*\"l\"", ParseFault::AfterBrace),
    ];
    for (text, kinds, fault) in rows {
        let found = cut(rt.alloc(), text)?;
        assert_eq!(rt; found.0.as_str(), kinds);
        assert!(rt; found.2 == Some(fault));
        let complete = matches!(fault, ParseFault::AfterBrace | ParseFault::AfterQuote);
        assert_eq!(rt; is_complete(text.as_bytes()), complete);
    }
    Ok(())
}

fn nested(alloc: Global, brackets: usize) -> Result<String, AllocError> {
    let mut text = String::new(alloc);
    for _bracket in 0..brackets {
        text.push('[')?;
    }
    Ok(text)
}

#[test]
fn a_hundred_levels_may_stand_in_one_another(rt: HostRuntime) -> Result<(), Fail> {
    let hundred = nested(rt.alloc(), 100)?;
    let found = cut(rt.alloc(), hundred.as_str())?;
    assert_eq!(rt; found.0.len(), 100);
    assert!(rt; found.2 == Some(ParseFault::CloseBracket));
    let mut mixed = nested(rt.alloc(), 99)?;
    mixed.push_str("$a($b(")?;
    let found = cut(rt.alloc(), mixed.as_str())?;
    assert_eq!(rt; found.0.len(), 102);
    assert!(rt; found.2 == Some(ParseFault::TooDeep));
    Ok(())
}

#[test]
fn pieces_join_to_their_script(rt: HostRuntime) -> Result<(), Fail> {
    let scripts = [
        "oo::class create C {variable n; constructor {x} {set n $x}; method get {} {return $n}}; oo::class create D {superclass C; method get {} {return <[next]>}}; set d [D new 5]; puts [$d get]; $d destroy; puts [catch {$d get} m]; puts $m",
        "set d {}; while {[gets stdin line] >= 0} {foreach w [split [string tolower $line]] {if {$w ne \"\"} {dict incr d $w}}}; foreach w [lsort [dict keys $d]] {puts \"$w [dict get $d $w]\"}",
    ];
    for script in scripts {
        let found = cut(rt.alloc(), script)?;
        assert!(rt; found.1.as_slice() == script.as_bytes());
        assert!(rt; found.2.is_none());
        assert!(rt; is_complete(script.as_bytes()));
    }
    Ok(())
}
