use crate::{Command, ParseFault, Part, Script, Word, parse};
use std::alloc::{AllocError, Global};
use std::test::Fail;
use tclv_text::as_str;

/// A literal is `<text>`, a variable `${name}`, an element `$name(index)`, a script `[commands]`.
#[cycle(show)]
fn show_parts(alloc: Global, parts: &[Part], out: &mut String) -> Result<(), AllocError> {
    for part in parts {
        match part {
            Part::Literal(text) => {
                out.push('<')?;
                out.push_str(as_str(text.bytes()))?;
                out.push('>')?;
            }
            Part::Variable(name) => {
                out.push_str("${")?;
                out.push_str(as_str(name.bytes()))?;
                out.push('}')?;
            }
            Part::Element(name, index) => {
                out.push('$')?;
                out.push_str(as_str(name.bytes()))?;
                out.push('(')?;
                show_parts(alloc, index.as_slice(), out)?;
                out.push(')')?;
            }
            Part::Script(script) => {
                out.push('[')?;
                show(alloc, script.get(), out)?;
                out.push(']')?;
            }
        }
    }
    Ok(())
}

/// A word begins with a space, and with `*` where it is expanded.
#[cycle(show)]
fn show_word(alloc: Global, word: &Word, out: &mut String) -> Result<(), AllocError> {
    out.push(' ')?;
    if word.expand {
        out.push('*')?;
    }
    show_parts(alloc, word.parts.as_slice(), out)
}

/// A command is its place, its words and a semicolon.
#[cycle(show)]
fn show_command(alloc: Global, command: &Command, out: &mut String) -> Result<(), AllocError> {
    let at = format!(in alloc; "{}", command.at)?;
    out.push_str(at.as_str())?;
    for word in command.words.as_slice() {
        show_word(alloc, word, out)?;
    }
    out.push(';')
}

#[cycle(show)]
fn show(alloc: Global, script: &Script, out: &mut String) -> Result<(), AllocError> {
    for command in script.commands.as_slice() {
        show_command(alloc, command, out)?;
    }
    Ok(())
}

/// The commands of a script, and its fault.
fn tree(alloc: Global, text: &str) -> Result<(String, Option<ParseFault>), AllocError> {
    let script = match parse(alloc, text.as_bytes()) {
        Ok(script) => script,
        Err(_) => return Err(AllocError),
    };
    let mut out = String::new(alloc);
    show(alloc, &script, &mut out)?;
    Ok((out, script.fault))
}

#[test]
fn words_have_their_parts(rt: HostRuntime) -> Result<(), Fail> {
    for (text, commands) in [
        ("puts hello", "0 <puts> <hello>;"),
        (
            "\"a $b [c] \\n$d(e)${f g}h\"",
            "0 <a >${b}< >[7 <c>;]< \n>$d(<e>)${f g}<h>;",
        ),
        ("$a(x y)", "0 $a(<x y>);"),
        ("$a([f] $i)", "0 $a([4 <f>;]< >${i});"),
        ("$a(b(c)d", "0 $a(<b(c>)<d>;"),
        ("$ $(x) a$", "0 <$> $(<x>) <a$>;"),
        ("${a b} ${}", "0 ${a b} ${};"),
        ("$::a::b $a:b $a::", "0 ${::a::b} ${a}<:b> ${a::};"),
        ("{*}", "0 <*>;"),
        ("{*} x", "0 <*> <x>;"),
        ("{*}$x {*}{a b}", "0 *${x} *<a b>;"),
        ("{a {b} \\} c} d", "0 <a {b} \\} c> <d>;"),
        ("{} \"\"", "0  ;"),
        ("a\\x41\\102c\\u20AC\\", "0 <aABc\u{20AC}\\>;"),
        ("a]b ] a{b}\"c\"", "0 <a]b> <]> <a{b}\"c\">;"),
        ("[a]b [c;d]", "0 [1 <a>;]<b> [6 <c>;8 <d>;];"),
    ] {
        let found = tree(rt.alloc(), text)?;
        assert_eq!(rt; found.0.as_str(), commands);
        assert!(rt; found.1.is_none());
    }
    Ok(())
}

#[test]
fn commands_are_told_apart(rt: HostRuntime) -> Result<(), Fail> {
    for (text, commands) in [
        ("", ""),
        (" \t;\n", ""),
        ("a;b\nc", "0 <a>;2 <b>;4 <c>;"),
        ("\u{e9}\nx", "0 <\u{e9}>;3 <x>;"),
        ("# c\n a#b # c", "5 <a#b> <#> <c>;"),
        ("x;# y\nz", "0 <x>;6 <z>;"),
        ("# a \\\n b\nc", "9 <c>;"),
        ("a\\\n  b", "0 <a> <b>;"),
        ("{a\\\n  b}", "0 <a b>;"),
        ("\"a\\\n  b\"", "0 <a b>;"),
        ("$x(a\\\n  b)", "0 $x(<a b>);"),
    ] {
        let found = tree(rt.alloc(), text)?;
        assert_eq!(rt; found.0.as_str(), commands);
        assert!(rt; found.1.is_none());
    }
    Ok(())
}

#[test]
fn a_fault_stands_behind_the_commands(rt: HostRuntime) -> Result<(), Fail> {
    for (text, commands, fault) in [
        ("puts a\nputs {b", "0 <puts> <a>;", ParseFault::CloseBrace),
        ("a;b \"c", "0 <a>;", ParseFault::CloseQuote),
        ("a;b [c; d [e", "0 <a>;", ParseFault::CloseBracket),
        ("a\nb {c}d", "0 <a>;", ParseFault::AfterBrace),
        ("a\nb \"c\"d", "0 <a>;", ParseFault::AfterQuote),
        ("a\nb $(", "0 <a>;", ParseFault::CloseParen),
        ("a\nb $c(d", "0 <a>;", ParseFault::CloseParen),
        ("a\nb ${c", "0 <a>;", ParseFault::VarBrace),
        ("a [b {c] d", "", ParseFault::CloseBrace),
        ("x [a\n{b}c]; y", "", ParseFault::AfterBrace),
    ] {
        let found = tree(rt.alloc(), text)?;
        assert_eq!(rt; found.0.as_str(), commands);
        assert!(rt; found.1 == Some(fault));
    }
    Ok(())
}

/// So many brackets in one another.
fn nested(alloc: Global, brackets: usize) -> Result<String, AllocError> {
    let mut text = String::new(alloc);
    for _bracket in 0..brackets {
        text.push('[')?;
    }
    for _bracket in 0..brackets {
        text.push(']')?;
    }
    Ok(text)
}

#[test]
fn a_tree_has_a_hundred_levels(rt: HostRuntime) -> Result<(), Fail> {
    let hundred = nested(rt.alloc(), 100)?;
    let found = tree(rt.alloc(), hundred.as_str())?;
    assert!(rt; found.1.is_none());
    let more = nested(rt.alloc(), 101)?;
    let found = tree(rt.alloc(), more.as_str())?;
    assert_eq!(rt; found.0.as_str(), "");
    assert!(rt; found.1 == Some(ParseFault::TooDeep));
    Ok(())
}
