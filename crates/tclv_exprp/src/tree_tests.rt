// Expressions, read as trees.

use crate::{ExprFault, ExprTree, Infix, Op1, Op2, WordOp, parse_expr};
use std::alloc::{AllocError, Global};
use std::test::Fail;
use tclv_parse::Part;
use tclv_text::as_str;

fn sign1(op: Op1) -> &'static str {
    match op {
        Op1::Minus => "-",
        Op1::Plus => "+",
        Op1::Invert => "~",
        Op1::Not => "!",
    }
}

fn sign2(op: Op2) -> &'static str {
    match op {
        Op2::Power => "**",
        Op2::Times => "*",
        Op2::Divide => "/",
        Op2::Remainder => "%",
        Op2::Add => "+",
        Op2::Subtract => "-",
        Op2::ShiftLeft => "<<",
        Op2::ShiftRight => ">>",
        Op2::BitAnd => "&",
        Op2::BitXor => "^",
        Op2::BitOr => "|",
        Op2::Equal => "==",
        Op2::NotEqual => "!=",
        Op2::Less => "<",
        Op2::Greater => ">",
        Op2::LessEqual => "<=",
        Op2::GreaterEqual => ">=",
    }
}

fn word_sign(op: WordOp) -> &'static str {
    match op {
        WordOp::Eq => "eq",
        WordOp::Ne => "ne",
        WordOp::Lt => "lt",
        WordOp::Gt => "gt",
        WordOp::Le => "le",
        WordOp::Ge => "ge",
        WordOp::Among => "in",
        WordOp::NotAmong => "ni",
    }
}

fn sign(op: Infix) -> &'static str {
    match op {
        Infix::Number(op) => sign2(op),
        Infix::Words(op) => word_sign(op),
        Infix::And => "&&",
        Infix::Or => "||",
    }
}

/// The parts of a text: a variable is `$name`, an element `$name(index)`, a script `[place words]`.
#[cycle(parts)]
fn show_parts(alloc: Global, parts: &[Part], out: &mut String) -> Result<(), AllocError> {
    for part in parts {
        match part {
            Part::Literal(text) => out.push_str(as_str(text.bytes()))?,
            Part::Variable(name) => {
                out.push('$')?;
                out.push_str(as_str(name.bytes()))?;
            }
            Part::Element(name, index) => {
                out.push('$')?;
                out.push_str(as_str(name.bytes()))?;
                out.push('(')?;
                show_parts(alloc, index.as_slice(), out)?;
                out.push(')')?;
            }
            Part::Script(script) => {
                out.push('[')?;
                for command in script.get().commands.as_slice() {
                    let at = format!(in alloc; "{}", command.at)?;
                    out.push_str(at.as_str())?;
                    for word in command.words.as_slice() {
                        out.push(' ')?;
                        show_parts(alloc, word.parts.as_slice(), out)?;
                    }
                }
                out.push(']')?;
            }
        }
    }
    Ok(())
}

/// A literal is `<text>`, the parts of a text stand in quotes, a unary operator before its operand
/// in parentheses, a chain in parentheses, a choice in `(? )`, and a call's arguments in `{}`.
#[cycle(show)]
fn show(alloc: Global, tree: &ExprTree, out: &mut String) -> Result<(), AllocError> {
    match tree {
        ExprTree::Literal(text) => {
            out.push('<')?;
            out.push_str(as_str(text.bytes()))?;
            out.push('>')?;
        }
        ExprTree::Parts(parts) => {
            out.push('"')?;
            show_parts(alloc, parts.as_slice(), out)?;
            out.push('"')?;
        }
        ExprTree::Unary(op, x) => {
            out.push('(')?;
            out.push_str(sign1(*op))?;
            out.push(' ')?;
            show(alloc, x.get(), out)?;
            out.push(')')?;
        }
        ExprTree::Chain(x, steps) => {
            out.push('(')?;
            show(alloc, x.get(), out)?;
            for step in steps.as_slice() {
                out.push(' ')?;
                out.push_str(sign(step.op))?;
                out.push(' ')?;
                show(alloc, &step.right, out)?;
            }
            out.push(')')?;
        }
        ExprTree::Cond(x, y, z) => {
            out.push_str("(? ")?;
            show(alloc, x.get(), out)?;
            out.push(' ')?;
            show(alloc, y.get(), out)?;
            out.push(' ')?;
            show(alloc, z.get(), out)?;
            out.push(')')?;
        }
        ExprTree::Call(name, arguments) => {
            out.push_str(as_str(name.bytes()))?;
            out.push('{')?;
            for argument in arguments.as_slice() {
                out.push(' ')?;
                show(alloc, argument, out)?;
            }
            out.push('}')?;
        }
    }
    Ok(())
}

/// The tree of a text as `show` writes it, or the fault with its place and length.
fn read(alloc: Global, text: &str) -> Result<String, AllocError> {
    match parse_expr(alloc, text.as_bytes()) {
        Ok(tree) => {
            let mut out = String::new(alloc);
            show(alloc, &tree, &mut out)?;
            Ok(out)
        }
        Err(ExprFault::NoMemory) => Err(AllocError),
        Err(fault) => format!(in alloc; "{:?}", fault),
    }
}

/// Each row is a text and what is to be read of it, with an `@` between them. The first row of which
/// something else is read, with that, or nothing.
fn first_wrong(alloc: Global, rows: &str) -> Result<String, AllocError> {
    for row in rows.split('\n') {
        let mut halves = row.split('@');
        let text = halves.next().unwrap_or("");
        let wanted = halves.next().unwrap_or("");
        let found = read(alloc, text)?;
        if found.as_str() != wanted {
            return format!(in alloc; "{row} is read as {found}");
        }
    }
    Ok(String::new(alloc))
}

#[test]
fn operators_bind_by_the_table(rt: HostRuntime) -> Result<(), Fail> {
    let wrong = first_wrong(
        rt.alloc(),
        "1 + 2 * 3 - $x@(<1> + (<2> * <3>) - \"$x\")
1 - 2 - 3@(<1> - <2> - <3>)
1*2/3%4@(<1> * <2> / <3> % <4>)
2 ** 3 ** 2@(<2> ** (<3> ** <2>))
2 ** 3 * 4@((<2> ** <3>) * <4>)
-2 ** 2@(<-2> ** <2>)
- 2 ** ~3@((- <2>) ** (~ <3>))
!$a && $b@((! \"$a\") && \"$b\")
1+2<<3@((<1> + <2>) << <3>)
1<<2>>3<4@((<1> << <2> >> <3>) < <4>)
1<2>3<=4>=5@(<1> < <2> > <3> <= <4> >= <5>)
1<2 lt 3<4@((<1> < <2>) lt (<3> < <4>))
1 lt 2 gt 3 le 4 ge 5@(<1> lt <2> gt <3> le <4> ge <5>)
1 lt 2 == 3 lt 4@((<1> lt <2>) == (<3> lt <4>))
1==2!=3 eq 4==5@((<1> == <2> != <3>) eq (<4> == <5>))
1 eq 2 ne 3 in 4 eq 5@((<1> eq <2> ne <3>) in (<4> eq <5>))
1 in 2 ni 3 & 4 in 5@((<1> in <2> ni <3>) & (<4> in <5>))
1&2^3&4@((<1> & <2>) ^ (<3> & <4>))
1^2|3^4@((<1> ^ <2>) | (<3> ^ <4>))
1|2&&3|4@((<1> | <2>) && (<3> | <4>))
1&&2||3&&4||5@((<1> && <2>) || (<3> && <4>) || <5>)
1||2 ? 3 : 4 ? 5 : 6@(? (<1> || <2>) <3> (? <4> <5> <6>))
1 ? 2 ? 3 : 4 : 5@(? <1> (? <2> <3> <4>) <5>)
(1 + 2) * ((3))@((<1> + <2>) * <3>)",
    )?;
    assert_eq!(rt; wrong.as_str(), "");
    Ok(())
}

#[test]
fn numbers_end_where_their_form_ends(rt: HostRuntime) -> Result<(), Fail> {
    let wrong = first_wrong(
        rt.alloc(),
        "007@<007>
-0x1F@<-0x1F>
+0b101@<+0b101>
0o17 + 0D9@(<0o17> + <0D9>)
-9223372036854775808@<-9223372036854775808>
9223372036854775808@TooLarge
- 9223372036854775808@TooLarge
0 && 99999999999999999999 foo@TooLarge
1 ? 2 : 0x8000000000000000 :@TooLarge
foo + 99999999999999999999@Bareword(0, 3)
99999999999999999999.@FloatLiteral(0, 21)
{99999999999999999999} eq 1@(<99999999999999999999> eq <1>)
1 -2@(<1> - <2>)
1--2@(<1> - <-2>)
1+-+2@(<1> + (- <+2>))
--2@(- <-2>)
12eq 3@(<12> eq <3>)
1 eq1@(<1> eq <1>)
0in{0}@(<0> in <0>)
0x@Syntax(2)
0b2@Syntax(2)
00x1@Syntax(2)
0x1.5@Syntax(3)
1e@Syntax(2)
12ex@Syntax(3)
1e+@Syntax(2)
1.5@FloatLiteral(0, 3)
1.5.2@FloatLiteral(0, 3)
2 * 1e5x@FloatLiteral(4, 3)
5.@FloatLiteral(0, 2)
1 + -.5e-3@FloatLiteral(4, 6)
.@Syntax(0)
-.@Syntax(1)",
    )?;
    assert_eq!(rt; wrong.as_str(), "");
    Ok(())
}

#[test]
fn words_are_truth_values_or_functions(rt: HostRuntime) -> Result<(), Fail> {
    let wrong = first_wrong(
        rt.alloc(),
        "true || n@(<true> || <n>)
OfF@<OfF>
o@Bareword(0, 1)
1 + foo@Bareword(4, 3)
_x1 + abc@Bareword(0, 3)
eq@Bareword(0, 2)
abs@Bareword(0, 3)
-inf@FloatLiteral(1, 3)
NaN@FloatLiteral(0, 3)
Infinity@FloatLiteral(0, 8)
nan(12)@UnknownFunction(0, 3)
true (1)@UnknownFunction(0, 4)
1 + foo (2 3@UnknownFunction(4, 3)
abs(-1) + bool(1) + entier(1) + int(1) + wide(1)@(abs{ <-1>} + bool{ <1>} + entier{ <1>} + int{ <1>} + wide{ <1>})
max(1, 2 , 3) - min ( (4) )@(max{ <1> <2> <3>} - min{ <4>})
max( )@WrongCount(0, 3)
abs() + )@WrongCount(0, 3)
1 + abs (1,2) +@WrongCount(4, 3)
max(1, abs(1, 2), )@WrongCount(7, 3)
abs(1, foo)@Bareword(7, 3)
abs(1, )@Syntax(7)
abs(,1)@Syntax(4)
abs(1 2)@Syntax(6)
abs(1,2@Syntax(7)
abs(@Syntax(4)",
    )?;
    assert_eq!(rt; wrong.as_str(), "");
    Ok(())
}

#[test]
fn syntax_faults_have_their_places(rt: HostRuntime) -> Result<(), Fail> {
    let wrong = first_wrong(
        rt.alloc(),
        "@Syntax(0)
   @Syntax(3)
1 +@Syntax(3)
1 2@Syntax(2)
(1@Syntax(2)
(1 2)@Syntax(3)
()@Syntax(1)
1)@Syntax(1)
1 = 2@Syntax(3)
1 ! 2@Syntax(3)
1 ~ 2@Syntax(2)
1 *** 2@Syntax(4)
1 ? 2@Syntax(5)
1 ? 2 3@Syntax(6)
1 ? : 3@Syntax(4)
1 ? 2 : 3 : 4@Syntax(10)
(1 ? 2)@Syntax(6)
1 : 2@Syntax(2)
1,2@Syntax(1)
1 e@Syntax(3)
1 ex@Syntax(3)
1 eqx@Syntax(4)
1 letter@Syntax(4)
1 \\x@Syntax(3)
\\@Syntax(1)
$@Syntax(1)
2 + $ x@Syntax(5)
$:x@Syntax(2)
é@Syntax(0)
\"é\" é@Syntax(5)
{a} {b}@Syntax(4)
\"a\"b@Syntax(3)
$x$y@Syntax(2)",
    )?;
    assert_eq!(rt; wrong.as_str(), "");
    Ok(())
}

#[test]
fn leaves_are_read_as_in_scripts(rt: HostRuntime) -> Result<(), Fail> {
    let wrong = first_wrong(
        rt.alloc(),
        "$a(x $b) eq ${c d}@(\"$a(x $b)\" eq \"$c d\")
$::n::x@\"$::n::x\"
\"x$y[z]\\t\" == {a $b}@(\"x$y[5 z]\t\" == <a $b>)
\"\" ni {}@(\"\" ni <>)
1 + [f x]@(<1> + \"[5 f x]\")
1 + {a@Syntax(4)
\"a@Syntax(0)
 [f@Syntax(1)
[f {a]@Syntax(0)
$a(b@Syntax(0)
1+${a@Syntax(2)
\"[f\"@Syntax(0)",
    )?;
    assert_eq!(rt; wrong.as_str(), "");
    let found = read(rt.alloc(), "1 +\\\n 2\\\n")?;
    assert_eq!(rt; found.as_str(), "(<1> + <2>)");
    let found = read(rt.alloc(), "{a\\\n  b}")?;
    assert_eq!(rt; found.as_str(), "<a b>");
    Ok(())
}

/// So many copies of a front, a middle, and as many of an end.
fn nested(
    alloc: Global,
    depth: usize,
    front: &str,
    middle: &str,
    end: &str,
) -> Result<String, AllocError> {
    let mut text = String::new(alloc);
    for _i in 0..depth {
        text.push_str(front)?;
    }
    text.push_str(middle)?;
    for _i in 0..depth {
        text.push_str(end)?;
    }
    Ok(text)
}

/// Whether a text is an expression that is nested too deep.
fn is_too_deep(alloc: Global, text: &str) -> bool {
    matches!(parse_expr(alloc, text.as_bytes()), Err(ExprFault::TooDeep))
}

#[test]
fn nesting_has_a_limit(rt: HostRuntime) -> Result<(), Fail> {
    for row in "~|(|abs(|2**|1?|1?2:|["
        .split('|')
        .zip("|)|)||:2||]".split('|'))
    {
        let (front, end) = row;
        let fits = nested(rt.alloc(), 100, front, "1", end)?;
        assert!(rt;
            parse_expr(rt.alloc(), fits.as_str().as_bytes()).is_ok(),
            "at {front}"
        );
        let deep = nested(rt.alloc(), 101, front, "1", end)?;
        assert!(rt; is_too_deep(rt.alloc(), deep.as_str()), "at {front}");
    }
    let name = nested(rt.alloc(), 101, "(", "foo", ")")?;
    assert!(rt; is_too_deep(rt.alloc(), name.as_str()));
    let none = nested(rt.alloc(), 101, "(", "", ")")?;
    let found = read(rt.alloc(), none.as_str())?;
    assert_eq!(rt; found.as_str(), "Syntax(101)");
    let empty = nested(rt.alloc(), 100, "~", "max()", "")?;
    let found = read(rt.alloc(), empty.as_str())?;
    assert_eq!(rt; found.as_str(), "WrongCount(100, 3)");
    Ok(())
}
