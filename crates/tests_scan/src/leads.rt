mod classes;

use crate::check::{is_place, same};
use sh_scan::lead_at;
use sh_tree::{Form, Lead, Operator, Reserved, Stage};
use std::process::Abort;
use std::test::Fail;

/// A text, and the token at its front.
type Row = (&'static [u8], Lead);

fn check(rt: &impl Abort, stage: Stage, rows: &[Row]) {
    for (text, wanted) in rows {
        is_place(rt, text, 0);
        same(rt, text, &lead_at(text, stage, 0), wanted);
    }
}

const OPERATORS: &[Row] = &[
    (b"", Lead::End),
    (b"\n", Lead::Newline),
    (b"#\\\n", Lead::LeftOut(Form::Continuation)),
    (b"`", Lead::Backquote),
    (b"`\n", Lead::Word),
    (b"(a", Lead::Operator(Operator::LeftParenthesis)),
    (b"((", Lead::LeftOut(Form::DoubleParenthesis)),
    (b"(\\\n(", Lead::LeftOut(Form::Continuation)),
    (b"( (", Lead::Operator(Operator::LeftParenthesis)),
    (b"&&", Lead::Operator(Operator::AndIf)),
    (b"&\\\n&", Lead::LeftOut(Form::Continuation)),
    (b"&\\\na", Lead::Operator(Operator::And)),
    (b"<<\\\n-", Lead::LeftOut(Form::Continuation)),
    (b"<\\\n<-", Lead::LeftOut(Form::Continuation)),
    (b"1>", Lead::Number),
    (b"12<", Lead::Number),
    (b"2<\\\n<", Lead::LeftOut(Form::Continuation)),
];

#[test]
fn operators(rt: HostRuntime) -> Result<(), Fail> {
    check(&rt, Stage::First, OPERATORS);
    Ok(())
}

const WORDS: &[Row] = &[
    (b"1 >", Lead::Word),
    (b"1\\\n>", Lead::LeftOut(Form::Continuation)),
    (b"1a>", Lead::Word),
    (b"a=1", Lead::Assignment),
    (b"a", Lead::Word),
    (b"if", Lead::Reserved(Reserved::If)),
    (b"if(", Lead::Reserved(Reserved::If)),
    (b"if`", Lead::Reserved(Reserved::If)),
    (b"if`a`", Lead::Word),
    (b"ifs", Lead::Word),
    (b"if\"\"", Lead::Word),
    (b"\"if\"", Lead::Word),
    (b"i\\\nf", Lead::Word),
    (b"if\\\n a", Lead::Reserved(Reserved::If)),
    (b"{", Lead::Reserved(Reserved::LeftBrace)),
    (b"{a", Lead::Word),
    (b"! a", Lead::Reserved(Reserved::Bang)),
    (b"!(", Lead::LeftOut(Form::BangParenthesis)),
    (b"!\\\n(", Lead::LeftOut(Form::Continuation)),
    (b"! (", Lead::Reserved(Reserved::Bang)),
    (b"f()", Lead::Definition),
    (b"f \\\n #", Lead::Word),
    (b"f \\\n ()", Lead::Definition),
    (b"time a", Lead::LeftOut(Form::Time)),
    (b"time()", Lead::Definition),
    (b"[[ a", Lead::LeftOut(Form::LeftBrackets)),
];

#[test]
fn words(rt: HostRuntime) -> Result<(), Fail> {
    check(&rt, Stage::First, WORDS);
    Ok(())
}

const PREFIXED: &[Row] = &[
    (b"if", Lead::Word),
    (b"time", Lead::LeftOut(Form::Time)),
    (b"f()", Lead::Word),
    (b"a=b", Lead::Assignment),
    (b"2>", Lead::Number),
    (b"`", Lead::Backquote),
    (b"!(", Lead::Word),
    (b"((", Lead::Operator(Operator::LeftParenthesis)),
];

const NAMED: &[Row] = &[
    (b"if", Lead::Word),
    (b"time", Lead::Word),
    (b"f()", Lead::Word),
    (b"a=b", Lead::Word),
    (b"2>", Lead::Number),
    (b"`", Lead::Backquote),
    (b"!(", Lead::Word),
    (b"((", Lead::Operator(Operator::LeftParenthesis)),
];

#[test]
fn later_tokens(rt: HostRuntime) -> Result<(), Fail> {
    check(&rt, Stage::Prefixed, PREFIXED);
    check(&rt, Stage::Named(true), NAMED);
    Ok(())
}
