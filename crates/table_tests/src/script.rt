// Many cases as one text.
use std::alloc::Global;
use std::process::Abort;
use std::test::Fail;

/// The cases of a script, each of which ends with this sign.
pub(crate) fn cases<'a>(alloc: Global, script: &'a str, end: char) -> Result<Vec<&'a str>, Fail> {
    let mut found = Vec::new(alloc);
    let mut left = script;
    for _turn in 0..script.len() {
        let Some((case, rest)) = left.split_once(end) else {
            break;
        };
        found.push(case)?;
        left = rest;
    }
    if left.is_empty() {
        Ok(found)
    } else {
        Err(Fail::from("a case has no end"))
    }
}

/// What stands before the first such sign, and what is behind it. Without one it is all the text.
pub(crate) fn cut(text: &str, sign: char) -> (&str, &str) {
    text.split_once(sign).unwrap_or((text, ""))
}

/// The number that a part spells.
pub(crate) fn number(text: &str) -> Result<i64, Fail> {
    Ok(text.parse::<i64>()?)
}

/// What was told in a case is what is wanted.
pub(crate) fn same(rt: &impl Abort, told: &str, wanted: &str, case: &str) {
    assert_eq!(rt; told, wanted, "{case:?}");
}
