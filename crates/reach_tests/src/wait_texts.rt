// Waiting decisions from any hand.
use crate::wait_days::{ONE_CHANGE, bundle};
use giv_files::{Bundle, Stage};
use std::alloc::Global;
use std::test::Fail;
use wait_choice::{WaitRule, check_waits};

// A penalty, a text, and the first rule that it breaks.
type Row = (u32, &'static str, Option<WaitRule>);

const ROWS: [Row; 23] = [
    (
        1,
        "# kind; id; value\ncost; 0; 4\ndrop; 3; 0\nsplit; 3; 0\nleaf; 0; 0\nleaf; 0; 0\n",
        None,
    ),
    (
        2,
        "cost; 0; 5\nkeep; 3; 0\nsplit; 3; 0\nleaf; 0; 0\nleaf; 0; 0\n",
        None,
    ),
    (1, "cost; 0; 5\nkeep; 3; 0\n", None),
    (1, "cost; 0; x\n", Some(WaitRule::Row)),
    (1, "cost; 0; 5\nwait; 3; 0\n", Some(WaitRule::Row)),
    (
        1,
        "cost; 0; 1000000000000000001\nkeep; 3; 0\n",
        Some(WaitRule::Row),
    ),
    (1, "", Some(WaitRule::Shape)),
    (1, "cost; 0; 5\n", Some(WaitRule::Shape)),
    (1, "cost; 0; 5\nkeep; 2; 0\n", Some(WaitRule::Shape)),
    (1, "cost; 0; 5\nkeep; 3; 1\n", Some(WaitRule::Shape)),
    (1, "keep; 3; 0\ncost; 0; 5\n", Some(WaitRule::Shape)),
    (1, "cost; 3; 5\nkeep; 3; 0\n", Some(WaitRule::Shape)),
    (
        1,
        "cost; 0; 5\nkeep; 3; 0\nleaf; 0; 0\nkeep; 3; 0\n",
        Some(WaitRule::Shape),
    ),
    (
        1,
        "cost; 0; 5\nkeep; 3; 0\nleaf; 3; 0\n",
        Some(WaitRule::Shape),
    ),
    (
        1,
        "cost; 0; 4\nkeep; 3; 0\nleaf; 0; 0\n",
        Some(WaitRule::Cost),
    ),
    (
        1,
        "cost; 0; 4\nkeep; 3; 0\nsplit; 3; 0\n",
        Some(WaitRule::Cost),
    ),
    (
        1,
        "cost; 0; 4\ndrop; 3; 0\nsplit; 3; 0\nleaf; 0; 0\n",
        Some(WaitRule::Tree),
    ),
    (
        1,
        "cost; 0; 4\ndrop; 3; 0\nleaf; 0; 0\nleaf; 0; 0\n",
        Some(WaitRule::Tree),
    ),
    (
        1,
        "cost; 0; 4\ndrop; 3; 0\nsplit; 3; 0\nsplit; 3; 0\nleaf; 0; 0\nleaf; 0; 0\nleaf; 0; 0\n",
        Some(WaitRule::Tree),
    ),
    (
        1,
        "cost; 0; 4\ndrop; 3; 0\nsplit; 9; 0\nleaf; 0; 0\nleaf; 0; 0\n",
        Some(WaitRule::Tree),
    ),
    (
        1,
        "cost; 0; 4\ndrop; 3; 0\nsplit; 1; 0\nleaf; 0; 0\nleaf; 0; 0\n",
        Some(WaitRule::Tree),
    ),
    (
        1,
        "cost; 0; 4\ndrop; 3; 0\nleaf; 0; 0\n",
        Some(WaitRule::Leaf),
    ),
    (
        1,
        "cost; 0; 5\nkeep; 3; 0\nsplit; 3; 0\nleaf; 0; 0\nleaf; 0; 0\n",
        Some(WaitRule::Leaf),
    ),
];

// The first rule that a text breaks.
fn broken(
    alloc: Global,
    bundle: &Bundle,
    penalty: u32,
    text: &[u8],
) -> Result<Option<WaitRule>, Fail> {
    if bundle.stage() != Stage::Disposition || !bundle.fits() {
        return Err(Fail::from("the bundle does not fit"));
    }
    match check_waits(alloc, bundle, penalty, text) {
        Ok(rule) => Ok(rule),
        Err(_) => Err(Fail::from("refused")),
    }
}

#[test]
fn rules_of_texts(rt: HostRuntime) -> Result<(), Fail> {
    let bundle = bundle(rt.alloc(), &ONE_CHANGE)?;
    for (penalty, text, rule) in ROWS {
        let found = broken(rt.alloc(), &bundle, penalty, text.as_bytes())?;
        assert_eq!(rt; found, rule);
    }
    Ok(())
}

// A tree with 400,000 leaves behind its last one: the first of these is one too many.
#[test]
fn leaves_left_over(rt: HostRuntime) -> Result<(), Fail> {
    let bundle = bundle(rt.alloc(), &ONE_CHANGE)?;
    let mut text = String::from_str(rt.alloc(), "cost; 0; 4\ndrop; 3; 0\nsplit; 3; 0\n")?;
    for _leaf in 0..400_000 {
        text.push_str("leaf; 0; 0\n")?;
    }
    let found = broken(rt.alloc(), &bundle, 1, text.as_bytes())?;
    assert_eq!(rt; found, Some(WaitRule::Tree));
    Ok(())
}
