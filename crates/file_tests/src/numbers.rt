// Numbers and texts, and counts of steps.
use crate::script::{cases, cut, same};
use plan_num::{Silent, Steps, Tally, Text, parse_fixed, parse_whole, print_fixed};
use std::alloc::{AllocError, Global};
use std::test::Fail;

// A field on each line, and the millionths that it spells.
const FIXED: &str = "0.1234567=123456\n\
    -0.0000009=0\n\
    1000000000000=1000000000000000000\n\
    -12.50=-12500000\n\
    007=7000000\n\
    -0=0\n\
    1e3=none\n\
    =none\n\
    -=none\n\
    .5=none\n\
    5.=none\n\
    +5=none\n\
    1.2.3=none\n\
    1000000000000.1=none\n\
    1000000000000.0000001=none\n\
    1234567890123456789012345678901234567890=none\n";

// A field on each line, and the whole number that it spells.
const WHOLE: &str = "5.0=5\n\
    -1000000000000000000=-1000000000000000000\n\
    5.5=none\n\
    1000000000000000001=none\n\
    +5=none\n";

// A number in words.
fn told(alloc: Global, number: Option<i64>) -> Result<String, AllocError> {
    match number {
        Some(number) => format!(in alloc; "{number}"),
        None => String::from_str(alloc, "none"),
    }
}

// The millionths that a field spells.
fn millionths(field: &str) -> Option<i64> {
    let fixed = parse_fixed(field.as_bytes())?;
    Some(fixed.millionths())
}

#[test]
fn fields_spell_fixed_numbers(rt: HostRuntime) -> Result<(), Fail> {
    let rows = cases(rt.alloc(), FIXED, '\n')?;
    for row in &rows {
        let (field, wanted) = cut(*row, '=');
        let told = told(rt.alloc(), millionths(field))?;
        same(&rt, told.as_str(), wanted, *row);
    }
    assert_eq!(rt; rows.len(), 16);
    Ok(())
}

#[test]
fn fields_spell_whole_numbers(rt: HostRuntime) -> Result<(), Fail> {
    let rows = cases(rt.alloc(), WHOLE, '\n')?;
    for row in &rows {
        let (field, wanted) = cut(*row, '=');
        let told = told(rt.alloc(), parse_whole(field.as_bytes()))?;
        same(&rt, told.as_str(), wanted, *row);
    }
    assert_eq!(rt; rows.len(), 5);
    Ok(())
}

#[test]
fn numbers_are_printed(rt: HostRuntime) -> Result<(), Fail> {
    let most = 10_000_000_000_000_000_000_000_000_000_000_000_000;
    let numbers: [(i128, &[u8]); 8] = [
        (1_500_000, b"1.5"),
        (-250_000, b"-0.25"),
        (27_000_000, b"27"),
        (0, b"0"),
        (-1, b"-0.000001"),
        (1_000_000_000_000_000_000, b"1000000000000"),
        (most, b"10000000000000000000000000000000"),
        (-most, b"-10000000000000000000000000000000"),
    ];
    for (millionths, text) in numbers {
        let printed = print_fixed(rt.alloc(), millionths)?;
        assert_eq!(rt; printed.as_bytes(), text);
    }
    Ok(())
}

// The ledger is told of each step, and once.
#[test]
fn steps_are_noted(rt: HostRuntime) {
    let mut steps = Steps::new(Tally::new());
    for told in 1..4 {
        steps.tick();
        assert_eq!(rt; steps.ledger().seen(), told);
    }
    let mut silent = Steps::new(Silent);
    silent.tick();
    let _nothing: &Silent = silent.ledger();
}

#[test]
fn texts_are_copied(rt: HostRuntime) -> Result<(), Fail> {
    let text = Text::copy(rt.alloc(), b"a; b\n")?;
    assert_eq!(rt; text.as_bytes(), b"a; b\n".as_slice());
    Ok(())
}
