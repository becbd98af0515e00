// Times of a round in a period of 10 minutes: kept, broken and refused.
use pesp_judge::Judged;
use pesp_texts::{AnswerStop, RowForm, TextFault, TextRule, judge_texts, with_semicolons};
use std::alloc::Global;
use std::test::Fail;

// A drive, a wait and a way back to the first event. The events are 7, -1 and 90.
const ROUND: &str = "1;7;-1;3;5;5\n2;-1;90;2;2;1\n# a remark\n3;90;7;4;4;1\n";

// What is said of times in a period of 10 minutes.
fn judged(alloc: Global, instance: &str, times: &str) -> Result<Judged, AnswerStop> {
    match judge_texts(alloc, instance.as_bytes(), times.as_bytes(), 10) {
        Ok(it) => Ok(it.judged),
        Err(stop) => Err(stop),
    }
}

// A text is refused at a row.
fn at(row: u64, rule: TextRule) -> TextFault {
    TextFault {
        row: Some(row),
        rule,
    }
}

#[test]
fn times_are_kept_or_broken(rt: HostRuntime) -> Result<(), Fail> {
    let cases = [
        ("7;0\n-1;4\n90;6\n", Judged::Kept(5)),
        ("90;0\n7;4\n-1;8\n", Judged::Kept(5)),
        ("7;9\n-1;3\n90;5\n", Judged::Kept(5)),
        ("7;0\n-1;3\n90;5\n", Judged::Broken(2)),
        ("7;0\n-1;6\n90;8\n", Judged::Broken(0)),
        ("7;0\n-1;4\n90;7\n", Judged::Broken(1)),
    ];
    for (times, wanted) in cases {
        assert!(rt; judged(rt.alloc(), ROUND, times) == Ok(wanted));
    }
    Ok(())
}

#[test]
fn times_are_refused(rt: HostRuntime) -> Result<(), Fail> {
    let cases = [
        (
            "7;0\n-1;4\n",
            TextFault {
                row: None,
                rule: TextRule::NoTime,
            },
        ),
        ("7;0\n7;4\n90;6\n", at(2, TextRule::Twice)),
        ("7;0\n-1;10\n90;6\n", at(2, TextRule::Outside)),
        ("7;-1\n-1;4\n90;6\n", at(1, TextRule::Outside)),
        ("8;0\n-1;4\n90;6\n", at(1, TextRule::UnknownEvent)),
        ("7;0;1\n-1;4\n90;6\n", at(1, TextRule::Form(RowForm::Time))),
        ("7;x\n-1;4\n90;6\n", at(1, TextRule::NotWhole)),
        ("\u{feff}7;0\n", at(1, TextRule::ByteOrderMark)),
    ];
    for (times, fault) in cases {
        assert!(rt; judged(rt.alloc(), ROUND, times) == Err(AnswerStop::Other(fault)));
    }
    Ok(())
}

#[test]
fn activities_are_refused(rt: HostRuntime) -> Result<(), Fail> {
    let cases = [
        ("1;7;8;3;2;5\n", TextRule::Bounds),
        ("1;7;8;-1;2;5\n", TextRule::Bounds),
        ("1;7;8;3;100001;5\n", TextRule::Bounds),
        ("1;7;8;3;5;-1\n", TextRule::Weight),
        ("1;7;8;3;5;1000000001\n", TextRule::Weight),
        ("1;7;8;3;5\n", TextRule::Form(RowForm::Activity)),
        ("1;7;8;3;5.5;1\n", TextRule::NotWhole),
        ("1;7;18446744073709551616;3;5;1\n", TextRule::NotWhole),
    ];
    for (instance, rule) in cases {
        let fault = AnswerStop::Instance(at(1, rule));
        assert!(rt; judged(rt.alloc(), instance, "7;0\n") == Err(fault));
    }
    Ok(())
}

#[test]
fn commas_and_tabs_part_fields(rt: HostRuntime) -> Result<(), Fail> {
    let mut commas = Vec::from_slice(rt.alloc(), b"# c;\n1,7,8,3,5,5\n")?;
    let mut tabs = Vec::from_slice(rt.alloc(), b"1\t7\t8\t3\t5\t5\n")?;
    let mut semicolons = Vec::from_slice(rt.alloc(), b"1;7,0;8;3;5;5\n")?;
    assert!(rt; with_semicolons(rt.alloc(), &mut commas) == Ok(()));
    assert!(rt; with_semicolons(rt.alloc(), &mut tabs) == Ok(()));
    assert!(rt; with_semicolons(rt.alloc(), &mut semicolons) == Ok(()));
    assert!(rt; *commas == *b"# c;\n1;7;8;3;5;5\n".as_slice());
    assert!(rt; *tabs == *b"1;7;8;3;5;5\n".as_slice());
    assert!(rt; *semicolons == *b"1;7,0;8;3;5;5\n".as_slice());
    Ok(())
}
