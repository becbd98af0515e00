// Written tables, made files, and words for refusals.
use giv_files::{
    ColumnKind, Counted, FileId, MadeFile, MadeList, RowWhy, Table, WordTable, write_table,
};
use plan_num::Text;
use std::test::Fail;

#[test]
fn written_rows(rt: HostRuntime) -> Result<(), Fail> {
    let alloc = rt.alloc();
    let mut table = Table::new(alloc);
    table.push(7, &[1, 0, -250_000, 1])?;
    table.push(9, &[-1_000_000_000_000_000_000, 1, 1_500_000, 0])?;
    let kinds = [
        ColumnKind::Whole {
            min: -1_000_000_000_000_000_000,
            max: 10,
        },
        ColumnKind::Word {
            words: WordTable::Direction,
        },
        ColumnKind::Fixed {
            min: -1_000_000,
            max: 2_000_000,
        },
        ColumnKind::Word {
            words: WordTable::ScheduleKind,
        },
    ];
    let text = write_table(alloc, b"# a; b; c; d", &table, &kinds)?;
    let want = b"# a; b; c; d\n1; >; -0.25; EMPTY\n-1000000000000000000; <; 1.5; TRIP\n";
    assert_eq!(rt; text.as_bytes(), want.as_slice());
    Ok(())
}

#[test]
fn made_files(rt: HostRuntime) -> Result<(), Fail> {
    let mut files = MadeList::new(rt.alloc());
    files.push(MadeFile {
        file: FileId::Tree,
        text: Text::copy(rt.alloc(), b"# kind")?,
    })?;
    assert_eq!(rt; files.len(), 1);
    assert_eq!(rt; files.get(0).file.name(), "line-planning/Line-Concept.cert");
    Ok(())
}

#[test]
fn refusal_texts(rt: HostRuntime) -> Result<(), Fail> {
    let why = RowWhy::OutOfRange { column: 12 };
    assert_eq!(rt;
        format!(in rt.alloc(); "{why}")?.as_str(),
        "column 12 is out of range"
    );
    let counted = Counted::DemandRows;
    assert_eq!(rt;
        format!(in rt.alloc(); "{counted}")?.as_str(),
        "demand rows"
    );
    Ok(())
}
