// Texts with a known table or fault.
ghost use Rattle.std.specs.Prelude.{◌<◌, ◌^◌, length};

use crate::script::{cases, cut, same};
use giv_files::{
    ColumnKind, ReadFault, RowFault, RowWhy, Table, TextRow, WordTable, read_table, rows_of,
};
use std::alloc::{AllocError, Global};
use std::process::Abort;
use std::test::Fail;

const ANY: ColumnKind = ColumnKind::Whole {
    min: -1_000_000_000_000_000_000,
    max: 1_000_000_000_000_000_000,
};

const ID: ColumnKind = ColumnKind::Whole {
    min: 1,
    max: 1_000_000_000,
};

const LENGTH: ColumnKind = ColumnKind::Fixed {
    min: 0,
    max: 10_000_000_000,
};

const KIND: ColumnKind = ColumnKind::Word {
    words: WordTable::EventKind,
};

// The kinds of two columns, by their first letters.
fn kinds_of(letters: &str) -> [ColumnKind; 2] {
    match letters.as_bytes() {
        [first, second] => [kind_of(*first), kind_of(*second)],
        _ => [ANY, ANY],
    }
}

fn kind_of(letter: u8) -> ColumnKind {
    match letter {
        b'i' => ID,
        b'l' => LENGTH,
        b'k' => KIND,
        b's' => ColumnKind::Skip,
        _ => ANY,
    }
}

// Why a row is refused, in words. The number of fields that were found is told too.
fn why_told(alloc: Global, why: RowWhy) -> Result<String, AllocError> {
    match why {
        RowWhy::FieldCount { found } => format!(in alloc; "{found} fields"),
        _ => format!(in alloc; "{why}"),
    }
}

// The fault of a text, in words.
fn fault_told(alloc: Global, fault: ReadFault) -> Result<String, AllocError> {
    match fault {
        ReadFault::NoMemory => String::from_str(alloc, "out of memory"),
        ReadFault::Row(RowFault { row, why }) => {
            let why = why_told(alloc, why)?;
            format!(in alloc; "row {row}: {why}")
        }
    }
}

// The cells of a row, behind its number.
fn push_row<const C: usize>(
    alloc: Global,
    told: &mut String,
    table: &Table<C>,
    row: usize,
) -> Result<(), AllocError>
    requires { row < length table.now }
{
    let number = table.number(row);
    told.push_str(format!(in alloc; "{number}:")?.as_str())?;
    for column in 0..C {
        let cell = table.cell(row, column);
        told.push_str(format!(in alloc; " {cell}")?.as_str())?;
    }
    told.push_str(".")
}

// The rows of a text, or its fault.
fn told<const C: usize>(
    alloc: Global,
    text: &[u8],
    kinds: &[ColumnKind; C],
) -> Result<String, AllocError>
    requires { C < 2 ^ 32 }
{
    let table = match read_table(alloc, text, kinds) {
        Ok(table) => table,
        Err(fault) => return fault_told(alloc, fault),
    };
    let mut told = String::new(alloc);
    for row in 0..table.len() {
        push_row(alloc, &mut told, &table, row)?;
    }
    Ok(told)
}

// Each case has the kinds of its columns, the rows or the fault, and the text.
const GOOD: &str = "aa||~\
    aa||\r~\
    aa||\n\r\n\n~\
    aa|1: 1 2.|1;2~\
    aa|1: 1 2.| 1\t; 2 ;\n~\
    aa|2: 1 2.4: 3 4.|# a; b\n\n1; 2 # c\n \t# d\n3; \"4\"\r\n~\
    aa|1: 1 0.|1; -0\n~\
    aa|1: 1 -5.|1; -5.00\n~\
    aa|1: 1000000000000000000 -1000000000000000000.|1000000000000000000; -1000000000000000000~\
    aa|1: 7 8.|7;\"8\"#;9\n~\
    aa|1: 1 2.3: 3 4.|1;2#\n#\n3;4 #\r\n~\
    sa|1: 0 8.|\"7\"\"\";8~\
    ii|1: 1000000000 1.|1000000000; 1~\
    li|1: 123456 1.|0.1234567; 1~\
    li|1: 10000000000 1.|10000.0000001; 1~\
    kk|1: 1 0.|arrival; departure~";

const REFUSED: &str = "aa|row 1: 1 fields|\r\r\n~\
    aa|row 1: 1 fields|;~\
    aa|row 1: 1 fields|\"~\
    aa|row 1: 1 fields|\"\"~\
    aa|row 2: 1 fields|1;2\n3~\
    aa|row 1: 1 fields|\n\n\n1~\
    aa|row 2: 1 fields|# c\n\n1~\
    aa|row 1: 3 fields|1;2;3;~\
    aa|row 1: 3 fields|1;2;;~\
    aa|row 1: column 1 is not a number|\"1;2\"~\
    aa|row 1: column 1 is not a number|a;;~\
    aa|row 1: column 2 is not a number|1;;~\
    aa|row 1: column 2 is not a number|1;\"\"~\
    aa|row 1: column 2 is not a number|1;\" 2 \"~\
    aa|row 1: column 2 is not a number|1;\"\"2\"\"~\
    aa|row 1: column 2 is not a number|1;2\r#~\
    aa|row 1: column 2 is not a number|1;+5~\
    aa|row 1: column 2 is not a number|1;1e3~\
    aa|row 1: column 2 is not a number|1;2\0~\
    aa|row 1: column 2 is not a number|1;1234567890123456789012345678901234567890~\
    il|row 1: column 2 is not a number|1;1000000000001~\
    il|row 1: column 2 is out of range|1;10000.000001~\
    ii|row 1: column 1 is out of range|1000000001; x~\
    ii|row 1: column 2 is out of range|1; 0~\
    ii|row 1: column 2 is not a number|1; 2.5~\
    ki|row 1: column 1 is an unknown word|Arrival; 1~\
    kk|row 1: column 2 is an unknown word|arrival ; x~\
    aa|row 1: byte order mark|\u{feff}1;2~\
    aa|row 2: column 1 is not a number|1;2\n\u{feff}3;4~\
    aa|row 1: column 1 is not a number|\n\u{feff}3;4~";

// Reads the text of each case, and tells how many there are.
fn read_each(rt: &(impl AllocGlobal + Abort), script: &str) -> Result<usize, Fail> {
    let alloc = rt.alloc();
    let cases = cases(alloc, script, '~')?;
    for case in &cases {
        let (letters, rest) = cut(*case, '|');
        let (wanted, text) = cut(rest, '|');
        let told = told(alloc, text.as_bytes(), &kinds_of(letters))?;
        same(rt, told.as_str(), wanted, text);
    }
    Ok(cases.len())
}

#[test]
fn good_texts(rt: HostRuntime) -> Result<(), Fail> {
    let count = read_each(&rt, GOOD)?;
    assert_eq!(rt; count, 16);
    Ok(())
}

#[test]
fn refused_texts(rt: HostRuntime) -> Result<(), Fail> {
    let count = read_each(&rt, REFUSED)?;
    assert_eq!(rt; count, 30);
    // and a byte that no text of characters has
    let told = told(rt.alloc(), b"1;2\xFF", &[ANY, ANY])?;
    same(&rt, told.as_str(), "row 1: column 2 is not a number", "");
    Ok(())
}

#[test]
fn three_columns(rt: HostRuntime) -> Result<(), Fail> {
    let text = b"1; 1;1 ;\r\n\r\n  # c\r\n2;2 ;\"3\"# x";
    let read = told(rt.alloc(), text, &[ANY, ANY, ANY])?;
    same(&rt, read.as_str(), "1: 1 1 1.3: 2 2 3.", "");
    let plain = told(rt.alloc(), b"1; 1; 1\n2; 2; 3\n", &[ANY, ANY, ANY])?;
    same(&rt, plain.as_str(), "1: 1 1 1.2: 2 2 3.", "");
    Ok(())
}

#[test]
fn many_empty_lines(rt: HostRuntime) -> Result<(), Fail> {
    let mut text = vec![in rt.alloc(); b'\n'; 1 << 20]?;
    text.extend_from_slice(b"1;2")?;
    let told = told(rt.alloc(), text.as_slice(), &[ID, ID])?;
    same(&rt, told.as_str(), "1: 1 2.", "");
    Ok(())
}

// The fields of a row, behind its number.
fn push_fields(alloc: Global, told: &mut String, row: &TextRow) -> Result<(), AllocError> {
    let number = row.number();
    told.push_str(format!(in alloc; "{number}:")?.as_str())?;
    for index in 0..row.len() {
        told.push_str(" ")?;
        told.push_str(str::from_utf8(row.field(index)).unwrap_or("no text"))?;
    }
    told.push_str(".")
}

// The rows of a text as they are written, or its fault.
fn fields_told(alloc: Global, text: &[u8]) -> Result<String, Fail> {
    let mut rows = match rows_of(alloc, text) {
        Ok(rows) => rows,
        Err(fault) => return Ok(fault_told(alloc, ReadFault::Row(fault))?),
    };
    let mut row = TextRow::new(alloc);
    let mut told = String::new(alloc);
    for _line in 0..text.len() {
        if rows.next_row(&mut row)? {
            push_fields(alloc, &mut told, &row)?;
        }
    }
    Ok(told)
}

#[test]
fn rows_have_numbers_and_fields(rt: HostRuntime) -> Result<(), Fail> {
    let text = b"1; 1;1 ;\r\n\r\n  # c\r\n2;2 ;\"3\"# x";
    let told = fields_told(rt.alloc(), text)?;
    same(&rt, told.as_str(), "1: 1 1 1.3: 2 2 3.", "");
    let marked = fields_told(rt.alloc(), b"\xEF\xBB\xBF1;2\n")?;
    same(&rt, marked.as_str(), "row 1: byte order mark", "");
    Ok(())
}

// Lines that are longer than those that csv is given.
#[test]
fn long_lines_have_fields(rt: HostRuntime) -> Result<(), Fail> {
    let mut text = vec![in rt.alloc(); b' '; 5_000]?;
    text.extend_from_slice(b"1; \"2\";;# c\n3; 4\n")?;
    let fields = fields_told(rt.alloc(), text.as_slice())?;
    same(&rt, fields.as_str(), "1: 1 2 .2: 3 4.", "");
    let semicolons = vec![in rt.alloc(); b';'; 5_000]?;
    let read = told(rt.alloc(), semicolons.as_slice(), &[ANY, ANY])?;
    same(&rt, read.as_str(), "row 1: 5000 fields", "");
    Ok(())
}
