// Reading certificates of lower bounds.
use crate::cells::{number_at, rows_of};
use crate::fault::{RowForm, TextRule, TextStop};
use pesp_judge::{Certificate, CertificateRow, RowWord};
use std::alloc::Global;
use text_fields::{TextRow, TextRows};

/// Reads a row `claim; S; D`, and then rows with a word and two numbers.
pub fn read_certificate(alloc: Global, text: &[u8]) -> Result<Certificate, TextStop> {
    let mut certificate = Certificate {
        claim: 0,
        parts: 1,
        rows: Vec::new(alloc),
    };
    let mut rows = rows_of(alloc, text)?;
    take_all(alloc, &mut rows, &mut certificate)?;
    Ok(certificate)
}

// Takes the claim and all rows after it.
fn take_all<'a>(
    alloc: Global,
    rows: &mut TextRows<'a>,
    certificate: &mut Certificate,
) -> Result<(), TextStop> {
    let mut row = TextRow::new(alloc);
    if !rows.next_row(&mut row)? {
        return Err(TextStop::whole(TextRule::Form(RowForm::Claim)));
    }
    match claim_of(&row) {
        Err(rule) => return Err(TextStop::at(row.number(), rule)),
        Ok((claim, parts)) => {
            certificate.claim = claim;
            certificate.parts = parts;
        }
    }
    'rows: while rows.next_row(&mut row)? {
        match row_of(&row) {
            Err(rule) => return Err(TextStop::at(row.number(), rule)),
            Ok(row) => certificate.rows.push(row)?,
        }
    }
    Ok(())
}

// The claim of the first row, and how many parts make one.
fn claim_of(row: &TextRow<'_>) -> Result<(i64, u32), TextRule> {
    if row.len() != 3 || row.field(0) != b"claim".as_slice() {
        return Err(TextRule::Form(RowForm::Claim));
    }
    let claim = number_at(row, 1)?;
    match u32::try_from(number_at(row, 2)?) {
        Ok(parts) if 1 <= parts && parts <= 1_000_000_000 => Ok((claim, parts)),
        _ => Err(TextRule::Parts),
    }
}

// What another row says.
fn row_of(row: &TextRow<'_>) -> Result<CertificateRow, TextRule> {
    if row.len() != 3 {
        return Err(TextRule::Form(RowForm::Certificate));
    }
    let word = word_of(row.field(0)).ok_or(TextRule::Form(RowForm::Certificate))?;
    let first = number_at(row, 1)?;
    let second = number_at(row, 2)?;
    let number = u32::try_from(row.number())
        .ok()
        .ok_or(TextRule::TooManyRows)?;
    Ok(CertificateRow {
        number,
        word,
        first,
        second,
    })
}

// The word of a field.
fn word_of(field: &[u8]) -> Option<RowWord> {
    match field {
        b"cycle" => Some(RowWord::Cycle),
        b"arc" => Some(RowWord::Arc),
        b"flip" => Some(RowWord::Flip),
        b"split" => Some(RowWord::Split),
        b"leaf" => Some(RowWord::Leaf),
        b"bound" => Some(RowWord::Bound),
        b"cut" => Some(RowWord::Cut),
        _ => None,
    }
}
