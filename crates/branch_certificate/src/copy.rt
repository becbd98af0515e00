// Writing the text of a tree anew.
ghost use Rattle.branch_certificate.specs.TreeTexts.{CopiesTrees, CopyGives};

use crate::write::header_line;
use plan_num::Text;
use std::alloc::Global;
use tables::{ReadFault, Table, TextRow, columns, push_line, rows_of};

/// The text of a table of a tree written anew, or its first row with a cell at fault. Where the text
/// is a tree, that is what `write_tree` writes of this tree. It goes row by row, with no tree and no
/// table of it.
pub fn copy_tree(alloc: Global, bytes: &[u8]) -> Result<Text, ReadFault>
    ensures gives { CopyGives bytes.now result }
    ensures trees { CopiesTrees bytes.now result }
{
    let mut lines = header_line(alloc)?;
    let mut rows = rows_of(alloc, bytes)?;
    let mut row = TextRow::new(alloc);
    let mut table = Table::new(alloc);
    'rows: while rows.next_row(&mut row)? {
        table.clear();
        table.read_row(&row, &columns!(Tree))?;
        push_line(alloc, &mut lines, table.row(0), &columns!(Tree))?;
    }
    Ok(Text::from_vec(lines))
}
