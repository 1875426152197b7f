//! Tables, as calls of the pass (GFM 4.10).

ghost use Rattle.first_pass.specs.Calls.{ClosesTable, ReadsTableLine, ReadsTableRow};
ghost use Rattle.first_pass.specs.Views.{source_text, tree_of};
ghost use Rattle.first_pass_open.specs.OpenBlock.{IsJustPushed};
ghost use Rattle.first_pass_tables.specs.Appends.{IsOpenNode};
ghost use Rattle.first_pass_tree.specs.declared.tree_index.TreeIndex.{TreeIndex};
ghost use Rattle.std.specs.Prelude.{◌≤◌, length, IfOk, IsSomeAnd, IsCharBoundary};

use crate::state::{FirstPass, recall_utf8};
use first_pass_tables::row::{self, CellsWanted, TableSoFar};
use first_pass_tables::rows::{self, TableRows};
use first_pass_tokens::braces::BraceContexts;
use first_pass_tree::tree_index::TreeIndex;
use std::alloc::AllocError;
use std::mem::replace;

impl<'a> FirstPass<'a> {
    /// Appends the rows of a table with `table_cols` columns, and then closes the table. The table must be the
    /// innermost open node, and just opened. The header row begins at the offset `head_start`. The other rows are in
    /// the lines from the offset `body_start` on, up to the first line that is no row. Returns the start of that line,
    /// or the end of the text; never `None` (GFM 4.10).
    ///
    /// Each row gets exactly `table_cols` cells. At most 262,144 empty cells are inserted, or as many as the header row
    /// needs if these are more. It needs none if the options have tables and the line at `head_start` has at least
    /// `table_cols` columns (this project).
    pub fn parse_table(
        &mut self,
        table_cols: usize,
        head_start: usize,
        body_start: usize,
    ) -> Result<Option<usize>, AllocError>
        requires head { IsCharBoundary (source_text self.old) head_start }
        requires body { IsCharBoundary (source_text self.old) body_start }
        requires open { (ix : TreeIndex) × IsJustPushed (tree_of self.old) ix }
        ensures { IfOk result (λ answer. IsSomeAnd answer (λ next.
            ClosesTable self.old self.new table_cols head_start body_start next)) }
    {
        let pass = &mut self.pass;
        let rows = TableRows {
            columns: table_cols,
            head_start,
            body_start,
        };
        let next = rows::parse_table(&pass.source, &mut pass.state.tree, &mut pass.allocs, rows)?;
        Ok(Some(next))
    }

    /// Appends the row in the line that begins at the offset `ix`, of a table with `row_cells` columns. The innermost
    /// open node must be the table. Returns the same as `parse_table_row_inner`; returns `None` also if the line
    /// doesn't continue all open containers, or if its text would interrupt a paragraph, as any list item does here
    /// (GFM 4.10). The brace contexts are those of the call before, and after the call those at the end of the row.
    pub fn parse_table_row(
        &mut self,
        ix: usize,
        row_cells: usize,
        missing_empty_cells: &mut usize,
    ) -> Result<Option<(usize, TreeIndex)>, AllocError>
        requires boundary { IsCharBoundary (source_text self.old) ix }
        requires open { IsOpenNode (tree_of self.old) }
        ensures { IfOk result (λ row. ReadsTableLine self.old self.new (record { start = ix; most = row_cells })
            missing_empty_cells.old missing_empty_cells.new row) }
    {
        let mut table = TableSoFar {
            missing_empty_cells: *missing_empty_cells,
            braces: replace(&mut self.braces, BraceContexts::new()),
        };
        let wanted = CellsWanted {
            start: ix,
            most: row_cells,
        };
        let pass = &mut self.pass;
        let row = rows::parse_table_row(
            &pass.source,
            &mut pass.state.tree,
            &mut pass.allocs,
            &mut table,
            wanted,
        );
        self.braces = table.braces;
        *missing_empty_cells = table.missing_empty_cells;
        let row = row?;
        Ok(row)
    }

    /// Appends the row that begins at the offset `ix`, after the container prefixes of its line, to the innermost open
    /// node. Into a row of fewer than `row_cells` cells, empty cells are inserted, and added to the count in
    /// `missing_empty_cells`. Returns the end of the row and the row's index. Returns `None` and appends nothing if the
    /// row has no cell and is not the table's first row, or if more than 262,144 cells would be inserted into the table
    /// (GFM 4.10).
    pub fn parse_table_row_inner(
        &mut self,
        ix: usize,
        row_cells: usize,
        missing_empty_cells: &mut usize,
    ) -> Result<Option<(usize, TreeIndex)>, AllocError>
        requires within { ix ≤ length (source_text self.old) }
        requires open { IsOpenNode (tree_of self.old) }
        ensures { IfOk result (λ row. ReadsTableRow self.old self.new (record { start = ix; most = row_cells })
            missing_empty_cells.old missing_empty_cells.new row) }
    {
        let mut table = TableSoFar {
            missing_empty_cells: *missing_empty_cells,
            braces: replace(&mut self.braces, BraceContexts::new()),
        };
        let wanted = CellsWanted {
            start: ix,
            most: row_cells,
        };
        let pass = &mut self.pass;
        recall_utf8(pass.source.text);
        let row = row::parse_table_row_inner(
            &pass.source,
            &mut pass.state.tree,
            &mut pass.allocs,
            &mut table,
            wanted,
        );
        self.braces = table.braces;
        *missing_empty_cells = table.missing_empty_cells;
        let row = row?;
        Ok(row)
    }
}
