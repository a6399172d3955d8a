//! Values for the edges, corners and lines of a table. Source: `config/spanned/borders_config.rs`.

ghost use Rattle.std.specs.Prelude.{◌≡◌, ◌∷◌, [], map, ◌+◌, ◌<◌, ◌^◌, ◌↔◌, ◌++◌, List, ℕ, OnOk, OnErr, IfOk, IsFalse, IsTrue, nat_eq, option_copied};
ghost use Rattle.std.specs.HashMap.{get as map_get};
ghost use Rattle.std.specs.Option.{option_or};
ghost use Rattle.std.specs.FinMap.{get as value_at};
ghost use Rattle.papergrid_values.specs.History.{AppendsHistory};
ghost use Rattle.papergrid_values.specs.Borders.{border_parts};
ghost use Rattle.papergrid_values.specs.declared.direction.Direction.TheVariants.{Columns, Rows};
ghost use Rattle.papergrid_tables.specs.BorderCalls.{BorderCall, Clear, InsertBorder, RemoveBorder, InsertHorizontalLine, RemoveHorizontalLine, InsertVerticalLine, RemoveVerticalLine, SetBorders, SetGlobal};
ghost use Rattle.papergrid_tables.specs.StoredBorders.{HasBorderHistory, parts_of_borders};
ghost use Rattle.papergrid_values.specs.MapKeys.{position_eq};
ghost use Rattle.papergrid_tables.specs.LineTests.{line_along};
ghost use Rattle.papergrid_tables.specs.BorderParts.{HasNoCellParts, IsSet, found_border, found_horizontal, found_intersection, found_vertical, HasLine};

use crate::border_parts as parts;
use crate::counted_lines::Lines;
use crate::counted_parts::{Corners, Edges};
use papergrid_values::{Border, Borders, HorizontalLine, Position, VerticalLine};
use std::alloc::{AllocError, Global};
use std::collections::HashMap;
use std::marker::Model;
use std::mem;

/// A value for all lines, a frame, horizontal lines by row, vertical lines by column, and the
/// edges and corners of cells by position. Neighbouring cells share edges and corners. What is
/// stored on each line is counted, so that a line is found without a look at all of it.
#[derive(Debug)]
pub struct BorderTable<T> {
    global: Option<T>,
    frame: Borders<T>,
    horizontal_lines: Lines<HorizontalLine<T>>,
    vertical_lines: Lines<VerticalLine<T>>,
    horizontal_edges: Edges<T>,
    vertical_edges: Edges<T>,
    corners: Corners<T>,
}

// By hand: docs/DECISIONS.md, "Drops".
impl<T: Drop> Drop for BorderTable<T> {
    fn drop(self) {
        let BorderTable {
            global: _,
            frame: _,
            horizontal_lines: _,
            vertical_lines: _,
            horizontal_edges: _,
            vertical_edges: _,
            corners: _,
        } = self;
    }
}

impl<T> Model for BorderTable<T> {
    ghost use Rattle.std.specs.FinMap as map;
    ghost use Rattle.papergrid_tables.specs.StoredBorders.{StoredBorders};
    ghost use Rattle.papergrid_tables.specs.ForProofs.BorderCodes.{stored_borders_code};

    ghost Value = { StoredBorders T };

    ghost coded = { stored_borders_code T.code };

    ghost view = { λ t. record {
      global = t.global;
      frame = t.frame;
      horizontal_lines = map.from_entries t.horizontal_lines.values.entries;
      vertical_lines = map.from_entries t.vertical_lines.values.entries;
      horizontal_edges = map.from_entries t.horizontal_edges.values.entries;
      vertical_edges = map.from_entries t.vertical_edges.values.entries;
      corners = map.from_entries t.corners.values.entries;
    } };

    ghost use Rattle.papergrid_tables.specs.ForProofs.CountedTable.{IsCounted};

    ghost invariant = { λ t.
        IsCounted t.horizontal_lines t.vertical_lines t.horizontal_edges t.vertical_edges t.corners };
}

impl<T> BorderTable<T> {
    /// The table that holds nothing. It does not allocate.
    pub fn new(alloc: Global) -> Self
        ensures told { HasBorderHistory [] result }
        ensures cleared { (calls : List (BorderCall T)) →
            HasBorderHistory (calls ++ Clear ∷ []) result }
    {
        BorderTable {
            global: None,
            frame: Borders::empty(),
            horizontal_lines: Lines::new(alloc),
            vertical_lines: Lines::new(alloc),
            horizontal_edges: Edges::new(alloc),
            vertical_edges: Edges::new(alloc),
            corners: Corners::new(alloc),
        }
    }

    /// Whether there is no value for all lines, no part of the frame is set, and no edge, corner
    /// or line is stored. A line with no part set is one that is stored.
    pub fn is_empty(&self) -> bool
        ensures { IsTrue result ↔ HasBorderHistory [] self.now }
    {
        let global = self.global.is_none();
        let frame = self.frame.is_empty();
        let horizontal_lines = self.horizontal_lines.values.is_empty();
        let vertical_lines = self.vertical_lines.values.is_empty();
        let horizontal_edges = self.horizontal_edges.values.is_empty();
        let vertical_edges = self.vertical_edges.values.is_empty();
        let corners = self.corners.values.is_empty();
        let lines = horizontal_lines & vertical_lines;
        let edges = horizontal_edges & (vertical_edges & corners);
        global & (frame & (lines & edges))
    }

    /// Whether an edge or a corner of a cell is stored.
    pub fn has_cell_parts(&self) -> bool
        ensures { IsFalse result ↔ HasNoCellParts (parts_of_borders self.now) }
    {
        let horizontal_edges = self.horizontal_edges.values.is_empty();
        let vertical_edges = self.vertical_edges.values.is_empty();
        let corners = self.corners.values.is_empty();
        !(horizontal_edges & (vertical_edges & corners))
    }

    /// The vertical line at a row and a column, where there are so many columns: the edge, the
    /// line's main part, the frame's part or the value for all lines, whichever is the first set.
    pub fn get_vertical(&self, position: Position, count: usize) -> Option<&T>
        ensures { option_copied result ≡ found_vertical (parts_of_borders self.now) position count }
    {
        let line = parts::vertical_main(&self.vertical_lines.values, position.col);
        let frame = parts::frame_vertical(&self.frame, position.col, count);
        self.first_set(&self.vertical_edges, position, line, frame)
    }

    /// The horizontal line at a row and a column, where there are so many rows, likewise.
    pub fn get_horizontal(&self, position: Position, count: usize) -> Option<&T>
        ensures { option_copied result
            ≡ found_horizontal (parts_of_borders self.now) position count }
    {
        let line = parts::horizontal_main(&self.horizontal_lines.values, position.row);
        let frame = parts::frame_horizontal(&self.frame, position.row, count);
        self.first_set(&self.horizontal_edges, position, line, frame)
    }

    // The first that is set: the edge at a position, the main part of its line, the frame's part for
    // it, or the value for all lines.
    fn first_set<'a>(
        &'a self,
        edges: &'a Edges<T>,
        position: Position,
        line: Option<&'a T>,
        frame: Option<&'a T>,
    ) -> Option<&'a T>
        ensures { option_copied result ≡ option_or (map_get position_eq edges.now.values position)
            (option_or (option_copied line.entry)
            (option_or (option_copied frame.entry) self.now.global)) }
    {
        let edge = edges.values.get(&position);
        edge.or(line).or(frame).or(self.global.as_ref())
    }

    /// What stands where two lines cross, in a table of so many rows and columns: the corner, the
    /// horizontal line's part, the vertical line's, the frame's or the value for all lines,
    /// whichever is the first set.
    pub fn get_intersection(&self, position: Position, shape: (usize, usize)) -> Option<&T>
        ensures { option_copied result
            ≡ found_intersection (parts_of_borders self.now) position shape.0 shape.1 }
    {
        self.corners
            .values
            .get(&position)
            .or(parts::row_part(
                self.horizontal_lines.values.get(&position.row),
                position.col,
                shape.1,
            ))
            .or(parts::column_part(
                self.vertical_lines.values.get(&position.col),
                position.row,
                shape.0,
            ))
            .or(parts::of_frame(&self.frame, position, shape))
            .or(self.global.as_ref())
    }

    /// What is found round a cell, in a table of so many rows and columns. Condition: the next row
    /// and column exist in `usize`.
    pub fn get_border(&self, position: Position, shape: (usize, usize)) -> Border<&T>
        requires row { position.row + 1 < 2 ^ 64 }
        requires col { position.col + 1 < 2 ^ 64 }
        ensures { map option_copied (border_parts result)
            ≡ border_parts (found_border (parts_of_borders self.now) position shape.0 shape.1) }
    {
        let (rows, cols) = shape;
        let (below, right, opposite) = parts::neighbours(position);
        Border {
            top: self.get_horizontal(position, rows),
            bottom: self.get_horizontal(below, rows),
            left: self.get_vertical(position, cols),
            right: self.get_vertical(right, cols),
            left_top_corner: self.get_intersection(position, shape),
            left_bottom_corner: self.get_intersection(below, shape),
            right_top_corner: self.get_intersection(right, shape),
            right_bottom_corner: self.get_intersection(opposite, shape),
        }
    }

    /// The horizontal line stored at a row.
    pub fn get_horizontal_line(&self, row: usize) -> Option<&HorizontalLine<T>>
        ensures { option_copied result ≡ value_at self.now.horizontal_lines row }
    {
        self.horizontal_lines.values.get(&row)
    }

    /// The vertical line stored at a column.
    pub fn get_vertical_line(&self, col: usize) -> Option<&VerticalLine<T>>
        ensures { option_copied result ≡ value_at self.now.vertical_lines col }
    {
        self.vertical_lines.values.get(&col)
    }

    /// The frame.
    pub fn get_borders(&self) -> &Borders<T>
        ensures { result.now ≡ self.now.frame }
    {
        &self.frame
    }

    /// The value for all lines.
    pub fn get_global(&self) -> Option<&T>
        ensures { option_copied result ≡ self.now.global }
    {
        self.global.as_ref()
    }

    /// Whether there is a vertical line at a column, where there are so many columns: a value for
    /// all lines, a part of the frame, or `is_vertical_set`.
    pub fn has_vertical(&self, col: usize, count: usize) -> bool
        ensures line { IsTrue result ↔ HasLine Columns (parts_of_borders self.now) col count }
        ensures test { result ≡ line_along self.now Columns count col }
    {
        let is_drawn = self.global.is_some() || parts::in_frame_vertical(&self.frame, col, count);
        is_drawn || self.is_vertical_set(col, count)
    }

    /// Whether there is a horizontal line at a row, where there are so many rows: a value for all
    /// lines, a part of the frame, or `is_horizontal_set`.
    pub fn has_horizontal(&self, row: usize, count: usize) -> bool
        ensures line { IsTrue result ↔ HasLine Rows (parts_of_borders self.now) row count }
        ensures test { result ≡ line_along self.now Rows count row }
    {
        let is_drawn = self.global.is_some() || parts::in_frame_horizontal(&self.frame, row, count);
        is_drawn || self.is_horizontal_set(row, count)
    }

    /// Whether a vertical line, an edge or a corner is stored at a column, where there are so
    /// many columns, or a horizontal line that ends there has that end set.
    pub fn is_vertical_set(&self, col: usize, count: usize) -> bool
        ensures { IsTrue result ↔ IsSet Columns (parts_of_borders self.now) col count }
    {
        let lines = (&self.horizontal_lines, &self.vertical_lines);
        let counts = (&self.vertical_edges.on_lines, &self.corners.in_columns);
        parts::is_set_at((col, count), lines, counts)
    }

    /// Whether a horizontal line, an edge or a corner is stored at a row, where there are so
    /// many rows, or a vertical line that ends there has that end set.
    pub fn is_horizontal_set(&self, row: usize, count: usize) -> bool
        ensures { IsTrue result ↔ IsSet Rows (parts_of_borders self.now) row count }
    {
        let lines = (&self.vertical_lines, &self.horizontal_lines);
        let counts = (&self.horizontal_edges.on_lines, &self.corners.in_rows);
        parts::is_set_at((row, count), lines, counts)
    }
}

impl<T: Drop> BorderTable<T> {
    /// Writes the parts of a cell's border that are set, and leaves the others. Where an
    /// allocation fails the table is as it was. Condition: the next row and column exist in
    /// `usize`.
    pub fn insert_border(&mut self, position: Position, border: Border<T>) -> Result<(), AllocError>
        requires row { position.row + 1 < 2 ^ 64 }
        requires col { position.col + 1 < 2 ^ 64 }
        ensures ok { OnOk result (AppendsHistory HasBorderHistory self.old self.new
            (InsertBorder position border ∷ [])) }
        ensures err { OnErr result (self.new ≡ self.old) }
    {
        parts::reserve(
            &mut self.horizontal_edges,
            &mut self.vertical_edges,
            &mut self.corners,
        )?;
        parts::put_border(
            &mut self.horizontal_edges,
            &mut self.vertical_edges,
            &mut self.corners,
            position,
            border,
        );
        Ok(())
    }

    /// Removes the four edges and four corners of a cell, whatever the shape. Condition: the next
    /// row and column exist in `usize`.
    pub fn remove_border(&mut self, position: Position, _shape: (usize, usize))
        requires row { position.row + 1 < 2 ^ 64 }
        requires col { position.col + 1 < 2 ^ 64 }
        ensures { AppendsHistory HasBorderHistory self.old self.new (RemoveBorder position ∷ []) }
    {
        parts::take_border(
            &mut self.horizontal_edges,
            &mut self.vertical_edges,
            &mut self.corners,
            position,
        );
    }

    /// Sets the horizontal line at a row, in place of the one stored. Where an allocation fails
    /// the table is as it was.
    pub fn insert_horizontal_line(
        &mut self,
        row: usize,
        line: HorizontalLine<T>,
    ) -> Result<(), AllocError>
        ensures ok { OnOk result
            (AppendsHistory HasBorderHistory self.old self.new
            (InsertHorizontalLine row line ∷ [])) }
        ensures err { OnErr result (self.new ≡ self.old) }
    {
        self.horizontal_lines.put(row, line)
    }

    /// Sets the vertical line at a column, in place of the one stored. Where an allocation fails
    /// the table is as it was.
    pub fn insert_vertical_line(
        &mut self,
        col: usize,
        line: VerticalLine<T>,
    ) -> Result<(), AllocError>
        ensures ok { OnOk result
            (AppendsHistory HasBorderHistory self.old self.new (InsertVerticalLine col line ∷ [])) }
        ensures err { OnErr result (self.new ≡ self.old) }
    {
        self.vertical_lines.put(col, line)
    }

    /// Removes the horizontal line at a row, whatever the number of rows.
    pub fn remove_horizontal_line(&mut self, row: usize, _count: usize)
        ensures { AppendsHistory HasBorderHistory self.old self.new
            (RemoveHorizontalLine row ∷ []) }
    {
        self.horizontal_lines.take(row);
    }

    /// Removes the vertical line at a column, whatever the number of columns.
    pub fn remove_vertical_line(&mut self, col: usize, _count: usize)
        ensures { AppendsHistory HasBorderHistory self.old self.new (RemoveVerticalLine col ∷ []) }
    {
        self.vertical_lines.take(col);
    }

    /// Sets the frame.
    pub fn set_borders(&mut self, borders: Borders<T>)
        ensures { AppendsHistory HasBorderHistory self.old self.new (SetBorders borders ∷ []) }
    {
        // By a call, since an assignment drops each part of the old frame.
        drop(mem::replace(&mut self.frame, borders));
    }

    /// Sets the value for all lines.
    pub fn set_global(&mut self, value: T)
        ensures { AppendsHistory HasBorderHistory self.old self.new (SetGlobal value ∷ []) }
    {
        self.global = Some(value);
    }
}

impl<T: Clone> BorderTable<T> {
    /// All horizontal lines that are stored, or out of memory. Condition: a clone of a value
    /// equals it.
    pub fn get_horizontal_lines(&self) -> Result<HashMap<usize, HorizontalLine<T>>, AllocError>
        requires equal_clones { (x y : T) → T.is_clone x y → y ≡ x }
        ensures { IfOk result (λ all. (n : ℕ) →
            map_get nat_eq all n ≡ value_at self.now.horizontal_lines n) }
    {
        self.horizontal_lines.all()
    }

    /// All vertical lines that are stored, or out of memory. Condition: a clone of a value
    /// equals it.
    pub fn get_vertical_lines(&self) -> Result<HashMap<usize, VerticalLine<T>>, AllocError>
        requires equal_clones { (x y : T) → T.is_clone x y → y ≡ x }
        ensures { IfOk result (λ all. (n : ℕ) →
            map_get nat_eq all n ≡ value_at self.now.vertical_lines n) }
    {
        self.vertical_lines.all()
    }
}

impl<T: Clone> Clone for BorderTable<T> {
    // It is like its original where clones of the values are.
    ghost is_clone = { λ s t. ((x y : T) → T.is_clone x y → y ≡ x) → t ≡ s };

    fn clone(&self) -> Result<BorderTable<T>, AllocError> {
        let global = self.global.clone()?;
        let horizontal_lines = self.horizontal_lines.clone()?;
        let vertical_lines = self.vertical_lines.clone()?;
        let horizontal_edges = self.horizontal_edges.clone()?;
        let vertical_edges = self.vertical_edges.clone()?;
        let corners = self.corners.clone()?;
        // The frame is last: of its many parts none has to be let go where another clone fails.
        let frame = self.frame.clone()?;
        Ok(BorderTable {
            global,
            frame,
            horizontal_lines,
            vertical_lines,
            horizontal_edges,
            vertical_edges,
            corners,
        })
    }
}

impl<T: PartialEq> PartialEq for BorderTable<T> {
    ghost use Rattle.papergrid_tables.specs.ForProofs.BorderEq.{borders_eq, borders_eq_laws};

    ghost eq = { borders_eq T.eq };

    ghost laws = { borders_eq_laws T.eq T.laws };

    fn eq(&self, other: &BorderTable<T>) -> bool {
        let global = self.global == other.global;
        let frame = self.frame == other.frame;
        let horizontal_lines = self.horizontal_lines.values == other.horizontal_lines.values;
        let vertical_lines = self.vertical_lines.values == other.vertical_lines.values;
        let horizontal_edges = self.horizontal_edges.values == other.horizontal_edges.values;
        let vertical_edges = self.vertical_edges.values == other.vertical_edges.values;
        let corners = self.corners.values == other.corners.values;
        let edges = horizontal_edges & (vertical_edges & corners);
        global & (frame & (horizontal_lines & (vertical_lines & edges)))
    }
}
