//! The characters and the colours of lines: the frame, the defaults, lines, and the borders of
//! cells. Source: `config/spanned/mod.rs`.

ghost use Rattle.std.specs.Prelude.{◌≡◌, map, ◌+◌, ◌<◌, ◌^◌, nat_eq, OnOk, OnErr, IfOk, option_copied};
ghost use Rattle.std.specs.FinMap.{get as value_at};
ghost use Rattle.papergrid_values.specs.Borders.{border_parts};
ghost use Rattle.papergrid_tables.specs.StoredBorders.{parts_of_borders};
ghost use Rattle.papergrid_tables.specs.BorderParts.{found_border};
ghost use Rattle.papergrid_maps.specs.Listed.{HasAtEach};
ghost use Rattle.papergrid_config.specs.History.{AddsSetting};
ghost use Rattle.papergrid_config.specs.declared.setting.Setting.TheVariants.{SetBorders, SetBordersColor, SetBorderDefault, SetBorderColorDefault, RemoveBorders, RemoveBordersColors, SetBorder, SetBorderColor, RemoveBorder, RemoveBorderColor, InsertHorizontalLine, InsertVerticalLine, RemoveHorizontalLine, RemoveVerticalLine};

use crate::spanned::SpannedConfig;
use papergrid_tables::BorderTable;
use papergrid_values::{ANSIBuf, Border, Borders, HorizontalLine, Position, VerticalLine};
use std::alloc::AllocError;
use std::collections::HashMap;
use std::mem;

impl SpannedConfig {
    /// Sets the characters of the frame.
    pub fn set_borders(&mut self, borders: Borders<char>)
        ensures told { AddsSetting self.old self.new (SetBorders borders) }
        ensures others { self.new ≡ record self.old { characters = self.new.characters } }
    {
        self.characters.set_borders(borders);
    }

    /// The characters of the frame.
    pub fn get_borders(&self) -> &Borders<char>
        ensures { result.now ≡ self.now.characters.frame }
    {
        self.characters.get_borders()
    }

    /// Sets the colours of the frame.
    pub fn set_borders_color(&mut self, colors: Borders<ANSIBuf>)
        ensures told { AddsSetting self.old self.new (SetBordersColor colors) }
        ensures others { self.new ≡ record self.old { colors = self.new.colors } }
    {
        self.colors.set_borders(colors);
    }

    /// The colours of the frame.
    pub fn get_color_borders(&self) -> &Borders<ANSIBuf>
        ensures { result.now ≡ self.now.colors.frame }
    {
        self.colors.get_borders()
    }

    /// Sets the character of all lines.
    pub fn set_border_default(&mut self, character: char)
        ensures told { AddsSetting self.old self.new (SetBorderDefault character) }
        ensures others { self.new ≡ record self.old { characters = self.new.characters } }
    {
        self.characters.set_global(character);
    }

    /// The character of all lines.
    pub fn get_border_default(&self) -> Option<&char>
        ensures { option_copied result ≡ self.now.characters.global }
    {
        self.characters.get_global()
    }

    /// Sets the colour of all lines, and drops all other colours of lines.
    pub fn set_border_color_default(&mut self, color: ANSIBuf)
        ensures told { AddsSetting self.old self.new (SetBorderColorDefault color) }
        ensures others { self.new ≡ record self.old { colors = self.new.colors } }
    {
        self.remove_borders_colors();
        self.colors.set_global(color);
    }

    /// The colour of all lines.
    pub fn get_border_color_default(&self) -> Option<&ANSIBuf>
        ensures { option_copied result ≡ self.now.colors.global }
    {
        self.colors.get_global()
    }

    /// Drops all characters of lines, and keeps the missing character.
    pub fn remove_borders(&mut self)
        ensures told { AddsSetting self.old self.new RemoveBorders }
        ensures others { self.new ≡ record self.old { characters = self.new.characters } }
    {
        self.characters = BorderTable::new(self.alloc);
    }

    /// Drops all colours of lines.
    pub fn remove_borders_colors(&mut self)
        ensures told { AddsSetting self.old self.new RemoveBordersColors }
        ensures others { self.new ≡ record self.old { colors = self.new.colors } }
    {
        // By `drop`, since an assignment's drop of the old table is proved field by field.
        drop(mem::replace(&mut self.colors, BorderTable::new(self.alloc)));
    }

    /// Sets the characters round a cell that are set here, and leaves the others. Where an
    /// allocation fails the configuration is as it was. Condition: the next row and column exist in
    /// `usize`.
    pub fn set_border(&mut self, position: Position, border: Border<char>) -> Result<(), AllocError>
        requires row { position.row + 1 < 2 ^ 64 }
        requires col { position.col + 1 < 2 ^ 64 }
        ensures ok { OnOk result (AddsSetting self.old self.new (SetBorder position border)) }
        ensures err { OnErr result (self.new ≡ self.old) }
        ensures others { self.new ≡ record self.old { characters = self.new.characters } }
    {
        self.characters.insert_border(position, border)
    }

    /// Sets the colours round a cell that are set here, and leaves the others. Where an allocation
    /// fails the configuration is as it was. Condition: the next row and column exist in `usize`.
    pub fn set_border_color(
        &mut self,
        position: Position,
        border: Border<ANSIBuf>,
    ) -> Result<(), AllocError>
        requires row { position.row + 1 < 2 ^ 64 }
        requires col { position.col + 1 < 2 ^ 64 }
        ensures ok { OnOk result (AddsSetting self.old self.new (SetBorderColor position border)) }
        ensures err { OnErr result (self.new ≡ self.old) }
        ensures others { self.new ≡ record self.old { colors = self.new.colors } }
    {
        self.colors.insert_border(position, border)
    }

    /// The characters found round a cell, in a table of so many rows and columns. The missing
    /// character is not among them. Condition: the next row and column exist in `usize`.
    pub fn get_border(&self, position: Position, shape: (usize, usize)) -> Border<char>
        requires row { position.row + 1 < 2 ^ 64 }
        requires col { position.col + 1 < 2 ^ 64 }
        ensures { result
            ≡ found_border (parts_of_borders self.now.characters) position shape.0 shape.1 }
    {
        self.characters.get_border(position, shape).copied()
    }

    /// The colours found round a cell, in a table of so many rows and columns. Condition: the next
    /// row and column exist in `usize`.
    pub fn get_border_color(&self, position: Position, shape: (usize, usize)) -> Border<&ANSIBuf>
        requires row { position.row + 1 < 2 ^ 64 }
        requires col { position.col + 1 < 2 ^ 64 }
        ensures { map option_copied (border_parts result)
            ≡ border_parts (found_border (parts_of_borders self.now.colors)
            position shape.0 shape.1) }
    {
        self.colors.get_border(position, shape)
    }

    /// Removes the characters round a cell: of the edges and corners, not of lines, the frame or
    /// all lines. The shape (rows, columns) decides nothing. Condition: the next row and column exist
    /// in `usize`.
    pub fn remove_border(&mut self, position: Position, shape: (usize, usize))
        requires row { position.row + 1 < 2 ^ 64 }
        requires col { position.col + 1 < 2 ^ 64 }
        ensures told { AddsSetting self.old self.new (RemoveBorder position shape) }
        ensures others { self.new ≡ record self.old { characters = self.new.characters } }
    {
        self.characters.remove_border(position, shape);
    }

    /// Removes the colours round a cell: of the edges and corners, not of lines, the frame or all
    /// lines. The shape (rows, columns) decides nothing. Condition: the next row and column exist in
    /// `usize`.
    pub fn remove_border_color(&mut self, position: Position, shape: (usize, usize))
        requires row { position.row + 1 < 2 ^ 64 }
        requires col { position.col + 1 < 2 ^ 64 }
        ensures told { AddsSetting self.old self.new (RemoveBorderColor position shape) }
        ensures others { self.new ≡ record self.old { colors = self.new.colors } }
    {
        self.colors.remove_border(position, shape);
    }

    /// Sets the horizontal line above a row, in place of the one stored. Where an allocation fails
    /// the configuration is as it was.
    pub fn insert_horizontal_line(
        &mut self,
        row: usize,
        line: HorizontalLine<char>,
    ) -> Result<(), AllocError>
        ensures ok { OnOk result (AddsSetting self.old self.new (InsertHorizontalLine row line)) }
        ensures err { OnErr result (self.new ≡ self.old) }
        ensures others { self.new ≡ record self.old { characters = self.new.characters } }
    {
        self.characters.insert_horizontal_line(row, line)
    }

    /// Sets the vertical line left of a column, in place of the one stored. Where an allocation
    /// fails the configuration is as it was.
    pub fn insert_vertical_line(
        &mut self,
        col: usize,
        line: VerticalLine<char>,
    ) -> Result<(), AllocError>
        ensures ok { OnOk result (AddsSetting self.old self.new (InsertVerticalLine col line)) }
        ensures err { OnErr result (self.new ≡ self.old) }
        ensures others { self.new ≡ record self.old { characters = self.new.characters } }
    {
        self.characters.insert_vertical_line(col, line)
    }

    /// Removes the horizontal line above a row. The count of rows decides nothing.
    pub fn remove_horizontal_line(&mut self, row: usize, count: usize)
        ensures told { AddsSetting self.old self.new (RemoveHorizontalLine row count) }
        ensures others { self.new ≡ record self.old { characters = self.new.characters } }
    {
        self.characters.remove_horizontal_line(row, count);
    }

    /// Removes the vertical line left of a column. The count of columns decides nothing.
    pub fn remove_vertical_line(&mut self, col: usize, count: usize)
        ensures told { AddsSetting self.old self.new (RemoveVerticalLine col count) }
        ensures others { self.new ≡ record self.old { characters = self.new.characters } }
    {
        self.characters.remove_vertical_line(col, count);
    }

    /// The horizontal line stored above a row.
    pub fn get_horizontal_line(&self, row: usize) -> Option<&HorizontalLine<char>>
        ensures { option_copied result ≡ value_at self.now.characters.horizontal_lines row }
    {
        self.characters.get_horizontal_line(row)
    }

    /// The vertical line stored left of a column.
    pub fn get_vertical_line(&self, col: usize) -> Option<&VerticalLine<char>>
        ensures { option_copied result ≡ value_at self.now.characters.vertical_lines col }
    {
        self.characters.get_vertical_line(col)
    }

    /// All horizontal lines that are stored, by row, or out of memory.
    pub fn get_horizontal_lines(&self) -> Result<HashMap<usize, HorizontalLine<char>>, AllocError>
        ensures { IfOk result (λ all.
            HasAtEach nat_eq all (value_at self.now.characters.horizontal_lines)) }
    {
        self.characters.get_horizontal_lines()
    }

    /// All vertical lines that are stored, by column, or out of memory.
    pub fn get_vertical_lines(&self) -> Result<HashMap<usize, VerticalLine<char>>, AllocError>
        ensures { IfOk result (λ all.
            HasAtEach nat_eq all (value_at self.now.characters.vertical_lines)) }
    {
        self.characters.get_vertical_lines()
    }
}
