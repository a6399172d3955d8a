//! A table that is built call by call.

use crate::cells::CellTexts;
use crate::drawn::drawn;
use crate::error::BuilderError;
use crate::found::{Found, cell_by, found_by, place_by};
use crate::rows::{add_cell, add_rows};
use papergrid_config::Setting;
use papergrid_json::{DocumentError, read_setting};
use papergrid_layout::{Place, Sizing};
use papergrid_values::{Direction, Position};
use std::alloc::Global;
use std::marker::Model;

/// A table that is built call by call: its settings, and the texts of its cells, row by row. It has as many columns as its longest row
/// has cells. It also keeps what was found of it, until a setting or a text is added, and the picture that was drawn last.
///
/// A call that is refused changes nothing.
pub struct Builder {
    settings: Vec<Setting>,
    cells: CellTexts,
    /// Where each row begins among the cells.
    starts: Vec<usize>,
    /// Whether the next cell is one more of the last row.
    goes_on: bool,
    found: Option<Found>,
    picture: Vec<u8>,
}

// By hand: docs/DECISIONS.md, "Drops".
impl Drop for Builder {
    fn drop(self) {
        let Builder {
            settings: _,
            cells: _,
            starts: _,
            goes_on: _,
            found: _,
            picture: _,
        } = self;
    }
}

impl Model for Builder {
    ghost use Rattle.papergrid_builder.specs.BuilderStates.{BuilderState};

    ghost Value = { BuilderState };

    ghost use Rattle.papergrid_config.specs.contracts.setting.Setting.{the_row as setting_row};
    ghost use Rattle.papergrid_config.specs.contracts.spanned.SpannedConfig.{the_row as config_row};
    ghost use Rattle.papergrid_builder.specs.ForProofs.Codes.{told_code};

    ghost coded = { told_code setting_row.coded config_row.coded };

    ghost use Rattle.papergrid_builder.specs.ForProofs.Kept.{IsKept, told_by};

    ghost view = { λ b. told_by b.settings.items b.cells b.starts.items b.goes_on b.found
        b.picture.items };

    ghost invariant = { λ b. IsKept b.settings.items b.cells b.starts.items b.found };
}

impl Builder {
    ghost use Rattle.std.specs.Prelude.{◌≡◌, ◌<◌, Err, IfErr, IfOk, IfSome, OnErr, OnOk, Some, false, option_and_then, option_map, true};
    ghost use Rattle.papergrid_config.specs.declared.setting.Setting.{Setting};
    ghost use Rattle.papergrid_draw.specs.Drawings.{Drawing};
    ghost use Rattle.papergrid_draw.specs.Lined.{lined};
    ghost use Rattle.papergrid_tracks.specs.declared.sizing.Sizing.{Sizing};
    ghost use Rattle.papergrid_builder.specs.Calls.{AreNoRows, GainsCell, GainsRows, GainsSetting, GainsSettingIn, IsNoCell, IsNoSetting, IsNotEnded, IsNotTold};
    ghost use Rattle.papergrid_builder.specs.Layouts.{IsCellAnswer, IsFoundTable, IsNoFoundTable, IsPlaceAnswer, certificate_along, sizes_along, totals_of};
    ghost use Rattle.papergrid_builder.specs.Pictures.{IsDrawingOf, IsNotDrawn};
    ghost use Rattle.papergrid_builder.specs.BuilderStates.{FoundTable, blank_table, with_row_end};
    ghost use Rattle.papergrid_builder.specs.declared.error.BuilderError.TheVariants.{BadSetting, Memory, NotAscii, NotText, OutOfRange};

    /// A table without settings and texts. It does not allocate.
    pub fn new(alloc: Global) -> Builder
        ensures { result ≡ blank_table }
    {
        Builder {
            settings: Vec::new(alloc),
            cells: CellTexts::new(alloc),
            starts: Vec::new(alloc),
            goes_on: false,
            found: None,
            picture: Vec::new(alloc),
        }
    }

    /// Tells one more setting, which is applied after those before it.
    ///
    /// # Errors
    ///
    /// `OutOfRange` exactly where the setting is not in range (`Setting::is_in_range`); else `Memory`.
    pub fn push_setting(&mut self, setting: Setting) -> Result<(), BuilderError>
        ensures ok { OnOk result (GainsSetting self.old self.new setting) }
        ensures refused { IfErr result (IsNotTold setting) }
        ensures err { OnErr result (self.new ≡ self.old) }
    {
        if !setting.is_in_range() {
            drop(setting);
            return Err(BuilderError::OutOfRange);
        }
        self.settings.push(setting)?;
        self.found = None;
        Ok(())
    }

    /// Tells one more setting, by a JSON list of its name and its values, as in the `settings` of a document.
    ///
    /// # Errors
    ///
    /// `BadSetting` where it is no JSON in UTF-8, has no name that is known, or has values that are not those of that name or not in
    /// range; `Memory`.
    pub fn read_setting(&mut self, alloc: Global, json: &[u8]) -> Result<(), BuilderError>
        ensures ok { OnOk result (GainsSettingIn json.now self.old self.new) }
        ensures refused { IfErr result (IsNoSetting json.now) }
        ensures err { OnErr result (self.new ≡ self.old) }
    {
        match read_setting(alloc, json) {
            Ok(setting) => self.push_setting(setting),
            Err(DocumentError::Memory) => Err(BuilderError::Memory),
            Err(_) => Err(BuilderError::BadSetting),
        }
    }

    /// Tells the text of one more cell of the last row. The first cell of all begins the first row.
    ///
    /// # Errors
    ///
    /// `NotText` exactly where the bytes are not UTF-8; else `Memory`.
    pub fn push_cell(&mut self, text: &[u8]) -> Result<(), BuilderError>
        ensures ok { OnOk result (GainsCell text.now self.old self.new) }
        ensures refused { IfErr result (IsNoCell text.now) }
        ensures err { OnErr result (self.new ≡ self.old) }
    {
        let Ok(text) = str::from_utf8(text) else {
            return Err(BuilderError::NotText);
        };
        add_cell(&mut self.cells, &mut self.starts, self.goes_on, text)?;
        self.goes_on = true;
        self.found = None;
        Ok(())
    }

    /// Ends the last row: the next cell begins a new one. Where it would anyway, there is one more row, without cells. So there are as
    /// many rows as calls of it, and one more where the last row goes on.
    ///
    /// # Errors
    ///
    /// `Memory`, and only for a row without cells.
    pub fn end_row(&mut self) -> Result<(), BuilderError>
        ensures ok { OnOk result (self.new ≡ with_row_end self.old) }
        ensures refused { IfErr result (IsNotEnded self.old) }
        ensures err { OnErr result (self.new ≡ self.old) }
    {
        if self.goes_on {
            self.goes_on = false;
            return Ok(());
        }
        self.starts.push(self.cells.len())?;
        self.found = None;
        Ok(())
    }

    /// Tells many rows at once: those that a text is cut into. Each byte `row_end` ends a row, and each byte `cell_end` stands between
    /// two cells of one. What stands behind the last `row_end` is a row too, unless it is empty. A row that goes on is ended before.
    ///
    /// Takes time that grows with the bytes, and no allocation for each cell.
    ///
    /// # Errors
    ///
    /// `NotAscii` exactly where one of the bytes that end cells and rows is not ASCII, else `NotText` exactly where the text is not UTF-8;
    /// else `Memory`.
    pub fn push_rows(&mut self, text: &[u8], cell_end: u8, row_end: u8) -> Result<(), BuilderError>
        ensures ok { OnOk result (GainsRows cell_end row_end text.now self.old self.new) }
        ensures refused { IfErr result (AreNoRows cell_end row_end text.now) }
        ensures err { OnErr result (self.new ≡ self.old) }
    {
        if !cell_end.is_ascii() || !row_end.is_ascii() {
            return Err(BuilderError::NotAscii);
        }
        let Ok(text) = str::from_utf8(text) else {
            return Err(BuilderError::NotText);
        };
        add_rows(&mut self.cells, &mut self.starts, text, cell_end, row_end)?;
        self.goes_on = false;
        self.found = None;
        Ok(())
    }

    /// Draws the table: its picture, each line with a line feed, is kept. It is empty where there are no rows or no columns.
    ///
    /// # Errors
    ///
    /// `OutOfTable` with the first visible cell that overflows the table, `NotTiled` with the first position that no visible cell
    /// covers, or that two do, and `TooLarge`; `Memory` in place of any answer. The picture that was kept stays.
    pub fn draw(&mut self, alloc: Global, sizing: Sizing) -> Result<(), BuilderError>
        ensures ok { OnOk result ((d : Drawing)
            × IsDrawingOf self.old.settings self.old.rows sizing d
            × (self.new ≡ record self.old { picture = lined d })) }
        ensures fault { IfErr result (IsNotDrawn self.old.settings self.old.rows sizing) }
        ensures err { OnErr result (self.new ≡ self.old) }
    {
        self.picture = drawn(alloc, &self.settings, &self.cells, &self.starts, sizing)?;
        Ok(())
    }

    /// The picture that was drawn last; empty where none was.
    pub fn picture(&self) -> &[u8]
        ensures { result.now ≡ self.now.picture }
    {
        self.picture.as_slice()
    }

    /// Finds the sizes of the table and the cells that certify them, and keeps these until a setting or a text is added. Answers the total
    /// width in columns of a terminal and the total height in lines, with all lines and without margins.
    ///
    /// # Errors
    ///
    /// `OutOfTable` with the first visible cell that overflows the table, and `TooLarge`; `Memory` in place of any answer. What was
    /// found before stays.
    pub fn estimate(
        &mut self,
        alloc: Global,
        sizing: Sizing,
    ) -> Result<(usize, usize), BuilderError>
        ensures ok { IfOk result (λ totals. (found : FoundTable)
            × IsFoundTable self.old.settings self.old.rows sizing found
            × (totals ≡ totals_of found)
            × (self.new ≡ record self.old { found = Some found })) }
        ensures fault { IfErr result (IsNoFoundTable self.old.settings self.old.rows sizing) }
        ensures err { OnErr result (self.new ≡ self.old) }
    {
        let found = found_by(alloc, &self.settings, &self.cells, &self.starts, sizing)?;
        let totals = (found.along.columns.total, found.along.rows.total);
        self.found = Some(found);
        Ok(totals)
    }

    /// The widths of the columns, in columns of a terminal, or the heights of the rows, in lines, that were found. None where none were
    /// found since the last setting or text was added.
    pub fn sizes(&self, direction: Direction) -> Option<&[usize]>
        ensures exact { option_map (λ sizes. sizes.now) result
            ≡ option_map (sizes_along direction) self.now.found }
        ensures current { IfSome self.now.found (λ found. (sizing : Sizing)
            × IsFoundTable self.now.settings self.now.rows sizing found) }
    {
        let found = self.found.as_ref()?;
        Some(match direction {
            Direction::Columns => found.along.columns.sizes.as_slice(),
            Direction::Rows => found.along.rows.sizes.as_slice(),
        })
    }

    /// The positions of the cells that certify that no widths with room for each visible cell, or no heights, have a smaller total: visible
    /// cells of disjoint ranges, whose minimum sizes less the lines inside of them add up to the sizes that were found. None where no
    /// sizes were found since the last setting or text was added, and where they are by shares and two longer ranges are neither nested
    /// nor disjoint.
    pub fn certificate(&self, direction: Direction) -> Option<&[Position]>
        ensures exact { option_map (λ places. places.now) result
            ≡ option_and_then (certificate_along direction) self.now.found }
        ensures current { IfSome self.now.found (λ found. (sizing : Sizing)
            × IsFoundTable self.now.settings self.now.rows sizing found) }
    {
        let along = &self.found.as_ref()?.along;
        let places = match direction {
            Direction::Columns => along.columns.certificate.as_ref()?,
            Direction::Rows => along.rows.certificate.as_ref()?,
        };
        Some(places.as_slice())
    }

    /// The screen rectangle of the cell at a position, by the sizes that were found.
    ///
    /// Each call copies the sizes, and finds again where the columns and rows begin: it takes time that grows with the columns, the rows
    /// and the spans.
    ///
    /// # Errors
    ///
    /// `NotEstimated` where no sizes were found since the last setting or text was added; else `Hidden` where the position is hidden,
    /// `OutOfTable` with it where its range ends past the last column or the last row; `Memory` in place of these answers.
    pub fn place(&self, alloc: Global, position: Position) -> Result<Place, BuilderError>
        ensures exact { IsPlaceAnswer self.now.found position result }
        ensures current { IfSome self.now.found (λ found. (sizing : Sizing)
            × IsFoundTable self.now.settings self.now.rows sizing found) }
    {
        match &self.found {
            Some(found) => place_by(alloc, found, position),
            None => Err(BuilderError::NotEstimated),
        }
    }

    /// The position of the cell at a column of the terminal in a line, both counted from the left edge and the top of the table: that of
    /// the first cell, by row and then by column, whose screen rectangle covers the point, by the sizes that were found.
    ///
    /// Takes time as `place` does.
    ///
    /// # Errors
    ///
    /// `NotEstimated` where no sizes were found since the last setting or text was added; `Memory` in place of any other answer.
    pub fn cell_at(
        &self,
        alloc: Global,
        column: usize,
        line: usize,
    ) -> Result<Option<Position>, BuilderError>
        ensures exact { IsCellAnswer self.now.found column line result }
        ensures current { IfSome self.now.found (λ found. (sizing : Sizing)
            × IsFoundTable self.now.settings self.now.rows sizing found) }
    {
        match &self.found {
            Some(found) => cell_by(alloc, found, column, line),
            None => Err(BuilderError::NotEstimated),
        }
    }
}
