//! The sizes and the lines of a table along one direction, and where its tracks begin.

ghost use Rattle.std.specs.Prelude.{◌≡◌, ◌+◌, ◌<◌, ◌≤◌, ◌^◌, ◌⊎◌, IfOk, MatchOption, cond, nat_lt};
ghost use Rattle.std.specs.Option.{SomeIff};
ghost use Rattle.papergrid_values.specs.Positions.{along};
ghost use Rattle.papergrid_layout.specs.Places.{extent, offset, total};
ghost use Rattle.papergrid_layout.specs.Tables.{HasSizes};
ghost use Rattle.papergrid_layout.specs.ForProofs.Placing.{AreMarks};

use crate::dimension::Dimension;
use crate::marks::Marks;
use papergrid_maps::ConfigView;
use papergrid_values::{Direction, Position};
use std::alloc::{AllocError, Global};

/// The sizes of a dimension, and the spans and the lines of settings, along a direction in which
/// the table has so many tracks.
#[derive(Drop)]
pub struct Ruler<'a, D, S> {
    pub dimension: &'a D,
    pub settings: &'a S,
    pub direction: Direction,
    pub count: usize,
}

impl<'a, D: Dimension, S: ConfigView> Ruler<'a, D, S> {
    ghost use Rattle.papergrid_layout.specs.ForProofs.Rulers.{HasTracks, has_track, ruler_line, ruler_size, ruler_total};

    /// The width of a column, or the height of a row.
    fn size(&self, i: usize) -> usize
        requires { has_track D.has_column D.has_row self.now i }
        ensures { result ≡ ruler_size D.width_of D.height_of self.now i }
    {
        match self.direction {
            Direction::Columns => self.dimension.get_width(i),
            Direction::Rows => self.dimension.get_height(i),
        }
    }

    /// What the line at `i` takes: 1 where it is drawn.
    fn line(&self, i: usize) -> usize
        ensures { result ≡ cond (ruler_line S.grid self.now i) 1 0 }
    {
        if self.settings.has_line(self.direction, self.count, i) {
            1
        } else {
            0
        }
    }

    /// Where track `end` begins, if that fits, from where an earlier one begins.
    fn offset_from(&self, start: usize, from: usize, end: usize) -> Option<usize>
        requires order { start ≤ end }
        requires sizes { HasSizes (has_track D.has_column D.has_row self.now) end }
        requires from { let size = ruler_size D.width_of D.height_of self.now in
            let line = ruler_line S.grid self.now in
            from ≡ offset size line start }
        ensures { let size = ruler_size D.width_of D.height_of self.now in
            let line = ruler_line S.grid self.now in
            let found = offset size line end in
            SomeIff result (found < 2 ^ 64) found }
    {
        let mut offset = from;
        for i in start..end {
            offset = offset.checked_add(self.size(i))?;
            offset = offset.checked_add(self.line(i + 1))?;
        }
        Some(offset)
    }

    /// Whether the range of the cell at a position ends past the last track.
    pub fn overflows(&self, position: Position) -> bool
        ensures { let span = (S.grid self.now.settings.now).span self.now.direction position in
            result ≡ nat_lt self.now.count (along self.now.direction position + span) }
    {
        let start = self.direction.number_of(position);
        let span = self.settings.span(self.direction, position);
        self.count < start || self.count - start < span
    }

    /// Where the cell at a position begins and how long it is, if the total of all sizes and lines fits.
    pub fn part(&self, position: Position) -> Option<(usize, usize)>
        requires inside { let grid = S.grid self.now.settings.now in
            let span = grid.span self.now.direction position in
            along self.now.direction position + span ≤ self.now.count }
        requires sizes { HasTracks D.has_column D.has_row self.now }
        ensures { let size = ruler_size D.width_of D.height_of self.now in
            let line = ruler_line S.grid self.now in
            let start = along self.now.direction position in
            let span = (S.grid self.now.settings.now).span self.now.direction position in
            SomeIff result (total size line self.now.count < 2 ^ 64)
            (offset size line start, extent size line start span) }
    {
        let count = self.count;
        let start = self.direction.number_of(position);
        let end = start + self.settings.span(self.direction, position);
        let offset = self.offset_from(0, self.line(0), start)?;
        let next = self.offset_from(start, offset, end)?;
        let _total = self.offset_from(end, next, count)?;
        Some((offset, next - self.line(end) - offset))
    }

    /// The total of all sizes and lines, if it fits.
    pub fn total(&self) -> Option<usize>
        requires { HasTracks D.has_column D.has_row self.now }
        ensures { let found = ruler_total D.width_of D.height_of S.grid self.now in
            SomeIff result (found < 2 ^ 64) found }
    {
        self.offset_from(0, self.line(0), self.count)
    }

    /// Where each track begins and ends, where the total fits.
    pub fn marks(&self, alloc: Global) -> Result<Marks, AllocError>
        requires sizes { HasTracks D.has_column D.has_row self.now }
        requires fits { ruler_total D.width_of D.height_of S.grid self.now < 2 ^ 64 }
        ensures { let size = ruler_size D.width_of D.height_of self.now in
            let line = ruler_line S.grid self.now in
            IfOk result (AreMarks size line self.now.count) }
    {
        let mut begins = Vec::new(alloc);
        let mut ends = Vec::new(alloc);
        let mut begin = self.line(0);
        for i in 0..self.count {
            let end = begin + self.size(i);
            begins.push(begin)?;
            ends.push(end)?;
            begin = end + self.line(i + 1);
        }
        Ok(Marks { begins, ends })
    }

    /// The track from whose begin to that of the next one a point lies, where the total fits. None
    /// where it lies before the first begin or not before the end of the table.
    pub fn number_at(&self, point: usize) -> Option<usize>
        requires sizes { HasTracks D.has_column D.has_row self.now }
        requires fits { ruler_total D.width_of D.height_of S.grid self.now < 2 ^ 64 }
        ensures { let size = ruler_size D.width_of D.height_of self.now in
            let line = ruler_line S.grid self.now in
            MatchOption result ((point < offset size line 0)
            ⊎ (offset size line self.now.count ≤ point))
            (λ i. (i < self.now.count) × (offset size line i ≤ point)
            × (point < offset size line (i + 1))) }
    {
        let mut begin = self.line(0);
        if point < begin {
            return None;
        }
        for i in 0..self.count {
            begin += self.size(i) + self.line(i + 1);
            if point < begin {
                return Some(i);
            }
        }
        None
    }
}
