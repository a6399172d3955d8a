//! Where the tracks of a table begin and end.

ghost use Rattle.std.specs.Prelude.{◌≡◌, ◌+◌, ◌≤◌, ◌<◌, ℕ, Bool, MatchOption, length, nat_le, slice_index_or};
ghost use Rattle.std.specs.Option.{SomeIff};
ghost use Rattle.papergrid_walk.specs.ForProofs.Shown.{anchor_in};
ghost use Rattle.papergrid_layout.specs.Places.{IsTrackAt, TableView, extent, offset, place_at, total};
ghost use Rattle.papergrid_layout.specs.ForProofs.Placing.{AreMarked, AreMarks};

use crate::rect::Place;
use papergrid_maps::Anchor;
use papergrid_values::PerDirection;

/// Where each track begins and where it ends.
pub struct Marks {
    pub begins: Vec<usize>,
    pub ends: Vec<usize>,
}

// By hand: docs/DECISIONS.md, "Drops".
impl Drop for Marks {
    fn drop(self) {
        let Marks { begins: _, ends: _ } = self;
    }
}

impl Marks {
    /// Where a range of so many tracks from one on begins and how long it is, if it does not end
    /// past the last.
    pub fn part(&self, start: usize, span: usize) -> Option<(usize, usize)>
        requires positive { 1 ≤ span }
        requires marks { (size : ℕ → ℕ) × (line : ℕ → Bool) × (count : ℕ)
            × AreMarks size line count self.now }
        ensures { (size : ℕ → ℕ) (line : ℕ → Bool) (count : ℕ) → AreMarks size line count self.now →
            SomeIff result (start + span ≤ count)
            (offset size line start, extent size line start span) }
    {
        let last = start.checked_add(span - 1)?;
        if last >= self.ends.len() {
            return None;
        }
        let begin = self.begins[start];
        Some((begin, self.ends[last] - begin))
    }

    /// The last track that begins at a point of the table or before it. None on the line before the
    /// first one. It is looked for by binary search.
    pub fn track_before(&self, point: usize) -> Option<usize>
        requires marks { (size : ℕ → ℕ) × (line : ℕ → Bool) × (count : ℕ)
            × AreMarks size line count self.now }
        ensures { (size : ℕ → ℕ) (line : ℕ → Bool) (count : ℕ) → AreMarks size line count self.now →
            point < total size line count → MatchOption result (point < offset size line 0)
            (λ i. (i < count) × (offset size line i ≤ point) × (point < offset size line (i + 1))) }
    {
        let next = self.begins.partition_point(
            |begin: &usize| -> bool
                ensures { result ≡ nat_le begin.now point }
            { *begin <= point },
        );
        next.checked_sub(1)
    }

    /// Where a track begins, or, at their count, the total.
    pub fn begin(&self, index: usize, total: usize) -> usize
        requires { index ≤ length self.now.begins.items }
        ensures { result ≡ slice_index_or self.now.begins.items index total }
    {
        if index < self.begins.len() {
            self.begins[index]
        } else {
            total
        }
    }

    /// The track that covers a point of the table. None on a line, and past the last one.
    pub fn track_at(&self, point: usize) -> Option<usize>
        requires marks { (size : ℕ → ℕ) × (line : ℕ → Bool) × (count : ℕ)
            × AreMarks size line count self.now × (point < total size line count) }
        ensures { (size : ℕ → ℕ) (line : ℕ → Bool) (count : ℕ) → AreMarks size line count self.now →
            point < total size line count → IsTrackAt size line count point result }
    {
        let track = self.track_before(point)?;
        (point < self.ends[track]).then_some(track)
    }
}

/// The screen rectangle of a visible position with its spans, if it lies in the table.
pub fn place_of(marks: &PerDirection<Marks>, anchor: Anchor) -> Option<Place>
    requires spans { (1 ≤ anchor.cols) × (1 ≤ anchor.rows) }
    requires marked { (table : TableView) × AreMarked table marks.now.columns marks.now.rows }
    ensures { (table : TableView) → AreMarked table marks.now.columns marks.now.rows →
        anchor ≡ anchor_in table.grid anchor.position →
        SomeIff result ((anchor.position.col + anchor.cols ≤ table.shape.1)
        × (anchor.position.row + anchor.rows ≤ table.shape.0)) (place_at table anchor.position) }
{
    let (left, width) = marks.columns.part(anchor.position.col, anchor.cols)?;
    let (top, height) = marks.rows.part(anchor.position.row, anchor.rows)?;
    Some(Place {
        left,
        top,
        width,
        height,
    })
}
