//! Laws of the picture, each the contract of a function that does nothing.

ghost use Rattle.std.specs.Prelude.{◌++◌, ◌+◌, ◌-◌, ◌<◌, ◌==◌, ◌∷◌, ◌≡◌, ◌≢◌, ◌≤◌, ◌⊎◌, [], All, Contains, IsUtf8, List, None, Some, false, length, map, slice_get, slice_index, slice_index_or, true, ℕ};
ghost use Rattle.std.specs.List.{join_with_byte, list_all, slice_split};
ghost use Rattle.papergrid_values.specs.Positions.{position_of};
ghost use Rattle.papergrid_values.specs.declared.direction.Direction.TheVariants.{Columns, Rows};
ghost use Rattle.papergrid_values.specs.declared.indent.Indent.{Indent};
ghost use Rattle.papergrid_values.specs.declared.offset.Offset.{Offset};
ghost use Rattle.papergrid_values.specs.declared.position.Position.{Position};
ghost use Rattle.papergrid_config.specs.ConfigSame.{HoldTheSameSettings};
ghost use Rattle.papergrid_config.specs.Grids.{spanned_grid};
ghost use Rattle.papergrid_config.specs.History.{HasSettingHistory};
ghost use Rattle.papergrid_config.specs.declared.setting.Setting.{Setting};
ghost use Rattle.papergrid_config.specs.declared.spanned.SpannedConfig.{SpannedConfig};
ghost use Rattle.papergrid_text.specs.Text.{width_of};
ghost use Rattle.papergrid_tracks.specs.Fits.{Fits};
ghost use Rattle.papergrid_walk.specs.Cells.{problem_of};
ghost use Rattle.papergrid_walk.specs.Measures.{line_measure};
ghost use Rattle.papergrid_layout.specs.Laws.{IsCellAt};
ghost use Rattle.papergrid_layout.specs.Places.{IsVisibleCell, begin_along, length_along, line_offset, offset, total_along, track_line, track_size};
ghost use Rattle.papergrid_draw.specs.Bytes.{line_bytes};
ghost use Rattle.papergrid_draw.specs.Characters.{crossing, segment, vertical};
ghost use Rattle.papergrid_draw.specs.Colored.{AreAlikeButColors, AreInBlocks, inks_of, uncolored};
ghost use Rattle.papergrid_draw.specs.Contents.{Block, above, before, block_at, content, shown, shown_line};
ghost use Rattle.papergrid_draw.specs.Crossings.{FitCrossings, IsFitFault};
ghost use Rattle.papergrid_draw.specs.Drawings.{Drawing, layout_of};
ghost use Rattle.papergrid_draw.specs.Drawn.{DrawnLine, drawn_lines, draws_horizontal, draws_vertical, owner_at, stands_over, stands_over_crossing};
ghost use Rattle.papergrid_draw.specs.Faults.{AllHaveRoom, IsDrawFault, IsDrawable, whole_height};
ghost use Rattle.papergrid_draw.specs.Laws.{AreDrawnAt, AreLinesAt, AreMeasuredAt, terminal_columns, pieces_of, text_piece};
ghost use Rattle.papergrid_draw.specs.Lined.{lined};
ghost use Rattle.papergrid_draw.specs.Margins.{margin_line, printed, printed_lines, whole_width, with_margins};
ghost use Rattle.papergrid_draw.specs.Pieces.{fill_text};
ghost use Rattle.papergrid_draw.specs.Pictures.{IsDrawingBy, IsPictureFault};
ghost use Rattle.papergrid_draw.specs.Separated.{AreApart, HasSeparators, IsHonest, setting_separates, pieces_text};
ghost use Rattle.papergrid_draw.specs.Sources.{IsOfCell, IsOfTable};
ghost use Rattle.papergrid_draw.specs.Sinks.{IsRefusal};
ghost use Rattle.papergrid_draw.specs.Tiles.{IsTiled};
ghost use Rattle.papergrid_draw.specs.declared.crossings.Junctions.{Junctions};
ghost use Rattle.papergrid_draw.specs.declared.error.DrawError.{DrawError};
ghost use Rattle.papergrid_draw.specs.declared.room.Room.{Room};
ghost use Rattle.papergrid_tracks.specs.declared.sizing.Sizing.{Sizing};

use crate::crossings::Junctions;
use crate::room::Room;
use papergrid_config::laws::{equal_by_history, equal_configurations};

/// A picture has as many lines as its table is high, with both margins, and a line feed between two. That of a table
/// without rows or columns is empty.
pub fn lines_of_pictures()
    ensures count { (d : Drawing) → length (drawn_lines d) ≡ total_along (layout_of d) Rows }
    ensures whole_count { (d : Drawing) → length (printed_lines d) ≡ whole_height d }
    ensures none { (d : Drawing) → (d.shape.0 ≡ 0) ⊎ (d.shape.1 ≡ 0) → printed d ≡ [] }
    ensures joined { (d : Drawing) → d.shape.0 ≢ 0 → d.shape.1 ≢ 0 →
        printed d ≡ join_with_byte 10 (printed_lines d) }
    ensures cut { (d : Drawing) → d.shape.0 ≢ 0 → d.shape.1 ≢ 0 → whole_height d ≢ 0 →
        All (λ line. Contains line 10 → ⊥) (printed_lines d) →
        slice_split (λ byte. byte == 10) (printed d) ≡ printed_lines d }
{}

/// Of a tiled table in which each text has room, the pieces of each line take exactly the columns of the table.
pub fn columns_of_lines()
    ensures { (d : Drawing) → IsTiled (layout_of d) → AllHaveRoom d →
        All (λ line. terminal_columns (pieces_of line) ≡ total_along (layout_of d) Columns)
        (drawn_lines d) }
{}

/// The text of each line, without colours, is as wide as the table, as `unicode_width` counts it, where the lines of
/// cells are as wide as is said and separators stand between them.
pub fn lines_as_wide()
    ensures { (d : Drawing) → IsTiled (layout_of d) → AllHaveRoom d →
        IsHonest d → HasSeparators d → AreApart d →
        All (λ line. width_of (pieces_text (pieces_of line)) ≡ total_along (layout_of d) Columns)
        (drawn_lines d) }
{}

/// Lines are as wide as is said where each cell is drawn by the lines of its text, which is UTF-8.
pub fn honest_texts<C>()
    ensures { (d : Drawing) (text : C → List ℕ) (rows : List (List C)) →
        ((p : Position) → IsVisibleCell (layout_of d) p →
        AreLinesAt text rows p (d.lines p)) →
        ((p : Position) (cell : C) → IsCellAt rows p cell → IsUtf8 (text cell)) → IsHonest d }
{}

/// All characters but those of texts are separators where settings set no others, but for margins.
pub fn settings_with_separators()
    ensures { (d : Drawing) (settings : List Setting) → HasSettingHistory settings d.config →
        list_all setting_separates settings ≡ true → HasSeparators d }
{}

/// Each visible cell stands in its screen rectangle: line k of its content in line k of that, from its first column
/// on, and that content is as wide as the rectangle.
pub fn cells_in_place()
    ensures drawn { (d : Drawing) → IsTiled (layout_of d) → AllHaveRoom d →
        (p : Position) → IsVisibleCell (layout_of d) p →
        (k : ℕ) → k < length_along (layout_of d) Rows p →
        AreDrawnAt d (begin_along (layout_of d) Columns p) (begin_along (layout_of d) Rows p + k)
        (content (block_at d p) k) }
    ensures width { (d : Drawing) → AllHaveRoom d →
        (p : Position) → IsVisibleCell (layout_of d) p → (k : ℕ) →
        terminal_columns (content (block_at d p) k) ≡ length_along (layout_of d) Columns p }
{}

/// Each line of the table stands where no cell is: a vertical line in each line of a row, but inside of a cell that
/// spans columns; a horizontal line over each column, but inside of one that spans rows; a crossing where both
/// are, but inside of one that spans both.
pub fn lines_in_place()
    ensures vertical { (d : Drawing) → IsTiled (layout_of d) → AllHaveRoom d → (r j k : ℕ) →
        r < d.shape.0 → k < d.heights r → j ≤ d.shape.1 → draws_vertical d j ≡ true →
        (0 < j → j < d.shape.1 → owner_at d r (j - 1) ≢ owner_at d r j) →
        AreDrawnAt d
        (line_offset (track_size (layout_of d) Columns) (track_line (layout_of d) Columns) j)
        (offset (track_size (layout_of d) Rows) (track_line (layout_of d) Rows) r + k)
        (vertical d.config d.shape (position_of (r, j)) (d.heights r) k ∷ []) }
    ensures horizontal { (d : Drawing) → IsTiled (layout_of d) → AllHaveRoom d → (i c : ℕ) →
        i ≤ d.shape.0 → c < d.shape.1 → draws_horizontal d i ≡ true → stands_over d i c ≡ false →
        AreDrawnAt d
        (offset (track_size (layout_of d) Columns) (track_line (layout_of d) Columns) c)
        (line_offset (track_size (layout_of d) Rows) (track_line (layout_of d) Rows) i)
        (map (λ mark. mark.piece) (segment d.config d.shape (position_of (i, c)) (d.widths c))) }
    ensures crossing { (d : Drawing) → IsTiled (layout_of d) → AllHaveRoom d → (i j : ℕ) →
        i ≤ d.shape.0 → j ≤ d.shape.1 → draws_horizontal d i ≡ true → draws_vertical d j ≡ true →
        stands_over_crossing d i j ≡ false →
        AreDrawnAt d
        (line_offset (track_size (layout_of d) Columns) (track_line (layout_of d) Columns) j)
        (line_offset (track_size (layout_of d) Rows) (track_line (layout_of d) Rows) i)
        ((crossing d.config d.shape (position_of (i, j))).piece ∷ []) }
{}

/// Each line of a visible cell's text that is shown stands whole in the cell's screen rectangle, where its alignment
/// puts it, between the paddings, if the rectangle is high enough for the padding above and the lines that are shown.
pub fn texts_in_place()
    ensures drawn { (d : Drawing) → IsTiled (layout_of d) → AllHaveRoom d →
        (p : Position) → IsVisibleCell (layout_of d) p → let b = block_at d p in
        b.look.padding.top.size + length (shown b) ≤ b.height →
        (i : ℕ) → i < length (shown b) →
        let line = shown_line b.look.formatting.horizontal_trim
        (slice_index_or (shown b) i ([], 0)) in
        AreDrawnAt d
        (begin_along (layout_of d) Columns p + (b.look.padding.left.size + before b line))
        (begin_along (layout_of d) Rows p + (above b + i))
        (text_piece b line ∷ []) }
    ensures within { (d : Drawing) → AllHaveRoom d →
        (p : Position) → IsVisibleCell (layout_of d) p → let b = block_at d p in
        b.look.padding.top.size + length (shown b) ≤ b.height →
        (i : ℕ) → i < length (shown b) →
        let line = shown_line b.look.formatting.horizontal_trim
        (slice_index_or (shown b) i ([], 0)) in
        ((b.look.padding.left.size + before b line) + line.1 + b.look.padding.right.size ≤ b.width)
        × (above b + i < b.height) }
{}

/// What is in a hidden cell can't be seen: pictures that differ in texts and colours of hidden cells alone are the same.
pub fn hidden_cells_unseen()
    ensures { (d e : Drawing) → d.config ≡ e.config → d.shape ≡ e.shape →
        d.widths ≡ e.widths → d.heights ≡ e.heights →
        ((p : Position) → IsVisibleCell (layout_of d) p →
        (d.lines p ≡ e.lines p) × (d.color p ≡ e.color p)) →
        printed d ≡ printed e }
{}

/// A drawing leaves room for each visible cell where its widths have room for what the cells ask for along columns, as
/// those of an estimate do, and it draws none wider than it was measured: so it is where each is drawn and measured by
/// the lines of its text.
pub fn estimates_leave_room<C>()
    ensures measured { (d : Drawing) (measure : C → ℕ × ℕ)
        (rows : List (List C)) (widths : List ℕ) → d.widths ≡ slice_index widths →
        Fits (problem_of (spanned_grid d.config) measure d.shape.1 rows Columns) widths →
        ((p : Position) → IsVisibleCell (layout_of d) p →
        AreMeasuredAt measure rows p (d.lines p)) → AllHaveRoom d }
    ensures texts { (d : Drawing) (text : C → List ℕ)
        (rows : List (List C)) (widths : List ℕ) → d.widths ≡ slice_index widths →
        Fits (problem_of (spanned_grid d.config) (line_measure text) d.shape.1 rows Columns)
        widths → ((p : Position) → IsVisibleCell (layout_of d) p →
        AreLinesAt text rows p (d.lines p)) → AllHaveRoom d }
{}

/// Nothing else is drawn: each piece of each line is of the content of a visible cell, or of a line of the table. What
/// stands in the place of a cell is a line of its text as it is shown, or one of the characters that fill it.
pub fn nothing_else_is_drawn()
    ensures pieces { (d : Drawing) →
        All (λ line. All (IsOfTable d) (pieces_of line)) (drawn_lines d) }
    ensures cells { (b : Block) (k : ℕ) → All (IsOfCell b) (content b k) }
{}

/// Colours change no character, and end where they began. Pictures that differ in colours have the same pieces but for
/// these. The bytes of each line are blocks of one colour each, with its beginning before and its end behind, in which the
/// texts of the line stand in order, each in its colour. Where no text has a colour there are no bytes of any.
pub fn colors_in_blocks()
    ensures same { (d e : Drawing) → AreAlikeButColors d e →
        map (λ line. map uncolored (pieces_of line)) (drawn_lines d)
        ≡ map (λ line. map uncolored (pieces_of line)) (drawn_lines e) }
    ensures blocks { (d : Drawing) →
        All (λ line. AreInBlocks (inks_of line) (line_bytes line)) (drawn_lines d) }
    ensures none { (d : Drawing) → All (λ line. All (λ ink. ink.0 ≡ None) (inks_of line) →
        line_bytes line ≡ pieces_text (pieces_of line)) (drawn_lines d) }
{}

/// Margins stand round the lines of the table: as many lines above and below as the margins have, each of the columns
/// of the whole; beside each line of the table what stands left and right of it. Without margins there are only these.
pub fn margins_in_place()
    ensures above { (d : Drawing) (k : ℕ) → k < d.config.margin.top.size →
        slice_get (printed_lines d) k ≡ Some (margin_line d.config.margin.top
        d.config.margin_color.top d.config.margin_offset.top (whole_width d)) }
    ensures beside { (d : Drawing) (y : ℕ) (line : DrawnLine) →
        slice_get (drawn_lines d) y ≡ Some line →
        slice_get (printed_lines d) (d.config.margin.top.size + y)
        ≡ Some (with_margins d (y, line_bytes line)) }
    ensures below { (d : Drawing) (k : ℕ) → k < d.config.margin.bottom.size →
        slice_get (printed_lines d) (d.config.margin.top.size
        + (total_along (layout_of d) Rows + k)) ≡ Some (margin_line d.config.margin.bottom
        d.config.margin_color.bottom d.config.margin_offset.bottom (whole_width d)) }
    ensures columns { (indent : Indent) (offset : Offset) (columns : ℕ) →
        (blanks : ℕ) × (rest : ℕ) × (blanks + rest ≡ columns)
        × ((margin_line indent None offset columns
        ≡ fill_text 32 blanks ++ fill_text indent.fill rest)
        ⊎ (margin_line indent None offset columns
        ≡ fill_text indent.fill rest ++ fill_text 32 blanks)) }
    ensures none { (d : Drawing) → d.config.margin.top.size ≡ 0 → d.config.margin.bottom.size ≡ 0 →
        d.config.margin.left.size ≡ 0 → d.config.margin.right.size ≡ 0 →
        printed_lines d ≡ map line_bytes (drawn_lines d) }
{}

/// A table that can be drawn has no reason not to be drawn, and another one has no two reasons.
pub fn one_answer()
    ensures drawn { (d : Drawing) (e : DrawError) →
        IsDrawable d → IsRefusal e → IsDrawFault d e → ⊥ }
    ensures refused { (d : Drawing) (e f : DrawError) → IsRefusal e → IsRefusal f →
        IsDrawFault d e → IsDrawFault d f → e ≡ f }
{}

/// Settings and texts have no two pictures, no two reasons why they have none, and never both, whatever configuration the
/// settings make.
pub fn one_picture()
    ensures pictures { (columns : ℕ) (texts : List (List (List ℕ))) (sizing : Sizing)
        (settings : List Setting) (d e : Drawing) →
        IsDrawingBy columns texts sizing settings d → IsDrawingBy columns texts sizing settings e →
        (printed d ≡ printed e) × (lined d ≡ lined e) }
    ensures drawn { (columns : ℕ) (texts : List (List (List ℕ))) (sizing : Sizing)
        (settings : List Setting) (d : Drawing) (e : DrawError) →
        IsDrawingBy columns texts sizing settings d → IsDrawable d →
        IsRefusal e → IsPictureFault columns texts sizing settings e → ⊥ }
    ensures refused { (columns : ℕ) (texts : List (List (List ℕ))) (sizing : Sizing)
        (settings : List Setting) (e f : DrawError) → IsRefusal e → IsRefusal f →
        IsPictureFault columns texts sizing settings e →
        IsPictureFault columns texts sizing settings f → e ≡ f }
{
    equal_by_history();
    equal_configurations();
}

/// A clone equals its original.
pub fn equal_clones()
    ensures junctions { (x y : Junctions) → ⟦<Junctions as Clone>⟧.is_clone x y → y ≡ x }
    ensures room { (x y : Room) → ⟦<Room as Clone>⟧.is_clone x y → y ≡ x }
{}

/// Configurations that hold the same have no two lists of settings that fit their crossings, no two reasons why they have
/// none, and never both.
pub fn one_fit()
    ensures settings { (x y : SpannedConfig) (shape : ℕ × ℕ) (junctions : Junctions)
        (settings other : List Setting) → HoldTheSameSettings x y →
        FitCrossings x shape junctions settings → FitCrossings y shape junctions other →
        settings ≡ other }
    ensures fitted { (x y : SpannedConfig) (shape : ℕ × ℕ) (junctions : Junctions)
        (settings : List Setting) (e : DrawError) → HoldTheSameSettings x y → IsRefusal e →
        FitCrossings x shape junctions settings → IsFitFault y shape e → ⊥ }
    ensures refused { (x y : SpannedConfig) (shape : ℕ × ℕ) (e f : DrawError) →
        HoldTheSameSettings x y → IsRefusal e → IsRefusal f →
        IsFitFault x shape e → IsFitFault y shape f → e ≡ f }
{}

/// Tables that hold the same have the same picture: how their settings came about, and how they are kept, makes no
/// difference.
pub fn same_pictures()
    ensures { (d e : Drawing) → HoldTheSameSettings d.config e.config → d.widths ≡ e.widths →
        d.heights ≡ e.heights → d.shape ≡ e.shape → d.lines ≡ e.lines → d.color ≡ e.color →
        printed d ≡ printed e }
{}
