//! The sizes of the table of a CSV text, and the cells that certify them.

ghost use Rattle.std.specs.Prelude.{◌≡◌, ◌≢◌, All, IfOk, MatchBool, MatchOption, length, map, true, None, ℕ};
ghost use Rattle.papergrid_config.specs.Applied.{is_in_range};
ghost use Rattle.papergrid_csv.specs.Certified.{HasNoPicture, HasNoSizes, HasPicture, IsCsvCertified};
ghost use Rattle.papergrid_csv.specs.Pictures.{IsCsvRun};
ghost use Rattle.papergrid_csv.specs.Requests.{settings_of};
ghost use Rattle.papergrid_csv.specs.Rows.{held_texts, row_texts};
ghost use Rattle.papergrid_csv.specs.declared.reading.RowsError.TheVariants as rows_errors;
ghost use Rattle.papergrid_csv.specs.ForProofs.Drawn.{IsConfigRun, IsRowsRun, IsSettingsRun};
ghost use Rattle.papergrid_csv.specs.ForProofs.Solved.{AreConfigSolved, AreRowsSolved, AreSettingsSolved, unless_refused};

use crate::reading::{Rows, RowsError, read_rows};
use crate::request::{Request, settings};
use crate::run::{configured, is_wide, judged};
use crate::shown::cut_rows;
use bumpalo::Bump;
use papergrid_config::{Setting, SpannedConfig};
use papergrid_draw::{DrawError, check_tiles};
use papergrid_layout::certificates::certify;
use papergrid_layout::{PerDirection, Solved};
use papergrid_text::IterRecords;
use std::alloc::{AllocError, Global};

/// The sizes of the table of a CSV text, their totals, and the cells that certify them: of the columns the widths, in columns of a
/// terminal, and of the rows the heights, in lines. They are those of the drawing that `draw_csv` writes, by the sizing of the
/// request, or would write if it were not too wide. There are some where `draw_csv` ends with `Drawn` or `TooWide`, and none where
/// it ends otherwise.
///
/// # Errors
///
/// `AllocError` where a growth is refused.
pub fn certify_csv(
    alloc: Global,
    request: &Request,
    input: &[u8],
) -> Result<Option<PerDirection<Solved>>, AllocError>
    ensures { IfOk result (λ found. MatchOption found
        (HasNoSizes (IsCsvRun request.now input.now)) (IsCsvCertified request.now input.now)) }
{
    let texts = Bump::new(alloc);
    match read_rows(alloc, &texts, request.reading, input) {
        Ok(rows) => certify_rows(alloc, request, &rows),
        Err(error) => unless_unread(error),
    }
}

/// Whether the table of a CSV text has a picture that is no wider than the request allows: whether `draw_csv` ends with `Drawn`.
///
/// # Errors
///
/// `AllocError` where a growth is refused.
pub fn has_picture(alloc: Global, request: &Request, input: &[u8]) -> Result<bool, AllocError>
    ensures { IfOk result (λ has. MatchBool has (HasPicture request.now input.now)
        (HasNoPicture request.now input.now)) }
{
    match certify_csv(alloc, request, input)? {
        Some(found) => Ok(!is_wide(request.max_width, found.columns.total)),
        None => Ok(false),
    }
}

/// Nothing of a text that was not read so, if memory was not refused.
fn unless_unread(error: RowsError) -> Result<Option<PerDirection<Solved>>, AllocError>
    ensures { IfOk result (λ found. (found ≡ None) × (error ≢ rows_errors.Memory)) }
{
    match error {
        RowsError::Memory => Err(AllocError),
        _ => Ok(None),
    }
}

/// The sizes of a table of rows, and the cells that certify them, if it has any.
fn certify_rows(
    alloc: Global,
    request: &Request,
    rows: &Rows<'_>,
) -> Result<Option<PerDirection<Solved>>, AllocError>
    ensures { IfOk result (λ found. MatchOption found
        (HasNoSizes (IsRowsRun request.now rows.now.columns (held_texts rows.now.rows)))
        (AreRowsSolved request.now rows.now.columns (held_texts rows.now.rows))) }
{
    if let Some(_) = judged(request, rows) {
        return Ok(None);
    }
    match request.cut {
        None => certify_shown(alloc, request, rows, &rows.rows),
        Some(columns) => {
            let texts = Bump::new(alloc);
            let shown = cut_rows(alloc, &texts, columns, &rows.rows)?;
            certify_shown(alloc, request, rows, &shown)
        }
    }
}

/// The same of these rows, which are shown so.
fn certify_shown(
    alloc: Global,
    request: &Request,
    rows: &Rows<'_>,
    shown: &[Vec<&str>],
) -> Result<Option<PerDirection<Solved>>, AllocError>
    ensures { let settings = settings_of request.now rows.now.columns (held_texts rows.now.rows) in
        let shape : ℕ × ℕ = (length shown.now, rows.now.columns) in
        IfOk result (λ found. MatchOption found
        (HasNoSizes (IsSettingsRun request.now settings shape rows.now.columns
        (map row_texts shown.now)))
        (AreSettingsSolved request.now settings shape rows.now.columns (map row_texts shown.now))) }
{
    let settings = settings(alloc, request, rows)?;
    certify_settings(alloc, request, settings, rows.columns, shown)
}

/// The same of rows of so many fields by settings.
fn certify_settings(
    alloc: Global,
    request: &Request,
    settings: Vec<Setting>,
    columns: usize,
    rows: &[Vec<&str>],
) -> Result<Option<PerDirection<Solved>>, AllocError>
    requires { All (λ setting. is_in_range setting ≡ true) settings.items }
    ensures { IfOk result (λ found. MatchOption found
        (HasNoSizes (IsSettingsRun request.now settings.items (length rows.now, columns) columns
        (map row_texts rows.now)))
        (AreSettingsSolved request.now settings.items (length rows.now, columns) columns
        (map row_texts rows.now))) }
{
    match configured(alloc, request, settings, (rows.len(), columns)) {
        Ok(config) => certify_configured(alloc, request, &config, columns, rows),
        Err(error) => unless_refused(error),
    }
}

/// The same of rows of so many fields by a configuration.
fn certify_configured(
    alloc: Global,
    request: &Request,
    config: &SpannedConfig,
    columns: usize,
    rows: &[Vec<&str>],
) -> Result<Option<PerDirection<Solved>>, AllocError>
    ensures { IfOk result (λ found. MatchOption found
        (HasNoSizes (IsConfigRun request.now columns (map row_texts rows.now) config.now))
        (AreConfigSolved request.now columns (map row_texts rows.now) config.now)) }
{
    let records = IterRecords::new(rows, columns, Some(rows.len()));
    let found = match certify(alloc, records, config, request.sizing) {
        Ok(found) => found,
        Err(error) => return unless_refused(DrawError::from(error)),
    };
    match check_tiles(alloc, config, (rows.len(), columns)) {
        Ok(()) => Ok(Some(found)),
        Err(error) => unless_refused(error),
    }
}

/// Nothing of a table that is refused so, if memory was not.
fn unless_refused(error: DrawError) -> Result<Option<PerDirection<Solved>>, AllocError>
    ensures { result ≡ unless_refused error }
{
    match error {
        DrawError::Memory(error) => Err(error),
        _ => Ok(None),
    }
}
