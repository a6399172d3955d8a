//! The settings of alignments.

ghost use Rattle.std.specs.Prelude.{◌≡◌, ◌∷◌, ◌++◌, [], OnOk, filter, flat_map, map};
ghost use Rattle.std.specs.List.{filter, range_with_len};
ghost use Rattle.std.specs.Str.{bytes_eq};
ghost use Rattle.papergrid_values.specs.declared.entity.Entity.TheVariants.{Column, Global};
ghost use Rattle.papergrid_config.specs.declared.setting.Setting.TheVariants.{SetAlignmentHorizontal};
ghost use Rattle.papergrid_csv.specs.Numbers.{field_in, is_numeric};
ghost use Rattle.papergrid_csv.specs.Requests.{column_alignment, columns_named, common_alignment, entry_settings, first_row, number_settings, rows_below};
ghost use Rattle.papergrid_csv.specs.Rows.{row_texts, held_texts};

use crate::number::{field_in, is_numeric};
use crate::reading::Rows;
use crate::request::{Alignment, ColumnName, Request};
use papergrid_config::Setting;
use papergrid_values::{AlignmentHorizontal, Entity};
use std::alloc::AllocError;

/// The rows that have no head.
pub fn rows_below<'a, 't>(has_head: bool, rows: &'a [Vec<&'t str>]) -> &'a [Vec<&'t str>]
    ensures { map row_texts result.now ≡ rows_below has_head (map row_texts rows.now) }
{
    if has_head && !rows.is_empty() {
        &rows[1..]
    } else {
        rows
    }
}

/// Adds the alignment of all cells, and of the columns of numbers where it is by what a column is.
pub fn push_alignments(
    below: &[Vec<&str>],
    columns: usize,
    alignment: Alignment,
    settings: &mut Vec<Setting>,
) -> Result<(), AllocError>
    ensures { OnOk result (settings.new.items ≡ settings.old.items
        ++ SetAlignmentHorizontal Global (common_alignment alignment)
        ∷ number_settings (map row_texts below.now) columns alignment) }
{
    match alignment {
        Alignment::Fixed(alignment) => {
            push_setting(
                Setting::SetAlignmentHorizontal(Entity::Global, alignment),
                settings,
            )
        }
        Alignment::Auto => {
            let left = AlignmentHorizontal::Left;
            push_setting(
                Setting::SetAlignmentHorizontal(Entity::Global, left),
                settings,
            )?;
            push_numbers(below, columns, settings)
        }
    }
}

/// Adds the alignment of the columns of numbers.
fn push_numbers(
    below: &[Vec<&str>],
    columns: usize,
    settings: &mut Vec<Setting>,
) -> Result<(), AllocError>
    ensures { OnOk result (settings.new.items ≡ settings.old.items
        ++ number_settings (map row_texts below.now) columns Alignment.Auto) }
{
    for column in 0..columns {
        if is_numeric(below, column) {
            push_aligned(column, AlignmentHorizontal::Right, settings)?;
        }
    }
    Ok(())
}

/// Adds the alignment of a column.
fn push_aligned(
    column: usize,
    alignment: AlignmentHorizontal,
    settings: &mut Vec<Setting>,
) -> Result<(), AllocError>
    ensures { OnOk result (settings.new.items
        ≡ settings.old.items ++ SetAlignmentHorizontal (Column column) alignment ∷ []) }
{
    push_setting(
        Setting::SetAlignmentHorizontal(Entity::Column(column), alignment),
        settings,
    )
}

/// Adds a setting. One that finds no room is let go here, and in no other place.
pub fn push_setting(setting: Setting, settings: &mut Vec<Setting>) -> Result<(), AllocError>
    ensures { OnOk result (settings.new.items ≡ settings.old.items ++ setting ∷ []) }
{
    settings.push(setting)?;
    Ok(())
}

/// Adds the alignments of single columns, by the rows that have no head.
pub fn push_entries(
    request: &Request,
    rows: &Rows<'_>,
    below: &[Vec<&str>],
    settings: &mut Vec<Setting>,
) -> Result<(), AllocError>
    requires { map row_texts below.now
        ≡ rows_below request.now.has_head (held_texts rows.now.rows) }
    ensures { OnOk result (settings.new.items ≡ settings.old.items
        ++ flat_map (entry_settings request.now rows.now.columns (held_texts rows.now.rows))
        request.now.columns.items) }
{
    for (name, alignment) in &request.columns {
        push_entry(rows, below, name, *alignment, settings)?;
    }
    Ok(())
}

/// The field of the first row in a column, an empty one where there is none.
fn head_field<'t>(rows: &[Vec<&'t str>], column: usize) -> &'t str
    ensures { result.now ≡ field_in column (first_row (map row_texts rows.now)) }
{
    match rows.get(0) {
        Some(row) => field_in(column, row),
        None => "",
    }
}

/// Adds the alignment of the columns of a name.
fn push_entry(
    rows: &Rows<'_>,
    below: &[Vec<&str>],
    name: &ColumnName,
    alignment: Alignment,
    settings: &mut Vec<Setting>,
) -> Result<(), AllocError>
    ensures { OnOk result (settings.new.items ≡ settings.old.items
        ++ map (λ column. SetAlignmentHorizontal (Column column)
        (column_alignment (map row_texts below.now) column alignment))
        (columns_named (first_row (held_texts rows.now.rows)) rows.now.columns name.now)) }
{
    match name {
        ColumnName::Number(column) => {
            let alignment = column_alignment(below, *column, alignment);
            push_aligned(*column, alignment, settings)
        }
        ColumnName::Head(text) => { push_named(rows, below, text.as_str(), alignment, settings) }
    }
}

/// Adds the alignment of the columns whose first row has a text.
fn push_named(
    rows: &Rows<'_>,
    below: &[Vec<&str>],
    text: &str,
    alignment: Alignment,
    settings: &mut Vec<Setting>,
) -> Result<(), AllocError>
    ensures { OnOk result (settings.new.items ≡ settings.old.items
        ++ map (λ column. SetAlignmentHorizontal (Column column)
        (column_alignment (map row_texts below.now) column alignment))
        (filter
        (λ column. bytes_eq (field_in column (first_row (held_texts rows.now.rows))) text.now)
        (range_with_len 0 rows.now.columns))) }
{
    for column in 0..rows.columns {
        if head_field(&rows.rows, column) == text {
            push_aligned(column, column_alignment(below, column, alignment), settings)?;
        }
    }
    Ok(())
}

/// The alignment of the cells of a column.
fn column_alignment(below: &[Vec<&str>], column: usize, alignment: Alignment) -> AlignmentHorizontal
    ensures { result ≡ column_alignment (map row_texts below.now) column alignment }
{
    match alignment {
        Alignment::Fixed(alignment) => alignment,
        Alignment::Auto if is_numeric(below, column) => AlignmentHorizontal::Right,
        Alignment::Auto => AlignmentHorizontal::Left,
    }
}
