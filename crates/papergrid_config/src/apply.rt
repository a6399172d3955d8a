//! Settings as values, applied one at a time or as a list.

ghost use Rattle.std.specs.Prelude.{◌≡◌, ◌∷◌, [], ◌<◌, All, true, false, OnOk, OnErr, IfErr, IfSome, IsOk, length, slice_get, take};
ghost use Rattle.papergrid_config.specs.Applied.{is_free, is_in_range};
ghost use Rattle.papergrid_config.specs.ForProofs.Growing.{may_grow_by};
ghost use Rattle.papergrid_config.specs.Changed.{changed_by};
ghost use Rattle.papergrid_config.specs.History.{AddsSetting, AppendsSettings};

use crate::setting::Setting;
use crate::spanned::SpannedConfig;
use papergrid_maps::Stopped;
use std::alloc::AllocError;

impl SpannedConfig {
    /// Makes the call that the setting is. Where an allocation fails the configuration is as it
    /// was; margins, removals, the frame, the defaults, values for the whole table and spans below
    /// 2 do not allocate. The parts to which the setting does not belong are as they were.
    /// Condition: the setting is in range.
    pub fn apply(&mut self, setting: Setting) -> Result<(), AllocError>
        requires { is_in_range setting ≡ true }
        ensures ok { OnOk result (AddsSetting self.old self.new setting) }
        ensures err { OnErr result (self.new ≡ self.old) }
        ensures free { is_free setting ≡ true → IsOk result }
        ensures others { self.new ≡ changed_by (setting ∷ []) self.old self.new }
    {
        match setting {
            Setting::InsertHorizontalLine(row, line) => self.insert_horizontal_line(row, line),
            Setting::InsertVerticalLine(col, line) => self.insert_vertical_line(col, line),
            Setting::SetHorizontalChar(position, offset, c) => self.set_horizontal_char(
                position, offset, c,
            ),
            Setting::SetVerticalChar(position, offset, c) => self.set_vertical_char(
                position, offset, c,
            ),
            Setting::SetHorizontalCharColor(position, offset, color) => {
                self.set_horizontal_char_color(position, offset, color)
            }
            Setting::SetVerticalCharColor(position, offset, color) => {
                self.set_vertical_char_color(position, offset, color)
            }
            Setting::SetPadding(entity, padding) => self.set_padding(entity, padding),
            Setting::SetPaddingColor(entity, colors) => self.set_padding_color(entity, colors),
            Setting::SetTrimHorizontal(entity, on) => self.set_trim_horizontal(entity, on),
            Setting::SetTrimVertical(entity, on) => self.set_trim_vertical(entity, on),
            Setting::SetLineAlignment(entity, on) => self.set_line_alignment(entity, on),
            Setting::SetAlignmentHorizontal(entity, alignment) => {
                self.set_alignment_horizontal(entity, alignment)
            }
            Setting::SetAlignmentVertical(entity, alignment) => {
                self.set_alignment_vertical(entity, alignment)
            }
            Setting::SetJustification(entity, c) => self.set_justification(entity, c),
            Setting::SetJustificationColor(entity, c) => self.set_justification_color(entity, c),
            Setting::SetBorder(position, border) => self.set_border(position, border),
            Setting::SetBorderColor(position, border) => self.set_border_color(position, border),
            Setting::SetColumnSpan(position, span) => self.set_column_span(position, span),
            Setting::SetRowSpan(position, span) => self.set_row_span(position, span),
            other => {
                self.apply_free(other);
                Ok(())
            }
        }
    }

    /// Makes the calls in order, up to one whose allocation fails: then the configuration is that
    /// of the settings done before it, and that call is one that may allocate: not one of those
    /// of which `apply` says that they do not. The parts to which none of the settings belongs
    /// are as they were. Condition: each setting is in range.
    pub fn apply_all(&mut self, settings: Vec<Setting>) -> Result<(), Stopped>
        requires { All (λ setting. is_in_range setting ≡ true) settings.items }
        ensures ok { OnOk result (AppendsSettings self.old self.new settings.items) }
        ensures err { IfErr result (λ stopped.
            AppendsSettings self.old self.new (take stopped.done settings.items)) }
        ensures refused { IfErr result (λ stopped. stopped.done < length settings.items) }
        ensures blamed { IfErr result (λ stopped.
            IfSome (slice_get settings.items stopped.done) (λ setting. is_free setting ≡ false)) }
        ensures free { All (λ setting. is_free setting ≡ true) settings.items → IsOk result }
        ensures others { self.new ≡ changed_by settings.items self.old self.new }
    {
        let mut done = 0;
        for setting in settings {
            match self.apply(setting) {
                Ok(()) => done += 1,
                Err(_) => return Err(Stopped { done }),
            }
        }
        Ok(())
    }

    // Makes one of the calls that never allocate.
    fn apply_free(&mut self, setting: Setting)
        requires free { may_grow_by setting ≡ false }
        requires range { is_in_range setting ≡ true }
        ensures told { AddsSetting self.old self.new setting }
        ensures others { self.new ≡ changed_by (setting ∷ []) self.old self.new }
    {
        match setting {
            Setting::SetMargin(margin) => self.set_margin(margin),
            Setting::SetMarginColor(colors) => self.set_margin_color(colors),
            Setting::SetMarginOffset(offsets) => self.set_margin_offset(offsets),
            Setting::RemoveBorders => self.remove_borders(),
            Setting::RemoveBordersColors => self.remove_borders_colors(),
            Setting::RemoveColorLineHorizontal => self.remove_color_line_horizontal(),
            Setting::RemoveColorLineVertical => self.remove_color_line_vertical(),
            Setting::RemoveHorizontalChars => self.remove_horizontal_chars(),
            Setting::RemoveVerticalChars => self.remove_vertical_chars(),
            Setting::SetBorders(borders) => self.set_borders(borders),
            Setting::SetBorderDefault(c) => self.set_border_default(c),
            Setting::SetBordersColor(colors) => self.set_borders_color(colors),
            Setting::SetBorderColorDefault(color) => self.set_border_color_default(color),
            Setting::SetBordersMissing(c) => self.set_borders_missing(c),
            Setting::RemoveHorizontalLine(row, count) => self.remove_horizontal_line(row, count),
            Setting::RemoveVerticalLine(col, count) => self.remove_vertical_line(col, count),
            Setting::RemoveOverriddenHorizontal(position) => self.remove_overridden_horizontal(
                position,
            ),
            Setting::RemoveOverriddenVertical(position) => self.remove_overridden_vertical(
                position,
            ),
            Setting::RemoveBorder(position, shape) => self.remove_border(position, shape),
            Setting::RemoveBorderColor(position, shape) => self.remove_border_color(
                position, shape,
            ),
            Setting::RemoveColumnSpans => self.remove_column_spans(),
            Setting::RemoveRowSpans => self.remove_row_spans(),
            _ => unreachable!(),
        }
    }
}
