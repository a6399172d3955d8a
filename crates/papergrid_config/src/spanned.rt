//! The settings of a table. Source: `config/spanned/mod.rs`.

ghost use Rattle.std.specs.Prelude.{[]};
ghost use Rattle.papergrid_config.specs.History.{HasSettingHistory};

use papergrid_maps::{EntityMap, SpanTable};
use papergrid_tables::{BorderTable, OffsetTable};
use papergrid_values::{ANSIBuf, AlignmentHorizontal, AlignmentVertical, Indent, Offset, Sides};
use std::alloc::Global;

/// The settings of a table: of each cell by entity, of the lines by part, overrides of their
/// characters and colours, spans, and the margin of the whole table.
#[derive(Clone, Debug, PartialEq)]
pub struct SpannedConfig {
    pub(crate) alloc: Global,
    pub(crate) padding: EntityMap<Sides<Indent>>,
    pub(crate) padding_color: EntityMap<Sides<Option<ANSIBuf>>>,
    pub(crate) trim_horizontal: EntityMap<bool>,
    pub(crate) trim_vertical: EntityMap<bool>,
    pub(crate) line_alignment: EntityMap<bool>,
    pub(crate) alignment_horizontal: EntityMap<AlignmentHorizontal>,
    pub(crate) alignment_vertical: EntityMap<AlignmentVertical>,
    pub(crate) justification: EntityMap<char>,
    pub(crate) justification_color: EntityMap<Option<ANSIBuf>>,
    pub(crate) characters: BorderTable<char>,
    pub(crate) colors: BorderTable<ANSIBuf>,
    pub(crate) horizontal_chars: OffsetTable<char>,
    pub(crate) vertical_chars: OffsetTable<char>,
    pub(crate) horizontal_colors: OffsetTable<ANSIBuf>,
    pub(crate) vertical_colors: OffsetTable<ANSIBuf>,
    pub(crate) spans: SpanTable,
    pub(crate) margin: Sides<Indent>,
    pub(crate) margin_color: Sides<Option<ANSIBuf>>,
    pub(crate) margin_offset: Sides<Offset>,
    pub(crate) missing: char,
}

impl SpannedConfig {
    /// The configuration without settings: no padding, no margin, no colours, no spans, no lines,
    /// texts at the left and the top, justified by spaces, and a space where a line has no
    /// character. It does not allocate.
    pub fn new(alloc: Global) -> SpannedConfig
        ensures { HasSettingHistory [] result }
    {
        SpannedConfig {
            alloc,
            padding: EntityMap::new(alloc, Sides::filled(Indent::zero())),
            padding_color: EntityMap::new(alloc, Sides::new(None, None, None, None)),
            trim_horizontal: EntityMap::new(alloc, false),
            trim_vertical: EntityMap::new(alloc, false),
            line_alignment: EntityMap::new(alloc, false),
            alignment_horizontal: EntityMap::new(alloc, AlignmentHorizontal::Left),
            alignment_vertical: EntityMap::new(alloc, AlignmentVertical::Top),
            justification: EntityMap::new(alloc, ' '),
            justification_color: EntityMap::new(alloc, None),
            characters: BorderTable::new(alloc),
            colors: BorderTable::new(alloc),
            horizontal_chars: OffsetTable::new(alloc),
            vertical_chars: OffsetTable::new(alloc),
            horizontal_colors: OffsetTable::new(alloc),
            vertical_colors: OffsetTable::new(alloc),
            spans: SpanTable::new(alloc),
            margin: Sides::filled(Indent::zero()),
            margin_color: Sides::new(None, None, None, None),
            margin_offset: Sides::filled(Offset::Start(0)),
            missing: ' ',
        }
    }
}

// By hand: docs/DECISIONS.md, "Drops".
impl Drop for SpannedConfig {
    fn drop(self) {
        let SpannedConfig {
            alloc: _,
            padding: _,
            padding_color: _,
            trim_horizontal: _,
            trim_vertical: _,
            line_alignment: _,
            alignment_horizontal: _,
            alignment_vertical: _,
            justification: _,
            justification_color: _,
            characters: _,
            colors: _,
            horizontal_chars: _,
            vertical_chars: _,
            horizontal_colors: _,
            vertical_colors: _,
            spans: _,
            margin: _,
            margin_color: _,
            margin_offset: _,
            missing: _,
        } = self;
    }
}
