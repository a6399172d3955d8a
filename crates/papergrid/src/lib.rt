//! Tables by their settings: the settings themselves, widths of columns and heights of rows, pictures, the printers
//! over records, and scripts that describe a table.
#![tactic(auto)]

mod compact;
mod drawing;
mod equal_rows;
mod held;
mod holding;
mod iterable;
pub mod laws;
mod peekable;
mod printer;
mod running;
mod sized;
mod table_layout;

pub use drawing::{draw, draw_script, run_table};
pub use papergrid_layout::{Sizing, Table};
pub use papergrid_script::answer::RunEnd;
pub use papergrid_script::explained::{Reason, explain};
pub use papergrid_script::reading::{RunFault, read_all};
pub use papergrid_text::transfer::{ByteSink, Failed, ReadSource, Sink, Source, WriteSink};
pub use running::{run, run_keeping};
pub use table_layout::{layout, layout_least};

/// Colours as texts.
pub mod ansi {
    pub use papergrid_values::{ANSIBuf, ANSIFmt, ANSIStr};
}

/// What settings are made of.
pub mod config {
    pub use papergrid_values::{
        AlignmentHorizontal, AlignmentVertical, Border, Borders, Direction, Entity, EntityIterator,
        Formatting, HorizontalLine, Indent, Offset, Position, Sides, VerticalLine,
    };

    /// The settings of a table whose cells all have the same ones.
    pub mod compact {
        pub use papergrid_config::CompactConfig;
    }

    /// The settings of a table.
    pub mod spanned {
        pub use papergrid_config::{EntityMap, MapCall, Setting, SpannedConfig, Stopped};
        pub use papergrid_maps::Anchor;
    }
}

/// The colours of the texts of cells, by position.
pub mod colors {
    pub use papergrid_config::{Colors, NoColor, NoColors};
}

/// Widths of columns and heights of rows.
pub mod dimension {
    pub use papergrid_layout::{
        Dimension, Estimate, GridDimension, LayoutError, Place, PlaceError, cell_at, place, places,
        total_height, total_width,
    };

    /// The sizes of tables whose cells all have the same settings.
    pub mod compact {
        pub use papergrid_layout::CompactGridDimension;
    }

    /// The sizes of records whose cells are texts.
    pub mod iterable {
        pub use papergrid_layout::iterable::{
            IterGridDimension, check_height_witness, check_width_witness, height_witness,
            width_witness,
        };
    }

    /// The least sizes of records whose cells are texts, and the cells that certify them.
    pub mod least {
        pub use papergrid_layout::least::{
            LeastGridDimension, height_certificate, width_certificate,
        };
    }

    /// The sizes of records whose cells know their lines and widths.
    pub mod peekable {
        pub use papergrid_layout::PeekableGridDimension;
    }
}

/// The table, drawn.
pub mod grid {
    pub use papergrid_draw::printer::{draw_cells, draw_text, drawn_string};
    pub use papergrid_draw::separated::{settings_separate, texts_stand_apart};
    pub use papergrid_draw::source::Cells;
    pub use papergrid_draw::{
        AsANSIStr, DrawError, Junctions, RecordCells, Room, TextCells, TextRow, draw_lines,
        fitted_crossings,
    };

    /// The printer of tables whose cells all have the same settings.
    pub mod compact {
        pub use crate::compact::CompactGrid;
    }

    /// The printer over records whose cells are texts.
    pub mod iterable {
        pub use crate::iterable::IterGrid;
    }

    /// The printer over records whose cells know their lines and widths.
    pub mod peekable {
        pub use crate::peekable::PeekableGrid;
    }
}

/// Rows of cells.
pub mod records {
    pub use papergrid_text::{
        ExactRecords, IntoRecords, IterRecords, PeekableRecords, Records, RowIter,
    };

    /// Rows of cells that are held.
    pub mod vec_records {
        pub use papergrid_text::{Cell, StrWithWidth, Text, VecRecords};
    }
}

/// Scripts that describe a table.
pub mod script {
    pub use papergrid_script::script::{Script, ScriptError, read_script};
}

/// Settings as scripts spell them.
pub mod script_setting {
    pub use papergrid_script::script_setting::{ScriptSetting, configuration_of};
}

/// What helps with texts.
pub mod util {
    /// The measures of texts, their lines and their tabs.
    pub mod string {
        pub use papergrid_text::Lines;
        pub use papergrid_text::string::{
            count_lines, count_tabs, get_char_width, get_line_width, get_lines, get_string_width,
            get_text_dimension, get_text_width, replace_tab,
        };
    }
}
