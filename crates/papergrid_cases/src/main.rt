//! Worked cases: reads them from the files that the arguments name, makes the calls that they tell, and writes what
//! differs from what they want.
#![tactic(auto)]

mod answer;
mod certificate_questions;
mod compact_cases;
mod config_cases;
mod config_questions;
mod hidden_questions;
mod kinds;
mod map_cases;
mod marks;
mod pair;
mod place_questions;
mod plain_cases;
mod reading;
mod running;
mod settings;
mod shown;
mod sides;
mod size_questions;
mod table;
mod table_cases;
mod text_questions;

use compact_cases::CompactCases;
use config_cases::Config;
use map_cases::Map;
use pair::run_pair;
use papergrid_maps::SpanTable;
use papergrid_tables::{BorderTable, OffsetTable};
use plain_cases::PlainCases;
use running::{Report, run};
use std::process::ExitCode;
use std::{env, fs};
use table_cases::TableCases;

/// Ends with status 1 where an answer differs or a file can't be read, else with 0.
fn main(rt: HostRuntime) -> ExitCode {
    let mut is_right = true;
    match env::args(&rt) {
        Ok(mut names) => {
            let _program = names.next();
            for name in names {
                is_right = is_file_right(&rt, name.as_str()) && is_right;
            }
        }
        Err(_) => is_right = false,
    }
    ExitCode::from(if is_right { 0 } else { 1 })
}

/// Runs the cases of a file, and writes how many there were.
fn is_file_right(rt: &HostRuntime, name: &str) -> bool {
    let Ok(text) = fs::read_to_string(rt, name) else {
        let _ = println!(rt; "{name}: expected a file that can be read");
        return false;
    };
    let report = report_of(rt, name, text.as_str());
    let (cases, answers) = (report.cases, report.answers);
    let written = println!(rt; "{name}: {cases} cases, {answers} answers");
    written.is_ok() && report.is_right
}

/// Runs the cases of a file by the module that its name asks for.
fn report_of(rt: &HostRuntime, name: &str, text: &str) -> Report {
    match name {
        "borders.txt" => run_pair::<BorderTable<char>>(rt, name, text),
        "compact.txt" => run::<CompactCases>(rt, name, text),
        "config.txt" | "removals.txt" => run_pair::<Config>(rt, name, text),
        "tables.txt" => run::<TableCases>(rt, name, text),
        "texts.txt" | "values.txt" | "widths.txt" => run::<PlainCases>(rt, name, text),
        "maps.txt" => run_pair::<Map>(rt, name, text),
        "offsets.txt" => run_pair::<OffsetTable<char>>(rt, name, text),
        "spans.txt" => run_pair::<SpanTable>(rt, name, text),
        _ => Report::of_no_case(),
    }
}
