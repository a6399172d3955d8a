//! Lists of settings, given to a configuration at once.

use super::{ONLY, keeps, says};
use papergrid_config::{Setting, SpannedConfig, Stopped};
use papergrid_values::{
    Borders, Entity, HorizontalLine, Indent, Offset, Position, Sides, VerticalLine,
};
use std::alloc::{AllocError, Global};
use std::process::Abort;
use std::test::Fail;

fn padding(size: usize) -> Sides<Indent> {
    Sides::filled(Indent::spaced(size))
}

fn ten(alloc: Global) -> Result<Vec<Setting>, AllocError> {
    let at = Position::new(1, 1);
    Ok(vec![in alloc;
        Setting::SetPadding(Entity::Row(1), padding(1)),
        Setting::SetPadding(Entity::Column(1), padding(2)),
        Setting::SetBorders(Borders::filled('f')),
        Setting::InsertHorizontalLine(1, HorizontalLine::filled('h')),
        Setting::SetColumnSpan(at, 2),
        Setting::RemoveBorders,
        Setting::SetJustification(Entity::Row(2), 'j'),
        Setting::InsertVerticalLine(1, VerticalLine::filled('v')),
        Setting::SetHorizontalChar(at, Offset::Start(1), 'a'),
        Setting::SetTrimVertical(Entity::Cell(3, 3), true),
    ]?)
}

/// Applies settings that are in range at once, up to one that is refused: how many were done.
fn done_at_once(config: &mut SpannedConfig, settings: Vec<Setting>) -> usize {
    let all = settings.len();
    if !settings.iter().all(|setting| setting.is_in_range()) {
        return all;
    }
    match config.apply_all(settings) {
        Ok(()) => all,
        Err(Stopped { done }) => done,
    }
}

/// What a test ends with whose configuration was given settings up to one that was refused: those before it tell
/// the configuration.
fn is_told(
    rt: &(impl Abort + AllocGlobal),
    config: SpannedConfig,
    done: usize,
    mut settings: Vec<Setting>,
) -> Result<(), Fail> {
    if done == settings.len() {
        drop(config);
        return Ok(());
    }
    settings.truncate(done);
    let mut like = SpannedConfig::new(rt.alloc());
    if done_at_once(&mut like, settings) == done {
        return keeps(rt, ONLY, config, like, Err::<(), AllocError>(AllocError));
    }
    drop(config);
    drop(like);
    Err(Fail::from(AllocError))
}

#[test]
fn apply_all(rt: HostRuntime) -> Result<(), Fail> {
    let (settings, again) = (ten(rt.alloc())?, ten(rt.alloc())?);
    let mut config = SpannedConfig::new(rt.alloc());
    let done = done_at_once(&mut config, settings);
    is_told(&rt, config, done, again)
}

#[test]
fn clone_of_settings(rt: HostRuntime) -> Result<(), Fail> {
    let settings = ten(rt.alloc())?;
    says(ONLY, settings.clone())
}
