//! Worked tables: what the definitions give for them is computed. They are examples, and no law rests on them.

ghost use Rattle.papergrid_tracks.specs.Rows.{WorkedTables};
ghost use Rattle.papergrid_tracks.specs.Crossing.{CrossingWorked};

/// What the worked tables give, by the definitions alone.
pub fn worked_rows()
    ensures { WorkedTables }
{}

/// What two crossing cells come to, by the definitions alone.
pub fn crossing_worked()
    ensures { CrossingWorked }
{}
