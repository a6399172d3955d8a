//! Worked scripts: what the definitions give for them is computed. They are examples, and no law rests on them.

ghost use Rattle.papergrid_script.specs.Rows.{WorkedScripts};

/// What the worked scripts give, by the definitions alone.
pub fn worked_rows()
    ensures { WorkedScripts }
{}
