ghost use Rattle.tick_schedule.specs.Timetable.{ResumesAbove};

/// A law: after a point a periodic Clock has still to make exactly its ticks above it.
pub fn resumed_ticks()
    ensures { ResumesAbove }
{}
