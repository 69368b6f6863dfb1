//! What every schedule of a board's events keeps.

ghost use Rattle.xm_board.specs.Schedule.{PostsRise, SchedulesStand, SomeReady};

/// After every schedule the core is one, no job that is out would be stale, and no cycle and no floor has fallen.
pub fn schedules_stand()
    ensures { SchedulesStand }
{}

/// Where no part is out and some cycle is below the target, some part is ready: so a take never has to wait for
/// a part where none is out.
pub fn some_ready()
    ensures { SomeReady }
{}

/// The post of a part that is out lowers no floor.
pub fn posts_rise()
    ensures { PostsRise }
{}
