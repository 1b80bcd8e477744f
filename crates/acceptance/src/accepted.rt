// A schedule that no question refuses, as a value: whoever has one need not ask again.
ghost use Rattle.std.specs.Prelude.{◌≡◌, true};
ghost use Rattle.sets.specs.Largest.{largest};
ghost use Rattle.schedule.specs.Schedule.{schedule_lent};
ghost use Rattle.schedule.specs.Questions.{question};

use schedule::Tables;

// The tables of an accepted schedule: each question about them is answered by yes.
#[derive(Clone, Copy)]
pub struct Accepted<'a> {
    pub tables: Tables<'a>,
    ghost accepted: { question (schedule_lent tables) largest true ≡ 0 },
}
