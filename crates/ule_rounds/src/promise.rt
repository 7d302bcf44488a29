ghost use Rattle.ule_model.specs.CalendarPromise.{HistoriesKeepTheCalendarPromise};
ghost use Rattle.ule_rounds.specs.NearerThread.{ThreadComesNearer};

/// The calendar promise over histories: in each legal history of any setup and any lists of
/// commands, a thread that stays queued in a batch calendar comes nearer by one bucket whenever the
/// removal index goes on, and the indexes, which `sched_clock` and `tdq_runq_rem` bring on, never
/// pass it. It does nothing when it runs.
pub fn histories_keep_the_calendar_promise()
    ensures { HistoriesKeepTheCalendarPromise }
{}

/// The law of an example: in a legal history a thread stays in its bucket of the calendar, and its
/// distance falls from 17 to 16 at a tick, by computing with the definitions alone. It does nothing
/// when it runs.
pub fn thread_comes_nearer()
    ensures { ThreadComesNearer }
{}
