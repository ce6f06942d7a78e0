//! Laws on what the top call's contract speaks of.

ghost use Rattle.electrictest.specs.{Complete.QuietlyComplete, Orders.OwnOrders, PoolRuns.OwnRuns};
ghost use Rattle.electrictest.specs.Laws.{DetectedExactly, QuietDepots, QuietSinks, RecordsFit};

/// A suite is detected exactly where its own run has no fault: in order on one heap each test keeps within its budget, and all
/// of them within the suite's limit.
pub fn detected_law()
    ensures { DetectedExactly }
{}

/// A depot whose count of faults stood still didn't fail, unless the count had ended.
pub fn quiet_depot_law()
    ensures { QuietDepots }
{}

/// A sink that tells room for a text took it as a whole, unless its count of faults had ended.
pub fn quiet_sink_law()
    ensures { QuietSinks }
{}

/// Over a `QuietDepot`, with a `QuietSink` of room for each text that may be answered, words that ask for what is accepted are
/// answered by their text, by a number of units that is passed, or by want of memory.
pub fn quiet_answer_law()
    ensures { QuietlyComplete }
{}

/// The text of a record whose sums have 32 bytes is at most as long as what is read of one.
pub fn record_size_law()
    ensures { RecordsFit }
{}

/// With the edges of the suite's own run, each test of a lawful order has the outcome that it has when the whole suite is run in
/// order: verdict, output and units.
pub fn own_orders_law()
    ensures { OwnOrders }
{}

/// With the edges of the suite's own run, a run of a selection on workers has, for exactly the tests of its closure, each once
/// and in suite order, the outcome that the test has when the whole suite is run in order: verdict, output and units;
/// and no test passes its budget.
pub fn own_runs_law()
    ensures { OwnRuns }
{}
