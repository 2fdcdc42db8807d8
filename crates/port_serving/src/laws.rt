// What holds of all serving: functions that do nothing, whose contracts are laws.
ghost use Rattle.port_serving.specs.Laws.{TalksAreExchanges};

/// Law: what a port tells of its talks tells the frames that it took, and those that it answered.
pub fn talks_are_exchanges()
    ensures { TalksAreExchanges }
{}
