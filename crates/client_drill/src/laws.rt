//! How the network of a drill begins, as a law.

ghost use Rattle.client_drill.specs.Laws.{DrillsBeginByRule};

/// Law: a network in which nothing was sent keeps the rule of networks that are handed on, where its fates are those of a drill.
pub fn drills_begin_by_rule()
    ensures { DrillsBeginByRule }
{}
