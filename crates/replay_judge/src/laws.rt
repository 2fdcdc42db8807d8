//! What holds of judgements: functions that do nothing, whose contracts are laws.

ghost use Rattle.replay_judge.specs.Laws.{OneJudgement, AgreementsFill};

/// States that an outcome has one judgement.
pub fn one_judgement()
    ensures { OneJudgement }
{}

/// States that what an entry and a replay agree on has contents of the sketches' lengths and prints.
pub fn agreements_fill()
    ensures { AgreementsFill }
{}
