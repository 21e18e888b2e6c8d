// Examples of the definitions, by computation. Each function states those of one file, so that the check asks for them.
ghost use Rattle.format.specs.Worked.{OneAnswers};
ghost use Rattle.format.specs.Rules.{RulesHold};
ghost use Rattle.format.specs.Refusals.{RefusalsHold};
ghost use Rattle.format.specs.Edges.{EdgesReadBack};
ghost use Rattle.format.specs.Faults.{FaultsFound};

pub fn one_answers()
    ensures { OneAnswers }
{}

pub fn rules_hold()
    ensures { RulesHold }
{}

pub fn refusals_hold()
    ensures { RefusalsHold }
{}

pub fn edges_read_back()
    ensures { EdgesReadBack }
{}

pub fn faults_found()
    ensures { FaultsFound }
{}
