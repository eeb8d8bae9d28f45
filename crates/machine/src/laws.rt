ghost use Rattle.machine.specs.Headline.{AcknowledgedAreInHistory, AnswersAreRight, ScriptsAreRuns, StopsLeaveAcknowledged, StopsLeaveAnswers, TurnsAreTold, WholeHistoriesAreAccepted};
ghost use Rattle.machine.specs.Laws.{StepsKeepStates, StartsAreStates, StepsTakeNothingBack, FlushTakesLongestFront, VersionsAreFewer, VersionsAreNetworks, AcknowledgedStay, AnswersStayRight};
ghost use Rattle.machine.specs.LifeInRun.{LifeStepsAreRunSteps, StopsBeginLives};

/// What holds of each step of the machine.
pub fn laws_of_steps()
    ensures starts { StartsAreStates }
    ensures states { StepsKeepStates }
    ensures durable { StepsTakeNothingBack }
    ensures versions { VersionsAreNetworks }
    ensures flush { FlushTakesLongestFront }
    ensures fewer { VersionsAreFewer }
{}

/// What holds of each run, whatever is called and wherever it is stopped.
pub fn laws_of_runs()
    ensures acknowledged { AcknowledgedStay }
    ensures answers { AnswersStayRight }
{}

/// What holds of each script, wherever it is stopped and however early its run ends.
pub fn laws_of_lives<P>()
    ensures runs { ScriptsAreRuns P }
    ensures turns { TurnsAreTold P }
    ensures history { WholeHistoriesAreAccepted P }
    ensures acknowledged { AcknowledgedAreInHistory P }
    ensures left { StopsLeaveAcknowledged P }
    ensures answers { AnswersAreRight P }
    ensures answers_stay { StopsLeaveAnswers P }
{}

/// What a run over several lives takes from each.
pub fn laws_of_one_life()
    ensures steps { LifeStepsAreRunSteps }
    ensures stops { StopsBeginLives }
{}
