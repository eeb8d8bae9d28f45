ghost use Rattle.roadnet.specs.Batches.{FirstRefusalIsOfTheFirst, AfterIsChanged, AfterAllIsChanged, GroupsAreTheirCommands, RefusedAsTheirCommands, AdmittedFits, AllAdmittedFit};
ghost use Rattle.roadnet.specs.Changes.{StepChanges, AdmittedSteps, RefusalIsLowest, FlawIsLowest, GroupsJoin, GroupAdmitted, GroupGivesNetwork, GroupOfOne, AfterBoth, AfterIsNetwork};
ghost use Rattle.roadnet.specs.Ends.{EndsStay, EndsWereTheSame};
ghost use Rattle.roadnet.specs.WalkLaws.{WalksJoin, LeastIsOne, LeastOrNoWalk, LeastIsBounded, DifferenceIsBelow, NoWalkOnward};

/// What holds of steps, whatever the network and the commands.
pub fn laws_of_steps()
    ensures changes { StepChanges }
    ensures admitted { AdmittedSteps }
    ensures joined { GroupsJoin }
    ensures each_in_its_turn { GroupAdmitted }
    ensures group_networks { GroupGivesNetwork }
    ensures group_of_one { GroupOfOne }
    ensures one_after_another { AfterBoth }
    ensures networks { AfterIsNetwork }
    ensures ends { EndsStay }
    ensures same_ends { EndsWereTheSame }
{}

/// What holds of commands that are carried out one after another, whatever the network.
pub fn laws_of_batches()
    ensures first_refused { FirstRefusalIsOfTheFirst }
    ensures carried_out { AfterIsChanged }
    ensures all_carried_out { AfterAllIsChanged }
    ensures flat { GroupsAreTheirCommands }
    ensures flat_refused { RefusedAsTheirCommands }
    ensures fits { AdmittedFits }
    ensures all_fit { AllAdmittedFit }
{}

/// What holds of refusals: if several apply, the one of the lowest number is given.
pub fn laws_of_refusals()
    ensures commands { RefusalIsLowest }
    ensures parts { FlawIsLowest }
{}

/// What holds of walks and shortest distances, in any network.
pub fn laws_of_walks()
    ensures joined { WalksJoin }
    ensures one_least { LeastIsOne }
    ensures one_answer { LeastOrNoWalk }
    ensures bounded { LeastIsBounded }
    ensures difference { DifferenceIsBelow }
    ensures onward { NoWalkOnward }
{}
