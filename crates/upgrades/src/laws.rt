ghost use Rattle.upgrades.specs.Laws.{EachIsCounted, SameMapChangesNothing};

/// What holds of upgrades, whatever the networks.
pub fn laws_of_upgrades()
    ensures counted { EachIsCounted }
    ensures same_map { SameMapChangesNothing }
{}
