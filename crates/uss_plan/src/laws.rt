// What a choice is worth, above its definition.
ghost use Rattle.uss_plan.specs.Best.{BestIsChosen};

/// Where an alternative is chosen, nothing stands against it, and something stands against each before it. Where the choice is blocked,
/// something stands against each alternative, and the pair that is named stands against the first, by the verdict that is named, and none
/// before it. This function does nothing: its contract carries the law.
pub fn best_is_chosen()
    ensures { BestIsChosen }
{}
