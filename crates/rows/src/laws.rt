ghost use Rattle.rows.specs.BoundLaws.{BoundIsBelow, ShownIsTrue, BoundIsOne, BoundOrShown, BoundFromLandmark, ShownFromLandmark};
ghost use Rattle.rows.specs.ReplyLaws.{RightIsOne, BoundUnderDistance, ShownHasNoWalk};

/// What holds of bounds, in any network.
pub fn laws_of_bounds()
    ensures below { BoundIsBelow }
    ensures shown { ShownIsTrue }
    ensures one { BoundIsOne }
    ensures one_answer { BoundOrShown }
    ensures from_landmark { BoundFromLandmark }
    ensures shown_from_landmark { ShownFromLandmark }
{}

/// What holds of right replies, in any network.
pub fn laws_of_replies()
    ensures one { RightIsOne }
    ensures bound { BoundUnderDistance }
    ensures shown { ShownHasNoWalk }
{}
