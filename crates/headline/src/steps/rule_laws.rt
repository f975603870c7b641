//! What the rules on a program say of each of its points.

ghost use Rattle.headline.specs.steps.Laws.{PointsKeepTheirRules};

/// Each point with a state of a program that keeps the rules keeps those of its point, and each edge leads to such a point again.
pub fn points_keep_their_rules()
    ensures { PointsKeepTheirRules }
{}
