ghost use Rattle.type_suits.specs.Laws.{ArmsSuit, PatternSuits};

/// A law: what typing gives for a pattern suits the type that it meets.
pub fn pattern_suits()
    ensures { PatternSuits }
{}

/// A law: what typing gives for the patterns of a match suits the type that the match looks at.
pub fn arms_suit()
    ensures { ArmsSuit }
{}
