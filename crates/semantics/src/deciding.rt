// Theorems: sets of states decide what runs and traces say.
ghost use Rattle.semantics.specs.Theorems.{SetsAreExact, ReachKeepsItsRules, WordsAreDecided};

// The states reached, those after a word, and the illegal ones are computed exactly.
pub fn sets_are_exact()
    ensures { SetsAreExact }
{}

// What a set reaches is the set itself if internal steps stay in it, and else what it reaches with one step more.
pub fn reach_keeps_its_rules()
    ensures { ReachKeepsItsRules }
{}

// For every word the two tests say whether it is a trace, and whether it is an error trace.
pub fn words_are_decided()
    ensures { WordsAreDecided }
{}
