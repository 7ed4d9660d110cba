// Theorems: what may replace a system may replace it in every coupling, and replacement is a preorder.
ghost use Rattle.semantics.specs.Theorems.{CouplingPreservesReplacement, ReplacementIsReflexive, ReplacementChains};

// If a may replace b, and c is composable with them, then a coupled with c may replace b coupled with c, and the same
// with c on the other side.
pub fn coupling_preserves_replacement()
    ensures { CouplingPreservesReplacement }
{}

// Every system may replace itself.
pub fn replacement_is_reflexive()
    ensures { ReplacementIsReflexive }
{}

// If a may replace b, and b may replace c, then a may replace c.
pub fn replacement_chains()
    ensures { ReplacementChains }
{}
