// Theorems: what a coupling is.
ghost use Rattle.semantics.specs.Theorems.{CouplingIsWellFormed, CouplingGoesStateByState, CouplingIsDetermined};

// The coupling of well-formed systems is well formed.
pub fn coupling_is_well_formed()
    ensures { CouplingIsWellFormed }
{}

// A coupling has the states, the start, the ways, the steps and the errors of a coupling, pair of states by pair of
// states.
pub fn coupling_goes_state_by_state()
    ensures { CouplingGoesStateByState }
{}

// A well-formed system with all of that is the same as the coupling.
pub fn coupling_is_determined()
    ensures { CouplingIsDetermined }
{}
