// Theorems: what error traces are, and what leaves them error traces.
ghost use Rattle.semantics.specs.Theorems.{ErrorTracesByIllegalStates, ErrorTracesLoseOutputs, ErrorTracesGainLetters};

// A word is an error trace exactly where some prefix of it can lead to an illegal state, or is followed by an input
// that some state reached by it does not accept.
pub fn error_traces_by_illegal_states()
    ensures { ErrorTracesByIllegalStates }
{}

// An error trace stays one when outputs at its end are dropped, and when it is pruned.
pub fn error_traces_lose_outputs()
    ensures { ErrorTracesLoseOutputs }
{}

// An error trace stays one when letters are added at its end.
pub fn error_traces_gain_letters()
    ensures { ErrorTracesGainLetters }
{}
