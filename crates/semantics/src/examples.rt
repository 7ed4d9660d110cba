// Theorems: worked examples against careless readings.
ghost use Rattle.semantics.specs.Examples.{LateInputIsMissed, OutputIntoErrorCountsBeforeIt};
ghost use Rattle.semantics.specs.Examples.{SilentMayReplaceReplying, ReplyingMayNotReplaceSilent, RelayMissesASecondReply};

// A system that takes an input only after an internal step does not accept it itself.
pub fn late_input_is_missed()
    ensures { LateInputIsMissed }
{}

// A system that runs into an error by an output of its own has the word before that output as an error trace.
pub fn output_into_error_counts_before_it()
    ensures { OutputIntoErrorCountsBeforeIt }
{}

// A system without replies may replace one with replies,
pub fn silent_may_replace_replying()
    ensures { SilentMayReplaceReplying }
{}

// and not the other way round.
pub fn replying_may_not_replace_silent()
    ensures { ReplyingMayNotReplaceSilent }
{}

// In a coupling an output that the other part takes in elsewhere, but not here, is an error here.
pub fn relay_misses_a_second_reply()
    ensures { RelayMissesASecondReply }
{}
