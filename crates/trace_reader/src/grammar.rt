ghost use Rattle.trace_reader.specs.GrammarRefusals.{RefusesTheRest, RefusesForTheReason, RefusesForNoOther};
ghost use Rattle.trace_reader.specs.LineGrammar.{ReadsWhatIsSaid, ReadsNothingElse};
ghost use Rattle.trace_reader.specs.InputGrammar.{ReadsTheTrace, ReadsNoOtherTrace, RefusesWhereItFails, RefusesNowhereElse};
ghost use Rattle.trace_reader.specs.HeaderGrammar.{ReadsTheHeader, ReadsNoOtherHeader, RefusesOtherFirstLines};

/// The laws of the lines after the header: the reader takes the bytes that say
/// an actor's command, `go` or an item of the schedule, gives just these, and
/// refuses the rest: as `word` exactly where they are of no form or a second
/// `go`, else as `actor` exactly where the header doesn't declare the form's
/// actor, and else as `number`.
pub fn grammar_is_exact()
    ensures forward { ReadsWhatIsSaid }
    ensures backward { ReadsNothingElse }
    ensures refused { RefusesTheRest }
    ensures reason { RefusesForTheReason }
    ensures only_reason { RefusesForNoOther }
{}

/// The laws of the header: the reader takes the words that say one, gives just
/// it, and refuses the rest as `header`.
pub fn header_grammar_is_exact()
    ensures forward { ReadsTheHeader }
    ensures backward { ReadsNoOtherHeader }
    ensures refused { RefusesOtherFirstLines }
{}

/// The laws of a whole input: the reader takes the bytes that say a trace, gives
/// just it, and refuses any other input at the first line that fails, for the
/// first check that this line fails.
pub fn input_grammar_is_exact()
    ensures forward { ReadsTheTrace }
    ensures backward { ReadsNoOtherTrace }
    ensures refused { RefusesWhereItFails }
    ensures only_refused { RefusesNowhereElse }
{}
