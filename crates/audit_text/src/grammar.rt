//! What lines of an audited text say, against their grammar.
ghost use Rattle.audit_text.specs.Laws.{AnswersAreSaid, EndsAreSaid, LinesSayOne};

/// No line says two things (`one`), so that what `read_said` answers is all that the line may mean. What `run --echo` writes of a
/// line that asks for a call (`answered`), or that finishes one (`ended`), and of the reply, a space, a sign and a space between them, says
/// just that this was the reply.
pub fn lines_are_exact()
    ensures one { LinesSayOne }
    ensures answered { AnswersAreSaid }
    ensures ended { EndsAreSaid }
{}
