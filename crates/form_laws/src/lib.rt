// Laws of the form of grammar texts, above the definition that the reader is proved against.
#![tactic(auto)]

ghost use Rattle.form_laws.specs.Law.{FormIsGrammar, RefusalsAreFirst};

// The form accepts the tokens that the grammar writes, with the rules that they write, and no others.
pub fn form_is_grammar()
    ensures { FormIsGrammar }
{}

// Where the form refuses tokens: those before the place can be completed to a text, those up to and with it can't.
pub fn refusals_are_first()
    ensures { RefusalsAreFirst }
{}
