// The rules at work on small examples, joined in one statement.
#![tactic(auto)]

ghost use Rattle.std.specs.Prelude.{◌≡◌};
ghost use Rattle.examples.specs.Examples.{Examples};

// How many examples are shown of the rules.
pub fn examples_hold() -> u8
    ensures examples { Examples }
    ensures count { result ≡ 7 }
{
    let shown = 7;
    shown
}
