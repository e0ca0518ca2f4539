// The rules that a bead may have, by the table in `specs/Rules.antt`: the number in the pattern buffer, the word in a text.
#![tactic(auto)]

ghost use Rattle.std.specs.Prelude.{◌≡◌};
ghost use Rattle.rules.specs.Rules.{rule_of, word_of, is_rule, needs_one_next};

// The number of the rule that the word names; 0 if it names none.
#[tactic(auto, unfolding(crate::specs::Rules::rules, crate::specs::Rules::rule_in))]
pub fn rule_of(word: &[u8]) -> u16
    ensures { result ≡ rule_of word.now }
{
    match word {
        b"SOME" => layout::SOME,
        b"ALL" => layout::ALL,
        _ => 0,
    }
}

// The word of a rule; none, without a byte, for a number that is no rule's.
#[tactic(auto, unfolding(crate::specs::Rules::rules, crate::specs::Rules::word_in))]
pub fn word_of(rule: u16) -> &'static [u8]
    ensures { result.now ≡ word_of rule }
{
    match rule {
        layout::SOME => b"SOME",
        layout::ALL => b"ALL",
        _ => b"",
    }
}

// Is the number a rule's?
#[tactic(auto, unfolding(crate::specs::Rules::rules, crate::specs::Rules::is_rule_in))]
pub fn is_rule(rule: u16) -> bool
    ensures { result ≡ is_rule rule }
{
    matches!(rule, layout::SOME | layout::ALL)
}

// Does a bead of this rule need just one next state everywhere?
#[tactic(auto, unfolding(crate::specs::Rules::rules, crate::specs::Rules::one_next_in))]
pub fn needs_one_next(rule: u16) -> bool
    ensures { result ≡ needs_one_next rule }
{
    matches!(rule, layout::ALL)
}
