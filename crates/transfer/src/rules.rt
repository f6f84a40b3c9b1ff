// Makes the rule of a transfer: it says which domain is the input.
ghost use Rattle.std.specs.Prelude.{◌≡◌};
ghost use Rattle.transfer.specs.Rules as rules;

use engine::Rule;
use field::Domain;
use key::Signature;

// Returns the rule for a transfer from the input domain to the output domain.
fn rule_between(input: Domain, output: Domain, s: Signature) -> Rule
    ensures { result ≡ rules.rule_between input output s }
{
    Rule {
        input,
        output,
        check_mask: s.check_mask,
        copy_mask: field::copy_mask(s.attribute_flags, s.copy_mask, input, output),
    }
}

// Returns the rule for a transfer from memory to the wire.
pub(crate) fn send_rule(s: Signature) -> Rule
    ensures { result ≡ rules.send_rule s }
{
    rule_between(s.memory, s.wire, s)
}

// Returns the rule for a transfer from the wire to memory.
pub fn receive_rule(s: Signature) -> Rule
    ensures { result ≡ rules.receive_rule s }
{
    rule_between(s.wire, s.memory, s)
}
