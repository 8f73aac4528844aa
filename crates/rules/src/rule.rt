// The six rules and their codes.
ghost use Rattle.rules.specs.RuleCode.{RuleOf};

// The code of the one rule that builds terms.
pub const CNF: u32 = 3;

#[derive(Clone, Copy, PartialEq, Eq)]
pub enum Rule {
    Join,
    RmUnused,
    Cnf,
    Distribute,
    Split,
    Ite,
}

// The rule of a code.
pub fn rule_of(code: u32) -> Option<Rule>
    ensures { RuleOf code result }
{
    match code {
        1 => Some(Rule::Join),
        2 => Some(Rule::RmUnused),
        CNF => Some(Rule::Cnf),
        4 => Some(Rule::Distribute),
        5 => Some(Rule::Split),
        6 => Some(Rule::Ite),
        _ => None,
    }
}
