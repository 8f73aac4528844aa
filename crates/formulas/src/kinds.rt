// The kinds of connective and of quantifier, and their tags.
ghost use Rattle.std.specs.Prelude.{◌≡◌};
ghost use Rattle.formulas.specs.Formula.{is_and, is_forall, connective_tag, quantifier_tag};
ghost use Rattle.formulas.specs.Normal.{flip};

use pool::tags::{AND, EXISTS, FORALL, OR};

#[derive(Clone, Copy)]
pub enum ConnectiveKind {
    And,
    Or,
}

#[derive(Clone, Copy, PartialEq, Eq)]
pub enum QuantifierKind {
    Forall,
    Exists,
}

impl ConnectiveKind {
    pub fn tag(self) -> u8
        ensures { result ≡ connective_tag (is_and self) }
    {
        match self {
            ConnectiveKind::And => AND,
            ConnectiveKind::Or => OR,
        }
    }

    // The kind in the normal form at a polarity: the other one at false.
    pub fn at(self, polarity: bool) -> ConnectiveKind
        ensures { is_and result ≡ flip (is_and self) polarity }
    {
        match (self, polarity) {
            (ConnectiveKind::And, true) | (ConnectiveKind::Or, false) => ConnectiveKind::And,
            (ConnectiveKind::Or, true) | (ConnectiveKind::And, false) => ConnectiveKind::Or,
        }
    }
}

impl QuantifierKind {
    pub fn tag(self) -> u8
        ensures { result ≡ quantifier_tag (is_forall self) }
    {
        match self {
            QuantifierKind::Forall => FORALL,
            QuantifierKind::Exists => EXISTS,
        }
    }

    // The kind in the normal form at a polarity: the other one at false.
    pub fn at(self, polarity: bool) -> QuantifierKind
        ensures { is_forall result ≡ flip (is_forall self) polarity }
    {
        match (self, polarity) {
            (QuantifierKind::Forall, true) | (QuantifierKind::Exists, false) =>
                QuantifierKind::Forall,
            (QuantifierKind::Exists, true) | (QuantifierKind::Forall, false) =>
                QuantifierKind::Exists,
        }
    }

    // The tag as a refusal carries it.
    pub fn carried_tag(self) -> u32
        ensures { result ≡ quantifier_tag (is_forall self) }
    {
        self.tag() as u32
    }
}
