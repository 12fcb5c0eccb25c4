//! Defines signers. A signer is the right to sign in the name of one general.
ghost use Rattle.std.specs.Prelude.{◌≡◌, ◌<◌};

use std::marker::Model;

/// The right to sign in the name of one general of a campaign. It cannot be copied, and only `SignedWorld::open` and
/// `ChainLog::new` make signers, one for each general.
#[derive(Drop)]
pub struct Signer {
    general: u8,
    commander: u8,
}

impl Model for Signer {
    ghost use Rattle.signed.specs.Signers.{Signature, IsSignature};

    ghost Value = { Signature };

    ghost view = { λ s. record { general = s.general; commander = s.commander } };

    ghost invariant = { λ s. IsSignature (record { general = s.general; commander = s.commander }) };
}

impl Signer {
    /// Returns the signer of `general` in a campaign with this commander. Both numbers must be below 13.
    pub(crate) fn of(general: u8, commander: u8) -> Signer
        requires general { general < 13 }
        requires commander { commander < 13 }
        ensures { result ≡ record { general = general; commander = commander } }
    {
        Signer { general, commander }
    }

    /// Returns the number of the general in whose name this signs. It is below 13.
    pub fn general(&self) -> u8
        ensures value { result ≡ self.now.general }
        ensures kind { self.now.general < 13 }
    {
        self.general
    }

    /// Returns the number of the commander in the signer's campaign.
    pub fn commander(&self) -> u8
        ensures { result ≡ self.now.commander }
    {
        self.commander
    }
}
