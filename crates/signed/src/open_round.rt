//! Gives access to what a general needs to sign chains in the open round: his signer, and the chains that he holds.
ghost use Rattle.std.specs.Prelude.{◌≡◌, ◌<◌, IfOk};
ghost use Rattle.signed.specs.Kind.{held_in};

use crate::held_chains::Held;
use crate::signed_world::SignedWorld;
use crate::signer::Signer;
use std::alloc::AllocError;

impl SignedWorld {
    /// Returns a general's signer, with which chains can be signed in his name. Such a chain is not sent: the world
    /// signs and sends the campaign's chains itself when it closes a round.
    pub fn signer(&self, general: u8) -> &Signer
        requires { general < self.now.scenario.generals }
        ensures general { result.now.general ≡ general }
        ensures commander { result.now.commander ≡ self.now.scenario.commander }
    {
        &self.signers[usize::from(general)]
    }

    /// Returns the chains that a general has received in the closed rounds.
    ///
    /// # Errors
    ///
    /// Fails with `AllocError` if there is no memory for the references to the chains.
    pub fn held(&self, general: u8) -> Result<Held<'_>, AllocError>
        requires { general < self.now.scenario.generals }
        ensures { IfOk result (λ held. held.chains ≡ held_in self.now.scenario self.now.closed general) }
    {
        self.scenario.recall();
        Held::behind(self.alloc, self.sent.as_slice(), general)
    }
}
