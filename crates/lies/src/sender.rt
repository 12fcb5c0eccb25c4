//! The sender of a label: its last general, as the other generals see him.

/// The last general of a label, by what he sends about it.
#[derive(Clone, Copy)]
pub enum Sender {
    /// A loyal general, who sends this order to everyone.
    Loyal(u32),
    /// A traitor, who may send each general another order.
    Traitor,
}

impl Sender {
    ghost use Rattle.std.specs.Prelude.{◌≡◌, ◌≤◌, ℕ, Bool};
    ghost use Rattle.lies.specs.Plans.{attacks_by, may_take, sender_of};

    /// Returns the sender of a label that a general extends who took this order.
    pub(crate) fn of(is_traitor: bool, taken: u32) -> Sender
        ensures { (traitor : ℕ → Bool) → (j : ℕ) → traitor j ≡ is_traitor → result ≡ sender_of traitor j taken }
    {
        if is_traitor {
            Sender::Traitor
        } else {
            Sender::Loyal(taken)
        }
    }

    /// Returns whether a general may take this order from the sender.
    pub(crate) fn may_send(self, is_traitor: bool, taken: u32) -> bool
        ensures { result ≡ may_take self is_traitor taken }
    {
        match self {
            Sender::Loyal(order) => taken == order,
            Sender::Traitor => !is_traitor || taken == 0,
        }
    }

    /// Returns how many orders other than RETREAT the sender sends by this order, if he is a traitor: 0 or 1.
    pub(crate) fn attacks(self, taken: u32) -> u32
        ensures value { result ≡ attacks_by self taken }
        ensures few { result ≤ 1 }
    {
        match self {
            Sender::Loyal(_) => 0,
            Sender::Traitor => u32::from(taken != 0),
        }
    }
}
