//! Defines how the threads of a muster can end.
use crate::general_end::GeneralEnd;
use crate::halt::Halt;
use arrayvec::ArrayVec;

/// How the threads of a muster have ended: the thread that called it, and one thread for each general.
#[derive(Drop)]
pub struct Outcomes {
    /// What halted the thread that called the muster, or `None` if it had the campaign.
    pub halt: Option<Halt>,
    /// How the threads ended that were started for generals, ascending by general.
    pub generals: ArrayVec<GeneralEnd, 13>,
}
