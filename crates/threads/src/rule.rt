//! Defines the rule of the post, and the moves that the rule allows. A move is an operation on the post, or on the
//! passes of its users.
use crate::claim::Claim;
use crate::knowledge::Known;
use crossbeam_queue::RuledArrayQueue;
use crossbeam_queue::protocol::{Join, Lesson, Outcome, Protocol, Split};
use round::Letter;
use std::marker::PhantomData;

/// The queue through which the generals' threads give their letters to the collector. Its type guarantees that every
/// operation obeys the rule of this file.
pub(crate) type Queue<C> = RuledArrayQueue<Letter, Known, Delivery<C>>;

/// The rule of the post. For each general, the letters already taken, followed by those still queued, are exactly the
/// letters that he has posted. The claim `C` holds for each queued letter.
#[derive(Drop)]
pub(crate) struct Delivery<C> {
    of: PhantomData<C>,
}

impl<C: Claim> Protocol<Letter, Known> for Delivery<C> {
    ghost use Rattle.std.specs.Prelude.{[]};
    ghost use Rattle.threads.specs.Rule.{collector, DeliversOnly};

    ghost holds = { DeliversOnly C.holds };

    ghost first = { collector [] 0 [] };
}

/// The move in which the collector makes the poster of the next general.
pub(crate) struct Hire;

impl Split<Known> for Hire {
    ghost use Rattle.std.specs.Prelude.{[], ◌+◌};
    ghost use Rattle.threads.specs.Rule.{collector, poster};

    ghost left = { λ v. collector v.letters (v.made + 1) v.back };

    ghost right = { λ v. poster v.made [] };
}

/// The move in which a poster is returned to the collector.
pub(crate) struct Return;

impl Join<Known> for Return {
    ghost use Rattle.std.specs.Prelude.{◌∷◌};
    ghost use Rattle.threads.specs.Delivery.{posted};
    ghost use Rattle.threads.specs.Rule.{collector, spent};

    ghost both = { λ v u. collector v.letters v.made (posted u.general u.letters ∷ v.back) };

    ghost spent = { spent };
}

/// The move in which a poster posts a letter.
pub(crate) struct Put;

impl Outcome<Letter, Known> for Put {
    ghost use Rattle.std.specs.Prelude.{[], ◌∷◌, ◌++◌, ◌≡◌};
    ghost use Rattle.threads.specs.Rule.{poster};

    ghost then = { λ v x w. w ≡ poster v.general (v.letters ++ x ∷ []) };
}

impl Lesson<Letter, Known> for Put {
    ghost fact = { λ v items. Unit {0} };
}

/// The move in which the collector takes a letter, or finds the queue empty. The claim `C` holds for the letter.
pub(crate) struct Took<C> {
    of: PhantomData<C>,
}

impl<C: Claim> Outcome<Letter, Known> for Took<C> {
    ghost use Rattle.std.specs.Prelude.{[], ◌∷◌, ◌++◌, ◌≡◌};
    ghost use Rattle.threads.specs.Rule.{collector};

    ghost then = { λ v x w. (w ≡ collector (v.letters ++ x ∷ []) v.made v.back) × C.holds x };
}

impl<C: Claim> Lesson<Letter, Known> for Took<C> {
    ghost use Rattle.std.specs.Prelude.{◌++◌};
    ghost use Rattle.threads.specs.Delivery.{AreDelivered};

    ghost fact = { λ v items. AreDelivered (v.letters ++ items) v.back };
}
