//! Writes the chains of a signed campaign to a sink, one line for each chain.
ghost use Rattle.std.specs.Prelude.{◌≡◌, ◌∷◌, [], decimal, flat_map, map};
ghost use Rattle.signed.specs.Sending.{dispatch_of, named};
ghost use Rattle.trace.specs.Sinks.{Wrote};
ghost use Rattle.trace.specs.SignedText.{chain_line, dotted};
ghost use Rattle.trace.specs.Text.{text};

use crate::receivers::named;
use crate::sink::Sink;
use crate::writer::{put_all, put_behind, put_headed, put_next};
use signed::Chain;

/// Writes each general's number with a dot before it, such as `.2.5`.
fn put_joined<S: Sink>(sink: &mut S, generals: &[u8])
    ensures { Wrote (S.contents sink.old) (S.has_failed sink.old) (flat_map (λ g. 46 ∷ decimal g) generals.now)
        (S.contents sink.new) (S.has_failed sink.new) }
{
    for general in generals {
        put_behind(sink, b'.', *general as u64);
    }
}

/// Writes a space and the generals' numbers joined by dots, such as ` 0.2.5`. If there are no generals, it writes ` -`.
fn put_dotted<S: Sink>(sink: &mut S, generals: &[u8])
    ensures { Wrote (S.contents sink.old) (S.has_failed sink.old) (32 ∷ dotted generals.now) (S.contents sink.new)
        (S.has_failed sink.new) }
{
    match generals {
        [] => put_all(sink, b" -"),
        [first, further @ ..] => {
            put_next(sink, *first as u64);
            put_joined(sink, further);
        }
    }
}

/// Writes a space and the numbers of the generals whose bits are set, joined by dots, such as ` 2.5`. If no bit is set,
/// it writes ` -`. Bit g means general g.
fn put_receivers<S: Sink>(sink: &mut S, receivers: u16)
    ensures { Wrote (S.contents sink.old) (S.has_failed sink.old) (32 ∷ dotted (named receivers)) (S.contents sink.new)
        (S.has_failed sink.new) }
{
    let generals = named(receivers);
    put_dotted(sink, generals.as_slice());
}

/// Writes the line of a chain: its order, its signers and its receivers. Bit g of `receivers` means general g.
fn put_chain<S: Sink>(sink: &mut S, chain: &Chain, receivers: u16)
    ensures { Wrote (S.contents sink.old) (S.has_failed sink.old)
        (text (chain_line (dispatch_of (chain.now, receivers)) ∷ [])) (S.contents sink.new) (S.has_failed sink.new) }
{
    put_headed(sink, b"chain", chain.order() as u64);
    put_dotted(sink, chain.signers());
    put_all(sink, b" to");
    put_receivers(sink, receivers);
    put_all(sink, b"\n");
}

/// Writes a line for each chain, in the given order. With each chain go its receivers: bit g means general g.
pub fn put_chains<S: Sink>(sink: &mut S, chains: &[(Chain, u16)])
    ensures { Wrote (S.contents sink.old) (S.has_failed sink.old) (text (map chain_line (map dispatch_of chains.now)))
        (S.contents sink.new) (S.has_failed sink.new) }
{
    for (chain, receivers) in chains {
        put_chain(sink, chain, *receivers);
    }
}
