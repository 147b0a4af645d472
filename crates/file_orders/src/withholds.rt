//! Requests that the file withholds.

ghost use Rattle.std.specs.Prelude.{◌≡◌};
ghost use Rattle.std.specs.List.{list_any};
ghost use Rattle.rss_machine.specs.Turns.{covers as covers_in, is_withheld as is_withheld_in};
ghost use Rattle.rss_wire.specs.Messages.{same_target};

use pipeline_lang::{Config, Withhold};
use rss_names::{Target, is_same_service};
use rss_wire::Envelope;

/// Whether the file withholds a message: a request whose number to its target a withhold of its stage
/// covers.
pub fn is_withheld(config: &Config, envelope: &Envelope) -> bool
    ensures { result ≡ is_withheld_in config.now envelope.now }
{
    envelope.request && is_covered(config, envelope)
}

// Whether some withhold of the file covers a request.
fn is_covered(config: &Config, envelope: &Envelope) -> bool
    ensures { result ≡ list_any (covers_in envelope.now) config.now.withholds }
{
    config
        .withholds
        .as_slice()
        .iter()
        .any(|withhold| covers(envelope, withhold))
}

// Whether a withhold covers a request.
fn covers(envelope: &Envelope, withhold: &Withhold) -> bool
    ensures { result ≡ covers_in envelope.now withhold.now }
{
    let ordinal = envelope.ordinal as u64;
    let first = withhold.first as u64;
    withhold.stage.number() == envelope.stage.number()
        && is_same_target(&withhold.target, &envelope.target)
        && first <= ordinal
        && ordinal < first + withhold.count as u64
}

// Whether two targets are the same.
fn is_same_target(a: &Target, b: &Target) -> bool
    ensures { result ≡ same_target a.now b.now }
{
    match a {
        Target::Shard(shard) => match b {
            Target::Shard(other) => shard.number() == other.number(),
            Target::Replica(_, _) => false,
        },
        Target::Replica(service, replica) => match b {
            Target::Shard(_) => false,
            Target::Replica(of, other) => {
                is_same_service(*service, *of) && replica.number() == other.number()
            }
        },
    }
}
