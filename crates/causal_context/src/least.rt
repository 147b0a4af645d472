//! The least times of transaction services, each at the place of its number.

ghost use Rattle.std.specs.Prelude.{◌≡◌, length};
ghost use Rattle.causal_context.specs.Services.{IsService};
ghost use Rattle.causal_context.specs.LeastTimes.{least_of, put_least, least_set, least_raised, least_joined, least_from};
ghost use Rattle.rss_names.specs.declared.service.ServiceId.TheVariants.{Txn};

use rss_names::ServiceId;

/// The least time of the transaction service of this number; 0 where there is none.
#[tactic(auto, using(crate::proofs::Timed::least_times))]
pub fn least_at(times: &[Option<u64>; 8], number: u8) -> u64
    ensures { result ≡ least_of (least_from 1 times.now) (Txn number) }
{
    if number == 0 {
        return 0;
    }
    match times.get(number as usize - 1) {
        Some(time) => time.unwrap_or(0),
        None => 0,
    }
}

/// Puts the least time of the transaction service of this number.
#[tactic(auto, using(crate::proofs::Timed::least_puts))]
fn put(times: &mut [Option<u64>; 8], number: u8, time: u64)
    requires service { IsService (Txn number) }
    ensures long { length times.new ≡ 8 }
    ensures same { least_from 1 times.new ≡ put_least (Txn number) time (least_from 1 times.old) }
{
    times[number as usize - 1] = Some(time);
}

/// The least time of a transaction service becomes this one.
pub fn set_least(times: &mut [Option<u64>; 8], id: ServiceId, time: u64)
    requires service { IsService id }
    ensures long { length times.new ≡ 8 }
    ensures same { least_from 1 times.new ≡ least_set id time (least_from 1 times.old) }
{
    if let ServiceId::Txn(number) = id {
        put(times, number, time);
    }
}

/// The least time of a transaction service is raised to at least this one.
pub fn raise_least(times: &mut [Option<u64>; 8], id: ServiceId, time: u64)
    requires service { IsService id }
    ensures long { length times.new ≡ 8 }
    ensures same { least_from 1 times.new ≡ least_raised id time (least_from 1 times.old) }
{
    if let ServiceId::Txn(number) = id {
        let least = least_at(times, number).max(time);
        put(times, number, least);
    }
}

/// Raises each least time to at least that of the others.
pub fn join_least(times: &mut [Option<u64>; 8], others: &[Option<u64>; 8])
    ensures long { length times.new ≡ 8 }
    ensures same { least_from 1 times.new ≡ least_joined (least_from 1 times.old) (least_from 1 others.now) }
{
    for place in 0..8 {
        if let Some(time) = others[place] {
            raise_least(times, ServiceId::Txn(place as u8 + 1), time);
        }
    }
}
