//! How many fences were planned of each service.

ghost use Rattle.std.specs.Prelude.{◌≡◌, ◌+◌, ◌<◌, ◌≤◌, length, get_or, IfSome};
ghost use Rattle.causal_context.specs.Services.{place_of as place_for, place_from};
ghost use Rattle.rss_machine.specs.Moves.{counts_fences, one_more_at};
ghost use Rattle.world_traffic.specs.View.{CountsFit, no_fence};

use rss_names::{MOST_OF_A_KIND, ServiceId};
use rss_tables::FenceWork;

/// Fences of a plan are counted, each with its service.
#[tactic(auto, using(crate::proofs::Counts::counting))]
pub fn count_fences(planned: &mut [u32; 16], fences: &[(ServiceId, FenceWork)])
    requires fits { CountsFit (length fences.now) planned.old }
    ensures { planned.new ≡ counts_fences fences.now planned.old }
{
    for at in 0..fences.len() {
        count_at(planned, fences, at);
    }
}

// The fence at a place is counted.
fn count_at(planned: &mut [u32; 16], fences: &[(ServiceId, FenceWork)], at: usize)
    requires inside { at < length fences.now }
    requires fits { CountsFit 1 planned.old }
    ensures { planned.new ≡ one_more_at (place_for (get_or fences.now at no_fence).0) planned.old }
{
    count_one(planned, fences[at].0);
}

// One more fence of a service is planned.
#[tactic(auto, using(crate::proofs::Counts::placing))]
fn count_one(planned: &mut [u32; 16], id: ServiceId)
    requires fits { CountsFit 1 planned.old }
    ensures { planned.new ≡ one_more_at (place_for id) planned.old }
{
    if let Some(place) = place_of(id) {
        planned[place] += 1;
    }
}

// The place of a service in the order of services; none where its number is not from 1 to 8.
fn place_of(id: ServiceId) -> Option<usize>
    ensures same { result ≡ place_for id }
    ensures within { IfSome result (λ place. place < 16) }
{
    match id {
        ServiceId::Txn(number) => place_in(0, number),
        ServiceId::Reg(number) => place_in(8, number),
    }
}

// The place of a number in its kind, whose first place this is.
fn place_in(first: usize, number: u8) -> Option<usize>
    requires first { first ≤ 8 }
    ensures same { result ≡ place_from first number }
    ensures within { IfSome result (λ place. place < 16) }
{
    if number == 0 || number > MOST_OF_A_KIND {
        return None;
    }
    Some(first + (number as usize - 1))
}
