//! Capacity for the squares of an input whose length is known.

ghost use Rattle.std.specs.Prelude.{◌≡◌};

use life_quad::Shared;

/// How many bytes come before capacity is reserved for the first time.
const SAMPLE: u64 = 1 << 16;

/// Capacity is reserved for no more than one node for so many bytes that are still to come, or for so many times the nodes that came, whatever the rate was: an
/// input may be dense at its beginning only.
const LEAST_BYTES: u64 = 8;

const MOST_TIMES: u64 = 4;

/// How many times as many bytes have to come until capacity is reserved again.
const LATER: u64 = 4;

/// When capacity is reserved in a store for the squares of the rest of an input, and for how many: at the rate of the bytes before it. It changes
/// nothing that can be seen.
#[derive(Drop)]
pub(crate) struct ReservePlan {
    /// How many nodes the store had before the input.
    nodes: usize,
    /// About how many bytes the input has, or 0.
    expected: u64,
    /// After how many bytes capacity is reserved the next time.
    next: u64,
}

impl ReservePlan {
    pub(crate) fn new(store: &Shared, expected: u64) -> ReservePlan {
        ReservePlan {
            nodes: store.nodes(),
            expected,
            next: SAMPLE,
        }
    }

    /// Reserves capacity after the first 64 KiB of the input, and again whenever four times as many bytes have come.
    pub(crate) fn make(&mut self, store: &mut Shared, count: u64)
        ensures { store.new ≡ store.old }
    {
        if count < self.next || self.expected <= count {
            return;
        }
        self.next = count.saturating_mul(LATER);
        let left = self.expected - count;
        let nodes = store.nodes().saturating_sub(self.nodes) as u64;
        let rate = nodes as u128 * left as u128 / count.max(1) as u128;
        let most = (left / LEAST_BYTES).max(nodes.saturating_mul(MOST_TIMES));
        store.reserve(rate.min(most as u128) as usize);
    }
}
