//! The neighbours that no input has taken yet: place `k` is free where bit `k` is set.
ghost use Rattle.std.specs.Prelude.{◌≡◌, ℕ, ◌+◌, ◌-◌, ◌^◌, ◌<◌, ◌≤◌, length, IfSome};
ghost use Rattle.life_table.specs.Words.{free_count, of_state};

use life_base::State;

/// Each of the first `count` places.
pub(crate) fn all_free(count: usize) -> u8
    requires { count ≤ 8 }
    ensures { result ≡ 2 ^ count - 1 }
{
    ((1_u16 << count) - 1) as u8
}

/// The free places without the first that has this state, if one has.
pub(crate) fn without_one(states: &[State], free: u8, s: State) -> Option<u8>
    requires { length states.now ≤ 8 }
    ensures less { IfSome result (λ rest. rest ≤ free) }
    ensures counts { IfSome result (λ rest. (t : ℕ)
        → free_count t free states.now ≡ of_state t s 1 + free_count t rest states.now) }
    ensures none { result ≡ None → free_count s free states.now ≡ 0 }
{
    for (place, state) in states.iter().enumerate() {
        if *state == s && free >> place & 1 == 1 {
            return Some(free - (1 << place));
        }
    }
    None
}

/// The free places without the first ones that have this state, if so many have.
pub(crate) fn without(states: &[State], free: u8, s: State, times: u8) -> Option<u8>
    requires { length states.now ≤ 8 }
    ensures less { IfSome result (λ rest. rest ≤ free) }
    ensures counts { IfSome result (λ rest. (t : ℕ)
        → free_count t free states.now ≡ of_state t s times + free_count t rest states.now) }
    ensures none { result ≡ None → free_count s free states.now < times }
{
    let mut rest = free;
    for _ in 0..times {
        rest = without_one(states, rest, s)?;
    }
    Some(rest)
}
