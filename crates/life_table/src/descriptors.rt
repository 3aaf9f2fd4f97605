//! Descriptors: the number of states, the neighbourhood and the symmetry.

ghost use Rattle.std.specs.Prelude.{◌≡◌, bytes_eq, find};
ghost use Rattle.life_table.specs.Words.{states_named, neighborhood_named, symmetry_named, agree, if_states, if_neighborhood, if_symmetry, parse_descriptor, is_neighborhood_key};

use crate::directive::{Directive, Parsed};
use crate::table::{Neighborhood, Symmetry};
use crate::words::{is_word, number_below, split_at_byte};
use life_base::{Kind, trimmed};

/// The number of states that a word writes.
fn states_named(word: &[u8]) -> Option<u16>
    ensures { result ≡ states_named word.now }
{
    match number_below(word, 257) {
        Some(number) if 2 <= number => Some(number as u16),
        _ => None,
    }
}

/// The neighbourhoods by their words.
const NEIGHBORHOODS: [(&[u8], Neighborhood); 2] = [
    (b"vonNeumann", Neighborhood::VonNeumann),
    (b"Moore", Neighborhood::Moore),
];

/// The symmetries by their words.
const SYMMETRIES: [(&[u8], Symmetry); 7] = [
    (b"none", Symmetry::Identity),
    (b"rotate4", Symmetry::Rotate4),
    (b"rotate4reflect", Symmetry::Rotate4Reflect),
    (b"reflect_horizontal", Symmetry::ReflectHorizontal),
    (b"permute", Symmetry::Permute),
    (b"rotate8", Symmetry::Rotate8),
    (b"rotate8reflect", Symmetry::Rotate8Reflect),
];

/// The row of a table with this word.
fn row_of<'x, T: Copy>(table: &[(&'x [u8], T)], word: &[u8]) -> Option<(&'x [u8], T)>
    ensures { result ≡ find (λ row. bytes_eq word.now row.0.now) table.now }
{
    table.iter().copied().find(|row| is_word(word, row.0))
}

/// The neighbourhood with this word.
fn neighborhood_named(word: &[u8]) -> Option<Neighborhood>
    ensures { result ≡ neighborhood_named word.now }
{
    row_of(&NEIGHBORHOODS, word).map(|row| row.1)
}

/// The symmetry with this word.
fn symmetry_named(word: &[u8]) -> Option<Symmetry>
    ensures { result ≡ symmetry_named word.now }
{
    row_of(&SYMMETRIES, word).map(|row| row.1)
}

/// Whether the symmetry is listed for the neighbourhood, where both are known.
fn agree(neighborhood: Option<Neighborhood>, symmetry: Option<Symmetry>) -> bool
    ensures { result ≡ agree neighborhood symmetry }
{
    match (neighborhood, symmetry) {
        (Some(Neighborhood::VonNeumann), Some(Symmetry::Rotate8 | Symmetry::Rotate8Reflect)) =>
            false,
        _ => true,
    }
}

/// What a number of states says, or which rule it breaks.
fn parse_states(word: &[u8]) -> Result<Directive, Kind>
    ensures { result ≡ if_states (states_named word.now) }
{
    match states_named(word) {
        Some(number) => Ok(Directive::States(number)),
        None => Err(Kind::BadDescriptor),
    }
}

/// The same for a neighbourhood after this symmetry.
fn parse_neighborhood(symmetry: Option<Symmetry>, word: &[u8]) -> Result<Directive, Kind>
    ensures { result ≡ if_neighborhood symmetry (neighborhood_named word.now) }
{
    match neighborhood_named(word) {
        Some(neighborhood) => {
            if agree(Some(neighborhood), symmetry) {
                Ok(Directive::Neighbors(neighborhood))
            } else {
                Err(Kind::UnsupportedSymmetry)
            }
        }
        None => Err(Kind::UnsupportedNeighborhood),
    }
}

/// The same for a symmetry after this neighbourhood.
fn parse_symmetry(neighborhood: Option<Neighborhood>, word: &[u8]) -> Result<Directive, Kind>
    ensures { result ≡ if_symmetry neighborhood (symmetry_named word.now) }
{
    match symmetry_named(word) {
        Some(symmetry) => {
            if agree(neighborhood, Some(symmetry)) {
                Ok(Directive::Orders(symmetry))
            } else {
                Err(Kind::UnsupportedSymmetry)
            }
        }
        None => Err(Kind::UnsupportedSymmetry),
    }
}

/// Whether a key is before the neighbourhood.
fn is_neighborhood_key(key: &[u8]) -> bool
    ensures { result ≡ is_neighborhood_key key.now }
{
    is_word(key, b"neighborhood") || is_word(key, b"neighbourhood")
}

/// What a descriptor says, or which rule it breaks.
#[tactic(auto, unfolding(crate::specs::Reading::parse_descriptor))]
pub(crate) fn parse_descriptor(parsed: &Parsed, text: &[u8]) -> Result<Directive, Kind>
    ensures { result ≡ parse_descriptor parsed.now.n_states parsed.now.neighborhood
        parsed.now.symmetry text.now }
{
    let (key, setting) = split_at_byte(text, b':');
    let (key, word) = (trimmed(key), trimmed(setting));
    if is_word(key, b"n_states") {
        return if parsed.n_states.is_some() {
            Err(Kind::BadDescriptor)
        } else {
            parse_states(word)
        };
    }
    if is_neighborhood_key(key) {
        return if parsed.neighborhood.is_some() {
            Err(Kind::BadDescriptor)
        } else {
            parse_neighborhood(parsed.symmetry, word)
        };
    }
    if is_word(key, b"symmetries") {
        return if parsed.symmetry.is_some() {
            Err(Kind::BadDescriptor)
        } else {
            parse_symmetry(parsed.neighborhood, word)
        };
    }
    Err(Kind::BadDescriptor)
}
